// Numbers that say their unit by their type. The number inside is private: a value is made, and its number is
// taken out, only by a function whose name says the unit.
#![tactic(auto)]

ghost use Rattle.std.specs.Prelude.{◌≡◌};
ghost use Rattle.time_units.specs.Meant.{fraction};

// The draft's time32: a length of time, as a count of 2^-28 s.
#[repr(C)]
#[derive(Clone, Copy)]
pub struct Time32(u32);

impl Time32 {
    pub fn from_units_of_2pow_minus_28_s(count: u32) -> Time32
        ensures { result.0 ≡ count }
    {
        Time32(count)
    }

    pub fn units_of_2pow_minus_28_s(self) -> u32
        ensures { result ≡ self.0 }
    {
        self.0
    }

    // The count in seconds, with nothing lost.
    pub fn seconds(self) -> f64
        ensures { result ≡ fraction self.0 28 }
    {
        self.0 as f64 * 0.0000000037252902984619140625
    }
}

// RFC 5905's short format: a length of time, as a count of 2^-16 s. It is another type than Time32, so neither is taken for the
// other.
#[repr(C)]
#[derive(Clone, Copy)]
pub struct NtpShort(u32);

impl NtpShort {
    pub fn from_units_of_2pow_minus_16_s(count: u32) -> NtpShort
        ensures { result.0 ≡ count }
    {
        NtpShort(count)
    }

    pub fn units_of_2pow_minus_16_s(self) -> u32
        ensures { result ≡ self.0 }
    {
        self.0
    }

    // The count in seconds, with nothing lost.
    pub fn seconds(self) -> f64
        ensures { result ≡ fraction self.0 16 }
    {
        self.0 as f64 * 0.0000152587890625
    }
}

// A point in time: a count of 2^-32 s since an era began. Era 0 began with the year 1900; an era has 2^32 s.
// A header of NTPv5 says which era and which timescale its timestamps are of; the older one does not.
#[repr(C)]
#[derive(Clone, Copy)]
pub struct NtpTimestamp(u64);

impl NtpTimestamp {
    pub fn from_units_of_2pow_minus_32_s(count: u64) -> NtpTimestamp
        ensures { result.0 ≡ count }
    {
        NtpTimestamp(count)
    }

    pub fn units_of_2pow_minus_32_s(self) -> u64
        ensures { result ≡ self.0 }
    {
        self.0
    }
}

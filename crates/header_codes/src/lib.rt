// The coded numbers of NTPv5's header (V5 mod.rs): leap, mode, timescale, flags and poll, each as what it stands
// for and as the number that it is in the header. The poll is that of the older header too.
#![tactic(auto)]

ghost use Rattle.std.specs.Prelude.{◌≡◌};
ghost use Rattle.std.specs.Int.{w8};
ghost use Rattle.std.proofs.Common.{to_z};
ghost use Rattle.header_codes.specs.Meant.{leap_read, leap_turned, leap_bits, is_mode, mode_of, mode_bits, timescale_of, timescale_number, flags_of, bit, flags_number, leap_told, leap_of};

#[derive(Clone, Copy)]
pub enum NtpLeapIndicator {
    NoWarning,
    Leap61,
    Leap59,
    // Synchronized, and whether a leap second comes is not known.
    Unknown,
    Unsynchronized,
}

#[derive(Clone, Copy)]
pub enum NtpMode {
    Request,
    Response,
}

#[derive(Clone, Copy)]
pub enum NtpTimescale {
    Utc,
    Tai,
    Ut1,
    LeapSmearedUtc,
}

#[derive(Clone, Copy)]
pub struct NtpFlags {
    pub synchronized: bool,
    pub interleaved_mode: bool,
    pub authnak: bool,
}

#[tactic(auto, unfolding(crate::specs::Meant::one_of))]
pub fn leap_from_bits(bits: u8) -> NtpLeapIndicator
    ensures { result ≡ leap_read bits }
{
    match bits {
        0 => NtpLeapIndicator::NoWarning,
        1 => NtpLeapIndicator::Leap61,
        2 => NtpLeapIndicator::Leap59,
        _ => NtpLeapIndicator::Unsynchronized,
    }
}

// The flag decides whether the clock is synchronized, and the leap follows it.
pub fn fix_leap_indicator(synchronized: bool, leap: NtpLeapIndicator) -> NtpLeapIndicator
    ensures { result ≡ leap_turned synchronized leap }
{
    if synchronized {
        match leap {
            NtpLeapIndicator::Unsynchronized => NtpLeapIndicator::Unknown,
            _ => leap,
        }
    } else {
        NtpLeapIndicator::Unsynchronized
    }
}

pub fn leap_to_bits(leap: NtpLeapIndicator) -> u8
    ensures { result ≡ leap_bits leap }
{
    match leap {
        NtpLeapIndicator::NoWarning => 0,
        NtpLeapIndicator::Leap61 => 1,
        NtpLeapIndicator::Leap59 => 2,
        NtpLeapIndicator::Unknown | NtpLeapIndicator::Unsynchronized => 3,
    }
}

// How a leap is told: by its place in ntp-proto's list, since the header has one number for the last two.
pub fn leap_told(leap: NtpLeapIndicator) -> u8
    ensures { result ≡ leap_told leap }
{
    leap as u8
}

// The leap that is told so.
pub fn leap_of(told: u8) -> NtpLeapIndicator
    ensures { result ≡ leap_of told }
{
    match told {
        3 => NtpLeapIndicator::Unknown,
        _ => leap_from_bits(told),
    }
}

pub fn is_mode(bits: u8) -> bool
    ensures { result ≡ is_mode bits }
{
    matches!(bits, 3 | 4)
}

pub fn mode_from_bits(bits: u8) -> NtpMode
    ensures { result ≡ mode_of bits }
{
    match bits {
        3 => NtpMode::Request,
        _ => NtpMode::Response,
    }
}

pub fn mode_to_bits(mode: NtpMode) -> u8
    ensures { result ≡ mode_bits mode }
{
    match mode {
        NtpMode::Request => 3,
        NtpMode::Response => 4,
    }
}

#[tactic(auto, unfolding(crate::specs::Meant::one_of))]
pub fn timescale_from_bits(bits: u8) -> NtpTimescale
    ensures { result ≡ timescale_of bits }
{
    match bits {
        0 => NtpTimescale::Utc,
        1 => NtpTimescale::Tai,
        2 => NtpTimescale::Ut1,
        _ => NtpTimescale::LeapSmearedUtc,
    }
}

pub fn timescale_to_bits(timescale: NtpTimescale) -> u8
    ensures { result ≡ timescale_number timescale }
{
    match timescale {
        NtpTimescale::Utc => 0,
        NtpTimescale::Tai => 1,
        NtpTimescale::Ut1 => 2,
        NtpTimescale::LeapSmearedUtc => 3,
    }
}

pub fn flags_from_bits(bits: u16) -> NtpFlags
    ensures { result ≡ flags_of bits }
{
    NtpFlags {
        synchronized: bits % 2 == 1,
        interleaved_mode: bits / 2 % 2 == 1,
        authnak: bits / 4 % 2 == 1,
    }
}

pub fn bit_of(flag: bool) -> u8
    ensures { result ≡ bit flag }
{
    u8::from(flag)
}

pub fn flags_as_bits(flags: NtpFlags) -> u8
    ensures { result ≡ flags_number flags }
{
    bit_of(flags.synchronized) + bit_of(flags.interleaved_mode) * 2 + bit_of(flags.authnak) * 4
}

// How long a client waits between two requests: log2 of seconds, signed, in the byte of a header. The byte is
// private, so that nobody takes it for seconds.
#[repr(C)]
#[derive(Clone, Copy)]
pub struct PollInterval(u8);

impl PollInterval {
    pub fn from_byte(byte: u8) -> PollInterval
        ensures { result.0 ≡ byte }
    {
        PollInterval(byte)
    }

    pub fn as_byte(self) -> u8
        ensures { result ≡ self.0 }
    {
        self.0
    }

    pub fn as_log2_seconds(self) -> i8
        ensures { result ≡ to_z w8 self.0 }
    {
        header_numbers::as_i8(self.0)
    }
}

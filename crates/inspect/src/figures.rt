// Times as a person reads them.
use std::fmt;

pub(crate) const BILLION: u64 = 1000000000;

// Figures from here on are shown in the next larger unit.
const LARGE: u64 = 10000;

// A quotient, rounded.
fn thousandth(number: u64) -> u64 {
    number.wrapping_add(500) / 1000
}

#[derive(Clone, Copy)]
struct Nanoseconds(u64);

impl fmt::Display for Nanoseconds {
    fn fmt<W: fmt::Write>(&self, f: &mut fmt::Formatter<W>) -> fmt::Result {
        let nanoseconds = self.0;
        if nanoseconds < LARGE {
            return write!(f, "{nanoseconds} ns");
        }
        let microseconds = thousandth(nanoseconds);
        if microseconds < LARGE {
            return write!(f, "{microseconds} us");
        }
        let milliseconds = thousandth(microseconds);
        write!(f, "{milliseconds} ms")
    }
}

// 2^power s. From 2^32 on that is more than 136 years.
#[derive(Clone, Copy)]
struct Raised(u8);

impl fmt::Display for Raised {
    fn fmt<W: fmt::Write>(&self, f: &mut fmt::Formatter<W>) -> fmt::Result {
        let power = self.0;
        if power < 32 {
            let seconds: u64 = 1 << power;
            return write!(f, "{seconds} s");
        }
        f.write_str("more than 100 years")
    }
}

// 2^-power s, rounded. 2^-30 s is less than a nanosecond.
#[derive(Clone, Copy)]
struct Lowered(u8);

impl fmt::Display for Lowered {
    fn fmt<W: fmt::Write>(&self, f: &mut fmt::Formatter<W>) -> fmt::Result {
        let power = self.0;
        if power < 30 {
            let twice = 2 * BILLION >> power;
            let nanoseconds = Nanoseconds(twice.wrapping_add(1) / 2);
            return write!(f, "{nanoseconds}");
        }
        f.write_str("less than 1 ns")
    }
}

// A time that is given by its logarithm: a power of two of a second.
#[derive(Clone, Copy)]
pub(crate) struct PowerOfTwo(pub(crate) i8);

impl fmt::Display for PowerOfTwo {
    fn fmt<W: fmt::Write>(&self, f: &mut fmt::Formatter<W>) -> fmt::Result {
        let power = self.0;
        let size = power.unsigned_abs();
        if power < 0 {
            return write!(f, "2^{power} s ({})", Lowered(size));
        }
        write!(f, "2^{power} s ({})", Raised(size))
    }
}

// 2^64. Every time of a header is far below so many nanoseconds.
const LIMIT: f64 = 18446744073709551616.0;

// Seconds with nine places, rounded.
#[derive(Clone, Copy)]
pub(crate) struct Seconds(pub(crate) f64);

impl fmt::Display for Seconds {
    fn fmt<W: fmt::Write>(&self, f: &mut fmt::Formatter<W>) -> fmt::Result {
        let rounded = self.0 * 1000000000.0 + 0.5;
        if rounded > -1.0 && rounded < LIMIT {
            let nanoseconds = std::num::saturating_f64_to_u64(rounded);
            let whole = nanoseconds / BILLION;
            let places = nanoseconds % BILLION;
            return write!(f, "{whole}.{places:09} s");
        }
        f.write_str("not shown")
    }
}

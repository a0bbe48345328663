// Counts of bytes as a person reads them.
use std::fmt;

// How many bytes.
#[derive(Clone, Copy)]
pub(crate) struct Count(pub(crate) usize);

impl fmt::Display for Count {
    fn fmt<W: fmt::Write>(&self, f: &mut fmt::Formatter<W>) -> fmt::Result {
        let count = self.0;
        if count == 1 {
            return f.write_str("1 byte");
        }
        write!(f, "{count} bytes")
    }
}

// How many bytes, and where the first one is.
#[derive(Clone, Copy)]
pub(crate) struct Place {
    pub(crate) count: usize,
    pub(crate) at: usize,
}

impl fmt::Display for Place {
    fn fmt<W: fmt::Write>(&self, f: &mut fmt::Formatter<W>) -> fmt::Result {
        let at = self.at;
        write!(f, "{} at {at}", Count(self.count))
    }
}

// A line of what is printed. It gathers by value, piece after piece, and is written out at its end. A write that fails
// is not told. The bytes and letters of one piece are gathered in place, since there can be many of them.
use crate::counts::Place;
use crate::{letters, parts};
use arrayvec::ArrayString;
use std::fmt::Write;
use std::rt::Stdout;
use std::{fmt, mem};

// More letters than any line has: all have fewer than 110. A piece for which there is no room would be dropped.
const ROOM: usize = 128;

// Bytes that would go past this column go to the next line.
const LAST: usize = 108;

// The most letters that a letter of a quoted text takes, and the last quote.
const QUOTED: usize = 5;

// Where the value stands in a line with a name.
const VALUES: usize = 19;

// How many bytes `shown` shows.
const SHOWN: usize = 32;

// It has no `Drop`, so a line that is begun has to be ended.
pub(crate) struct Line {
    letters: ArrayString<ROOM>,
    // Where it is written.
    out: Stdout,
}

pub(crate) fn empty(out: Stdout) -> Line {
    Line {
        letters: ArrayString::new(),
        out,
    }
}

// A line that begins with a name.
pub(crate) fn named(out: Stdout, name: &str) -> Line {
    empty(out).show(name).to_values()
}

// An empty line, between groups of lines.
pub(crate) fn gap(out: Stdout) {
    empty(out).end();
}

// A line of a value alone.
pub(crate) fn print<D: fmt::Display + Drop>(out: Stdout, value: D) {
    empty(out).show(value).end();
}

// A line of a name and a value.
pub(crate) fn print_named<D: fmt::Display + Drop>(out: Stdout, name: &str, value: D) {
    named(out, name).show(value).end();
}

// Whether a letter stands for itself in a quoted text. Others are shown as `\xNN`.
fn is_plain(letter: u8) -> bool {
    letters::is_printable(letter) && !matches!(letter, b'"' | b'\\')
}

impl Line {
    // Adds what `{}` prints of a value.
    pub(crate) fn show<D: fmt::Display + Drop>(mut self, value: D) -> Line {
        let _ = write!(self.letters, "{value}");
        self
    }

    // Adds spaces up to a column.
    pub(crate) fn to_column(mut self, column: usize) -> Line {
        let blanks = column.saturating_sub(self.letters.len());
        let _ = write!(self.letters, "{:blanks$}", "");
        self
    }

    pub(crate) fn to_values(self) -> Line {
        self.to_column(VALUES)
    }

    // Goes on in a new line where this one has no room for so many letters.
    fn make_room(&mut self, letters: usize) {
        if LAST < self.letters.len().wrapping_add(letters) {
            let next = empty(self.out).to_values();
            mem::replace(self, next).end();
        }
    }

    fn push(&mut self, letter: char) {
        let _ = self.letters.try_push(letter);
    }

    // Adds what `{byte:02x}` prints, which would take several times as long.
    fn push_byte(&mut self, byte: u8) {
        self.push(letters::digit(byte / 16));
        self.push(letters::digit(byte % 16));
    }

    // Adds bytes in hex, in as many lines as they take.
    fn bytes(self, bytes: &[u8]) -> Line {
        let mut line = self;
        for byte in bytes {
            line.make_room(2);
            line.push_byte(*byte);
        }
        line
    }

    // A space that may end its line is shown as `\x20`, since it could not be seen there.
    fn push_quoted(&mut self, letter: u8) {
        let is_seen = letter != b' ' || self.letters.len() < LAST - QUOTED;
        if is_plain(letter) && is_seen {
            self.push(char::from(letter));
        } else {
            self.push('\\');
            self.push('x');
            self.push_byte(letter);
        }
    }

    // Adds a text in quotes, in as many lines as it takes.
    pub(crate) fn quoted(self, text: &[u8]) -> Line {
        let mut line = self.show("\"");
        for letter in text {
            line.make_room(QUOTED);
            line.push_quoted(*letter);
        }
        line.show("\"")
    }

    // Adds the first bytes, and a mark where there are more.
    pub(crate) fn first_bytes(self, bytes: &[u8], most: usize) -> Line {
        if bytes.len() <= most {
            return self.bytes(bytes);
        }
        self.bytes(&bytes[..most]).show("..")
    }

    // Adds the first bytes of a string of them, where it has any.
    pub(crate) fn shown_up_to(self, bytes: &[u8], most: usize) -> Line {
        if bytes.is_empty() {
            return self;
        }
        self.show(": ").first_bytes(bytes, most)
    }

    pub(crate) fn shown(self, bytes: &[u8]) -> Line {
        self.shown_up_to(bytes, SHOWN)
    }

    // Adds bytes of a packet: how many, where, and the first of them.
    pub(crate) fn found(self, packet: &[u8], place: Place) -> Line {
        self.show(place)
            .shown(parts::within(packet, place.at, place.count))
    }

    // Adds bytes of a packet: how many, where, and all of them.
    pub(crate) fn found_whole(self, packet: &[u8], place: Place) -> Line {
        let line = self.show(place);
        if place.count == 0 {
            return line;
        }
        line.show(": ")
            .bytes(parts::within(packet, place.at, place.count))
    }

    pub(crate) fn end(self) {
        let Line { letters, mut out } = self.show("\n");
        let _ = out.write_all(letters.as_bytes());
    }
}

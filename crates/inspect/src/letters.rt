// Letters of a text: what each of them is, and where it stands.
use std::fmt;

// The value of a hex digit.
pub(crate) fn digit_value(letter: u8) -> Option<u8> {
    match letter {
        b'0'..=b'9' => Some(letter - b'0'),
        b'a'..=b'f' => Some(letter - b'a' + 10),
        b'A'..=b'F' => Some(letter - b'A' + 10),
        _ => None,
    }
}

// The hex digit of a value below 16.
pub(crate) fn digit(value: u8) -> char {
    char::from_digit(value as u32, 16).unwrap_or('0')
}

// Space, tab, line feed, vertical tab, form feed, carriage return. Std's `is_ascii_whitespace` leaves out the vertical
// tab.
pub(crate) fn is_white_space(letter: u8) -> bool {
    matches!(letter, b' ' | 9..=13)
}

// Spaces and tabs, which part what stands on one line.
pub(crate) fn is_blank(letter: u8) -> bool {
    matches!(letter, b' ' | b'\t')
}

// Printable ASCII.
pub(crate) fn is_printable(letter: u8) -> bool {
    matches!(letter, b' '..=b'~')
}

// What a text consists of: printable ASCII and white space.
pub(crate) fn is_text(letter: u8) -> bool {
    is_printable(letter) || is_white_space(letter)
}

// The byte of two hex digits.
pub(crate) fn byte_of(high: u8, low: u8) -> u8 {
    high << 4 | low
}

// Where a letter stands in a text, both counted from 0. It is printed as a person counts, from 1.
#[derive(Clone, Copy)]
pub(crate) struct Spot {
    line: usize,
    column: usize,
}

pub(crate) fn spot_of(text: &[u8], at: usize) -> Spot {
    let before = text.get(..at).unwrap_or(text);
    Spot {
        line: before.iter().filter(|letter| **letter == b'\n').count(),
        column: before
            .iter()
            .rev()
            .take_while(|letter| **letter != b'\n')
            .count(),
    }
}

impl fmt::Display for Spot {
    fn fmt<W: fmt::Write>(&self, f: &mut fmt::Formatter<W>) -> fmt::Result {
        let line = self.line.wrapping_add(1);
        let column = self.column.wrapping_add(1);
        write!(f, "line {line}, column {column}")
    }
}

// The forms in which a packet is given, and which of them a text has, as its beginning says.
use crate::{letters, parts};
use std::fmt;

#[derive(Clone, Copy)]
pub(crate) enum Form {
    // The packet's own bytes.
    Raw,
    // 2300 0000
    Hex,
    // 23:00:00
    Colons,
    // 0x23, 0x00
    Prefixed,
    // "\x23\x00", a C string.
    Escaped,
    // A dump by xxd, `00000000: 2300 0000  #...`
    Xxd,
    // A dump by hexdump -C, `00000000  23 00 00  |#..|`, or by Wireshark, `0000   23 00 00   #..`
    Hexdump,
}

impl fmt::Display for Form {
    fn fmt<W: fmt::Write>(&self, f: &mut fmt::Formatter<W>) -> fmt::Result {
        f.write_str(match self {
            Form::Raw => "raw",
            Form::Hex => "in hex",
            Form::Colons => "in hex with colons",
            Form::Prefixed => "in hex with 0x",
            Form::Escaped => "in hex with \\x",
            Form::Xxd => "as a dump by xxd",
            Form::Hexdump => "as a dump by hexdump -C or Wireshark",
        })
    }
}

// Fewer digits than any dump's offset has are a byte.
const OFFSET_DIGITS: usize = 4;

// How many digits a text begins with.
fn digit_count(text: &[u8]) -> usize {
    text.iter()
        .take_while(|letter| letter.is_ascii_hexdigit())
        .count()
}

// Whether a byte stands after blanks, apart from other digits. In a dump that has no colons this tells the offset
// from the bytes.
fn is_byte_next(text: &[u8]) -> bool {
    let blanks = text
        .iter()
        .take_while(|letter| letters::is_blank(**letter))
        .count();
    blanks != 0 && digit_count(parts::behind(text, blanks)) == 2
}

// The form of a text that begins with so many digits, by what follows them.
fn form_after_digits(digits: usize, rest: &[u8]) -> Form {
    let letter = rest.first().copied();
    if digits == 1 {
        return match letter {
            Some(b'x' | b'X') => Form::Prefixed,
            Some(b':') => Form::Colons,
            _ => Form::Hex,
        };
    }
    let is_long = OFFSET_DIGITS <= digits;
    if letter == Some(b':') {
        return if is_long { Form::Xxd } else { Form::Colons };
    }
    if is_long && is_byte_next(rest) {
        return Form::Hexdump;
    }
    Form::Hex
}

// A text that has none of the forms is refused as what it looks like most, and that is hex.
pub(crate) fn form_of(text: &[u8]) -> Form {
    let spaces = text
        .iter()
        .take_while(|letter| letters::is_white_space(**letter))
        .count();
    let text = parts::behind(text, spaces);
    if let Some(b'\\' | b'"') = text.first().copied() {
        return Form::Escaped;
    }
    let digits = digit_count(text);
    form_after_digits(digits, parts::behind(text, digits))
}

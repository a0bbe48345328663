// The input: what standard input holds, and the bytes of a packet or an image that a text stands for.
use crate::forms::Form;
use crate::{dump, hex, letters, parts};
use std::fmt;
use std::io::Read;
use std::rt::Stdin;

// Eight letters for each byte of the longest packet; no form has more.
pub(crate) const LONGEST_TEXT: usize = 524288;

// The first line of an input that is an image of a journal, `journal` and a line feed, and its length. No packet begins
// so: as version 5 this is neither a request nor a response.
const MARK: u64 = 0x6A6F75726E616C0A;

pub(crate) const MARK_LEN: usize = 8;

// One more than a marked text has, which tells a longer input: its end need not be read.
pub(crate) const ROOM: usize = MARK_LEN + LONGEST_TEXT + 1;

// One more than the longest packet has, which tells a longer one.
pub(crate) const BYTES: usize = 65536;

// What an input is said to be.
#[derive(Clone, Copy)]
pub(crate) enum Subject {
    Packet,
    Image,
}

impl fmt::Display for Subject {
    fn fmt<W: fmt::Write>(&self, f: &mut fmt::Formatter<W>) -> fmt::Result {
        f.write_str(match self {
            Subject::Packet => "packet",
            Subject::Image => "image",
        })
    }
}

// Why an input is neither.
#[derive(Clone, Copy)]
pub(crate) enum Fault {
    Empty,
    Capture,
    LongText,
    NoByte,
    WrongLetter,
    MissingDigit,
    WrongOffset,
    LoneStar,
}

impl fmt::Display for Fault {
    fn fmt<W: fmt::Write>(&self, f: &mut fmt::Formatter<W>) -> fmt::Result {
        f.write_str(match self {
            Fault::Empty => "the input is empty",
            Fault::Capture => "a capture file, which tools/inspect FILE takes apart",
            Fault::LongText => {
                return write!(f, "a text of more than {LONGEST_TEXT} letters");
            }
            Fault::NoByte => "a text with no byte in it",
            Fault::WrongLetter => "a text with a letter that does not belong there",
            Fault::MissingDigit => "a text in which a hex digit is missing",
            Fault::WrongOffset => "a dump with an offset that does not follow",
            Fault::LoneStar => "a dump with a * and no offset after it",
        })
    }
}

// A fault of a text, and the index of its first letter.
#[derive(Clone, Copy)]
pub(crate) struct Flaw {
    pub(crate) fault: Fault,
    pub(crate) at: usize,
}

pub(crate) fn text_buffer() -> [u8; ROOM] {
    [0; ROOM]
}

pub(crate) fn bytes_buffer() -> [u8; BYTES] {
    [0; BYTES]
}

// Reads standard input. A read that fails counts as its end.
pub(crate) fn read(mut input: Stdin, room: &mut [u8; ROOM]) -> &[u8] {
    let mut done = 0;
    while done < ROOM {
        let count = input.read(&mut room[done..]).unwrap_or(0);
        if count == 0 {
            break;
        }
        done += count;
    }
    &room[..done]
}

// An image is never guessed: its first line has to say so.
pub(crate) fn subject_of(input: &[u8]) -> Subject {
    if base_big_endian::be64(input, 0) == MARK {
        return Subject::Image;
    }
    Subject::Packet
}

// Whether an input begins with a magic number of pcap, in either order of bytes and with microseconds or
// nanoseconds, or with that of pcapng. No NTP packet begins so: these are versions 1 and 2, or stratum 178.
// No image of a journal does either, since no entry has such a length.
pub(crate) fn is_capture(input: &[u8]) -> bool {
    matches!(
        base_big_endian::be32(input, 0),
        0xA1B2C3D4 | 0xD4C3B2A1 | 0xA1B23C4D | 0x4D3CB2A1 | 0x0A0D0D0A
    )
}

// Whether an input is text: printable ASCII and white space. A packet whose own bytes all are such letters would be
// taken for text; no server or client sends one. The loop is faster than `all` is.
pub(crate) fn is_text(input: &[u8]) -> bool {
    for letter in input {
        if !letters::is_text(*letter) {
            return false;
        }
    }
    true
}

// What is wrong with a letter where a digit has to stand: a letter of a word does not belong there, and before
// anything else a digit is missing.
pub(crate) fn no_digit(letter: u8) -> Fault {
    match letter {
        b'g'..=b'z' | b'G'..=b'Z' => Fault::WrongLetter,
        _ => Fault::MissingDigit,
    }
}

// Stores a byte, and drops one that is past the longest packet.
pub(crate) fn put(bytes: &mut [u8; BYTES], at: usize, byte: u8) {
    if let Some(place) = bytes.get_mut(at) {
        *place = byte;
    }
}

// How many of the bytes that a text stands for are stored.
pub(crate) fn stored(count: usize) -> Result<usize, Flaw> {
    if count == 0 {
        return Err(Flaw {
            fault: Fault::NoByte,
            at: 0,
        });
    }
    Ok(count.min(BYTES))
}

// Stores the bytes that a text of a form stands for, and answers them.
pub(crate) fn decode<'a>(
    text: &[u8],
    form: Form,
    bytes: &'a mut [u8; BYTES],
) -> Result<&'a [u8], Flaw> {
    if LONGEST_TEXT < text.len() {
        return Err(Flaw {
            fault: Fault::LongText,
            at: LONGEST_TEXT,
        });
    }
    let count = match form {
        Form::Xxd | Form::Hexdump => dump::decode(text, form, bytes)?,
        _ => hex::decode(text, form, bytes)?,
    };
    Ok(parts::within(bytes, 0, count))
}

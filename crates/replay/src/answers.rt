// The answers. They gather in a buffer that is written out whenever it is full, so an answer may be longer than the
// buffer. A write that fails is not told.
ghost use Rattle.std.specs.Iterator.{IsFinite};
ghost use Rattle.std.specs.Prelude.{◌<◌};

use crate::buffers::Buffer;
use base_answers::Refusal;
use header_numbers::HeaderError;
use std::fmt;
use std::fmt::{Display, Formatter};
use std::rt::Stdout;

const ROOM: usize = 65536;

// How many bytes are put at once as digits, and how many digits they have.
const PIECE: usize = 64;

const DIGITS: usize = 128;

#[derive(Drop)]
pub(crate) struct Answers {
    // What is not written out yet.
    bytes: Buffer<ROOM>,
    out: Stdout,
}

// Bytes as a word or as a part of a list's entry.
#[derive(Clone, Copy)]
pub(crate) struct Bytes<'a>(pub(crate) &'a [u8]);

fn hex_digit(value: u8) -> u8
    requires { value < 16 }
{
    if value < 10 {
        b'0' + value
    } else {
        b'a' + (value - 10)
    }
}

// The digits go out in pieces, since formatting each byte as a number takes several times as long.
impl Display for Bytes<'_> {
    fn fmt<W: fmt::Write>(&self, f: &mut Formatter<W>) -> fmt::Result {
        if self.0.is_empty() {
            return write!(f, "-");
        }
        let mut digits = [0; DIGITS];
        for piece in self.0.chunks(PIECE) {
            let (pairs, _) = digits.as_chunks_mut::<2>();
            for (pair, byte) in pairs.iter_mut().zip(piece) {
                *pair = [hex_digit(*byte / 16), hex_digit(*byte % 16)];
            }
            let put = digits.get(..piece.len() * 2).ok_or(fmt::Error)?;
            f.write_str(str::from_utf8(put).map_err(|_| fmt::Error)?)?;
        }
        Ok(())
    }
}

impl fmt::Write for Answers {
    fn write_str(&mut self, text: &str) -> fmt::Result {
        if self.bytes.extend(text.as_bytes()).is_none() {
            for byte in text.as_bytes() {
                self.put(*byte);
            }
        }
        Ok(())
    }
}

impl Answers {
    pub(crate) fn new(out: Stdout) -> Self {
        Answers {
            bytes: Buffer::new(),
            out,
        }
    }

    pub(crate) fn flush(&mut self) {
        let _ = self.out.write_all(self.bytes.as_slice());
        self.bytes.clear();
    }

    fn put(&mut self, byte: u8) {
        if self.bytes.push(byte).is_none() {
            self.flush();
            let _ = self.bytes.push(byte);
        }
    }

    pub(crate) fn end_line(&mut self) {
        self.put(b'\n');
    }

    pub(crate) fn print<D: Display + Drop>(&mut self, value: D) {
        let _ = fmt::Write::write(self, value);
    }

    // A refusal's number.
    pub(crate) fn refused(&mut self, refusal: Refusal) {
        self.print(base_answers::number(refusal));
    }

    // Why a header is refused. A version that is not its own is told too.
    pub(crate) fn header_error(&mut self, error: HeaderError) {
        match error {
            HeaderError::InvalidVersion(version) => {
                self.refused(Refusal::InvalidVersion);
                self.print(format_args!(" {version}"));
            }
            HeaderError::Refused(refusal) => self.refused(refusal),
        }
    }

    // A writer's whole answer, which ends with the output as the writer left it.
    pub(crate) fn written(&mut self, written: Result<usize, Refusal>, output: &[u8]) {
        match written {
            Ok(count) => self.print(format_args!("0 {count}")),
            Err(refusal) => self.refused(refusal),
        }
        self.print(format_args!(" {}", Bytes(output)));
    }

    // A further word: a list.
    pub(crate) fn list<I: Iterator>(&mut self, entries: I)
    where
        I::Item: Display + Drop,
        requires can { I.can_next entries }
        requires ends { IsFinite (I.remaining entries) }
    {
        let mut mark = ' ';
        for entry in entries {
            self.print(format_args!("{mark}{entry}"));
            mark = ',';
        }
        if mark == ' ' {
            self.print(" -");
        }
    }
}

// A dump: lines of an offset, bytes and, beside them, the letters that the bytes are. A line of `*` stands for rows
// that repeat the one before it, up to the next offset.
use crate::forms::Form;
use crate::input::{BYTES, Fault, Flaw};
use crate::{input, letters};

// An offset from here on takes no further digit: no packet is so long.
const FAR: usize = 0x10000000;

// In a row without colons a wider gap stands after so many bytes, in the middle.
const HALF_ROW: usize = 8;

// So many blanks stand for more, too.
const WIDE_GAP: usize = 3;

// Where in the dump a letter stands.
#[derive(Clone, Copy)]
enum Place {
    // Before a line's offset.
    Start,
    Offset,
    // After `*`, which stands alone on its line.
    Star,
    // After the offset or a byte and so many blanks.
    Gap(usize),
    // After the first digit of a byte.
    Half(u8),
    // In the letters beside the bytes.
    Letters,
}

// What was read up to a letter. It is changed in place: it has too many parts to be handed on for each letter.
#[derive(Clone, Copy)]
struct Rows {
    form: Form,
    // Where the letter stands, and its index.
    place: Place,
    at: usize,
    // How many bytes, and how many of them before the last row.
    count: usize,
    row: usize,
    // The last line's offset as far as it is read.
    offset: usize,
    // The index of its first letter, or of a `*`.
    begins: usize,
    // Whether a `*` waits for the next offset.
    repeats: bool,
}

// Stores the last `length` bytes again and again, from `count` up to an offset.
fn repeat(bytes: &mut [u8; BYTES], length: usize, count: usize, offset: usize) {
    for to in count..offset.min(BYTES) {
        bytes[to] = base_big_endian::be8(bytes, to.wrapping_sub(length));
    }
}

fn wider(gap: usize) -> Place {
    if gap < WIDE_GAP {
        return Place::Gap(gap + 1);
    }
    Place::Gap(gap)
}

impl Rows {
    fn empty(form: Form) -> Rows {
        Rows {
            form,
            place: Place::Start,
            at: 0,
            count: 0,
            row: 0,
            offset: 0,
            begins: 0,
            repeats: false,
        }
    }

    fn wrong_letter(&self) -> Result<(), Flaw> {
        let at = self.at;
        let fault = Fault::WrongLetter;
        Err(Flaw { fault, at })
    }

    fn wrong_offset(&self) -> Result<(), Flaw> {
        let at = self.begins;
        let fault = Fault::WrongOffset;
        Err(Flaw { fault, at })
    }

    fn row_length(&self) -> usize {
        self.count.wrapping_sub(self.row)
    }

    fn is_xxd(&self) -> bool {
        matches!(self.form, Form::Xxd)
    }

    fn to(&mut self, place: Place) -> Result<(), Flaw> {
        self.place = place;
        Ok(())
    }

    // After a line feed a new line starts.
    fn to_or_start(&mut self, place: Place, letter: u8) -> Result<(), Flaw> {
        if letter == b'\n' {
            return self.to(Place::Start);
        }
        self.to(place)
    }

    // A `*` repeats a row, so there has to be one.
    fn star(&mut self) -> Result<(), Flaw> {
        if self.row_length() == 0 {
            return self.wrong_letter();
        }
        self.begins = self.at;
        self.repeats = true;
        self.to(Place::Star)
    }

    fn before_offset(&mut self, letter: u8) -> Result<(), Flaw> {
        if letter == b'*' {
            return self.star();
        }
        if letters::is_white_space(letter) {
            return self.to(Place::Start);
        }
        let Some(value) = letters::digit_value(letter) else {
            return self.wrong_letter();
        };
        self.offset = value as usize;
        self.begins = self.at;
        self.to(Place::Offset)
    }

    fn offset_digit(&mut self, value: u8) -> Result<(), Flaw> {
        let offset = self.offset;
        if FAR <= offset {
            return self.wrong_offset();
        }
        self.offset = offset * 16 + value as usize;
        Ok(())
    }

    // Begins the row of an offset that is read: as many bytes have to stand before it as it says, or more of them if
    // the last row repeats up to it.
    fn begin_row(&mut self, bytes: &mut [u8; BYTES]) -> Result<(), Flaw> {
        let offset = self.offset;
        let count = self.count;
        if self.repeats {
            if offset <= count {
                return self.wrong_offset();
            }
            repeat(bytes, self.row_length(), count, offset);
        } else if offset != count {
            return self.wrong_offset();
        }
        self.count = offset;
        self.row = offset;
        self.repeats = false;
        Ok(())
    }

    // A colon ends an offset in xxd's dumps, and white space in the others. The last line of hexdump -C has no more.
    fn in_offset(&mut self, bytes: &mut [u8; BYTES], letter: u8) -> Result<(), Flaw> {
        if let Some(value) = letters::digit_value(letter) {
            return self.offset_digit(value);
        }
        if self.is_xxd() {
            if letter == b':' {
                self.to(Place::Gap(0))?;
                return self.begin_row(bytes);
            }
            return self.wrong_letter();
        }
        if letters::is_white_space(letter) {
            self.to_or_start(Place::Gap(1), letter)?;
            return self.begin_row(bytes);
        }
        self.wrong_letter()
    }

    fn after_star(&mut self, letter: u8) -> Result<(), Flaw> {
        if letters::is_white_space(letter) {
            return self.to_or_start(Place::Star, letter);
        }
        self.wrong_letter()
    }

    // Whether the bytes of a row end at a gap, so that a letter after it is one of those beside them: a gap of two
    // blanks or more does, but for the one in the middle of a row.
    fn ends_bytes(&self, gap: usize, letter: u8) -> bool {
        let length = self.row_length();
        if gap < 2 || length == 0 {
            return false;
        }
        let is_middle = gap == 2
            && length == HALF_ROW
            && !self.is_xxd()
            && letter.is_ascii_hexdigit();
        !is_middle
    }

    fn in_gap(&mut self, gap: usize, letter: u8) -> Result<(), Flaw> {
        if letters::is_white_space(letter) {
            return self.to_or_start(wider(gap), letter);
        }
        if self.ends_bytes(gap, letter) {
            return self.to(Place::Letters);
        }
        if let Some(value) = letters::digit_value(letter) {
            return self.to(Place::Half(value));
        }
        self.wrong_letter()
    }

    fn in_byte(&mut self, bytes: &mut [u8; BYTES], high: u8, letter: u8) -> Result<(), Flaw> {
        let Some(low) = letters::digit_value(letter) else {
            return Err(Flaw {
                fault: input::no_digit(letter),
                at: self.at,
            });
        };
        let count = self.count;
        input::put(bytes, count, letters::byte_of(high, low));
        self.count = count.wrapping_add(1);
        self.to(Place::Gap(0))
    }

    fn next(&mut self, bytes: &mut [u8; BYTES], letter: u8) -> Result<(), Flaw> {
        match self.place {
            Place::Start => self.before_offset(letter),
            Place::Offset => self.in_offset(bytes, letter),
            Place::Star => self.after_star(letter),
            Place::Gap(gap) => self.in_gap(gap, letter),
            Place::Half(high) => self.in_byte(bytes, high, letter),
            Place::Letters => self.to_or_start(Place::Letters, letter),
        }
    }

    // What a dump is after its last line.
    fn whole(self) -> Result<usize, Flaw> {
        if self.repeats {
            return Err(Flaw {
                fault: Fault::LoneStar,
                at: self.begins,
            });
        }
        input::stored(self.count)
    }
}

// Stores the bytes of a dump, up to the first letter that is wrong, and answers how many are stored.
pub(crate) fn decode(text: &[u8], form: Form, bytes: &mut [u8; BYTES]) -> Result<usize, Flaw> {
    let mut rows = Rows::empty(form);
    for (at, letter) in text.iter().enumerate() {
        rows.at = at;
        rows.next(bytes, *letter)?;
    }
    // A line feed after the last letter ends the last line, if none has.
    rows.at = text.len();
    rows.next(bytes, b'\n')?;
    rows.whole()
}

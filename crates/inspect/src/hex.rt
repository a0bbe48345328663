// A text that is no dump: bytes of two digits each, with what its form has before and between them.
use crate::forms::Form;
use crate::input::{BYTES, Fault, Flaw};
use crate::{input, letters};

// Where in the text a letter stands.
#[derive(Clone, Copy)]
enum Place {
    // Before the first byte or after a byte.
    Between,
    // After a colon or comma, which another one must not follow.
    Separated,
    // After the first letter of `0x` or `\x`.
    Marked,
    // After the whole of it.
    Begun,
    // After the first digit of a byte.
    Half(u8),
}

// What a letter does.
#[derive(Clone, Copy)]
enum Step {
    To(Place),
    Byte(u8),
}

fn is_separator(form: Form, letter: u8) -> bool {
    matches!(
        (form, letter),
        (Form::Colons, b':') | (Form::Prefixed, b',')
    )
}

// The letters that change nothing between two bytes. A C string may be in several pieces.
fn is_between(form: Form, letter: u8) -> bool {
    letters::is_white_space(letter) || matches!((form, letter), (Form::Escaped, b'"'))
}

fn mark(letter: u8, expected: u8) -> Result<Step, Fault> {
    if letter == expected {
        return Ok(Step::To(Place::Marked));
    }
    Err(Fault::WrongLetter)
}

fn first_digit(letter: u8, otherwise: Fault) -> Result<Step, Fault> {
    let value = letters::digit_value(letter).ok_or(otherwise)?;
    Ok(Step::To(Place::Half(value)))
}

fn begin_byte(form: Form, letter: u8) -> Result<Step, Fault> {
    match form {
        Form::Prefixed => mark(letter, b'0'),
        Form::Escaped => mark(letter, b'\\'),
        _ => first_digit(letter, Fault::WrongLetter),
    }
}

fn between(form: Form, letter: u8) -> Result<Step, Fault> {
    if is_between(form, letter) {
        return Ok(Step::To(Place::Between));
    }
    if is_separator(form, letter) {
        return Ok(Step::To(Place::Separated));
    }
    begin_byte(form, letter)
}

fn separated(form: Form, letter: u8) -> Result<Step, Fault> {
    if is_between(form, letter) {
        return Ok(Step::To(Place::Separated));
    }
    begin_byte(form, letter)
}

// A backslash before white space ends a line of a C string.
fn marked(form: Form, letter: u8) -> Result<Step, Fault> {
    if matches!(letter, b'x' | b'X') {
        return Ok(Step::To(Place::Begun));
    }
    if matches!(form, Form::Escaped) && letters::is_white_space(letter) {
        return Ok(Step::To(Place::Between));
    }
    Err(Fault::WrongLetter)
}

fn second_digit(high: u8, letter: u8) -> Result<Step, Fault> {
    let low = letters::digit_value(letter).ok_or(input::no_digit(letter))?;
    Ok(Step::Byte(letters::byte_of(high, low)))
}

fn next(form: Form, place: Place, letter: u8) -> Result<Step, Fault> {
    match place {
        Place::Between => between(form, letter),
        Place::Separated => separated(form, letter),
        Place::Marked => marked(form, letter),
        Place::Begun => first_digit(letter, input::no_digit(letter)),
        Place::Half(high) => second_digit(high, letter),
    }
}

// Stores the bytes of a text, up to the first letter that is wrong, and answers how many are stored.
pub(crate) fn decode(text: &[u8], form: Form, bytes: &mut [u8; BYTES]) -> Result<usize, Flaw> {
    let mut place = Place::Between;
    let mut count: usize = 0;
    for (at, letter) in text.iter().enumerate() {
        match next(form, place, *letter).map_err(|fault| Flaw { fault, at })? {
            Step::To(after) => place = after,
            Step::Byte(byte) => {
                input::put(bytes, count, byte);
                count += 1;
                place = Place::Between;
            }
        }
    }
    // White space could follow, and shows whether the last byte is cut off.
    let at = text.len();
    next(form, place, b'\n').map_err(|fault| Flaw { fault, at })?;
    input::stored(count)
}

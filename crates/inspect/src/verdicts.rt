// Verdicts: a word, the number of the answer, and what it means.
use base_answers::Refusal;
use read_entries::CAPACITY;
use std::fmt;

// What an answer of the library says, by its number (rule 2.1). A journal may hold a number that no answer has.
#[derive(Clone, Copy)]
pub(crate) struct Answer(pub(crate) u8);

impl From<Refusal> for Answer {
    fn from(refusal: Refusal) -> Answer {
        Answer(base_answers::number(refusal))
    }
}

fn word(number: u8) -> &'static str {
    match number {
        0 => "accepted",
        5 => "read in part",
        1..=18 => "refused",
        _ => "unknown",
    }
}

// An answer in a few words.
fn meaning(number: u8) -> &'static str {
    match number {
        0 => "read to its end",
        1 => "a length that does not fit",
        2 => "a cookie placeholder that is not all zeros",
        3 => "a sealed field inside a sealed one",
        4 => "a draft identification that is not ASCII",
        5 => "a sealed field was not opened",
        6 => "a header that reaches past the packet's end",
        7 => "a packet of more than 65535 bytes",
        9 => "a sealed field for which no result is lent",
        10 => "a lent result that is not well formed",
        11 => "a version other than 3, 4 and 5",
        12 => "a mode that is neither request nor response",
        13 => "a timescale that is none of the four",
        14 => "a flag that has no meaning",
        15 => "a field that is too long to write",
        16 => "no room in the output",
        17 => "no cipher",
        18 => "a field that cannot be made or written",
        _ => "a number that no answer has",
    }
}

impl fmt::Display for Answer {
    fn fmt<W: fmt::Write>(&self, f: &mut fmt::Formatter<W>) -> fmt::Result {
        let number = self.0;
        let word = word(number);
        if number == 8 {
            return write!(f, "{word} ({number}): more than {CAPACITY} fields");
        }
        let meaning = meaning(number);
        write!(f, "{word} ({number}): {meaning}")
    }
}

// The words of a line, and the parts of a word (docs/REPLAY.md, "Words"). A case takes its words one after another,
// and asks at last whether they were the whole line. Every function here answers `None` where the word is missing
// or not of its kind.
ghost use Rattle.std.specs.Prelude.{◌<◌, IfSome};

use crate::buffers::{Buffer, MOST_ENTRIES};
use crate::numbers::Numbers;
use arrayvec::ArrayVec;
use base_version::Version;
use std::str::{FromStr, Split};

// The words that are not taken yet.
#[derive(Drop)]
pub(crate) struct Words<'a> {
    left: Split<'a, char>,
}

fn digit_of(letter: u8) -> Option<u8>
    ensures { IfSome result (λ digit. digit < 16) }
{
    match letter {
        b'0'..=b'9' => Some(letter - b'0'),
        b'a'..=b'f' => Some(letter - b'a' + 10),
        _ => None,
    }
}

// The byte that a pair of digits stands for.
fn byte_of(pair: [u8; 2]) -> Option<u8> {
    let [high, low] = pair;
    Some(digit_of(high)? * 16 + digit_of(low)?)
}

// The pairs of digits of a word that stands for bytes.
fn pairs_of(word: &str) -> Option<&[[u8; 2]]> {
    if word == "-" {
        return Some(&[]);
    }
    let (pairs, rest) = word.as_bytes().as_chunks::<2>();
    if pairs.is_empty() || !rest.is_empty() {
        return None;
    }
    Some(pairs)
}

// A number has no sign and no leading zero.
fn number_of<T: FromStr>(word: &str) -> Option<T>
where
    T::Err: Drop,
{
    match word.as_bytes() {
        [b'+', ..] | [b'0', _, ..] => None,
        _ => word.parse().ok(),
    }
}

impl<'a> Words<'a> {
    // The words of a text, with a mark between them.
    pub(crate) fn new(text: &'a str, mark: char) -> Self {
        Words {
            left: text.split(mark),
        }
    }

    pub(crate) fn next(&mut self) -> Option<&'a str> {
        self.left.next()
    }

    // Whether all words are taken.
    pub(crate) fn end(&mut self) -> Option<()> {
        match self.next() {
            None => Some(()),
            Some(_) => None,
        }
    }

    pub(crate) fn number<T: FromStr>(&mut self) -> Option<T>
    where
        T::Err: Drop,
    {
        number_of(self.next()?)
    }

    // A number that may have a `-` in front; zero has none.
    pub(crate) fn precision(&mut self) -> Option<i8> {
        let word = self.next()?;
        match word.strip_prefix('-') {
            None => number_of(word),
            Some("0") => None,
            Some(size) => 0i8.checked_sub_unsigned(number_of(size)?),
        }
    }

    pub(crate) fn flag(&mut self) -> Option<bool> {
        match self.next()? {
            "0" => Some(false),
            "1" => Some(true),
            _ => None,
        }
    }

    pub(crate) fn version(&mut self) -> Option<Version> {
        match self.next()? {
            "4" => Some(Version::V4),
            "5" => Some(Version::V5),
            _ => None,
        }
    }

    // Bytes, which are put behind those that `into` has. Answers how many they are.
    pub(crate) fn more_bytes<const N: usize>(&mut self, into: &mut Buffer<N>) -> Option<usize> {
        let pairs = pairs_of(self.next()?)?;
        for pair in pairs {
            into.push(byte_of(*pair)?)?;
        }
        Some(pairs.len())
    }

    // Bytes, which are all that `into` has then.
    pub(crate) fn bytes<'b, const N: usize>(
        &mut self,
        into: &'b mut Buffer<N>,
    ) -> Option<&'b mut [u8]> {
        into.clear();
        self.more_bytes(into)?;
        Some(into.as_mut_slice())
    }

    // The entries of a list: `-` is none.
    pub(crate) fn entries(&mut self) -> Option<Split<'a, char>> {
        let list = self.next()?;
        let mut entries = list.split(',');
        if list == "-" {
            entries.next();
        }
        Some(entries)
    }

    // The numbers of a list.
    pub(crate) fn list(&mut self) -> Option<Numbers<'a>> {
        Some(Numbers::new(self.next()?))
    }

    // A list of numbers with commas between them.
    pub(crate) fn numbers(&mut self, into: &mut ArrayVec<usize, MOST_ENTRIES>) -> Option<()> {
        into.clear();
        let mut list = self.list()?;
        while list.has_more() {
            into.try_push(list.next_to(b',')?).ok()?;
        }
        Some(())
    }
}

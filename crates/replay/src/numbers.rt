// The numbers of a list (docs/REPLAY.md, "Words"), which are taken one after another. Most are short, so each is read in
// one pass over its digits: to look for its end first, as `Words` does, takes longer.
ghost use Rattle.replay.specs.Model.{left_in};
ghost use Rattle.std.specs.Prelude.{◌<◌, length, IfSome, OnSome};

// The numbers that are not taken yet.
#[derive(Drop)]
pub(crate) struct Numbers<'a> {
    // `None` where all are taken.
    left: Option<&'a [u8]>,
}

fn digit_of(letter: u8) -> Option<usize> {
    match letter {
        b'0'..=b'9' => Some(usize::from(letter - b'0')),
        _ => None,
    }
}

// The number that a text begins with, and what is behind its digits. It has no sign and no leading zero.
fn number_before(text: &[u8]) -> Option<(usize, &[u8])>
    ensures { IfSome result (λ parts. length parts.1.now < length text.now) }
{
    let (first, behind) = text.split_first()?;
    let mut number = digit_of(*first)?;
    if number == 0 {
        return Some((0, behind));
    }
    for (count, letter) in behind.iter().enumerate() {
        let Some(digit) = digit_of(*letter) else {
            return Some((number, &behind[count..]));
        };
        number = number.checked_mul(10)?.checked_add(digit)?;
    }
    Some((number, &[]))
}

impl<'a> Numbers<'a> {
    // The numbers of a list: `-` has none.
    pub(crate) fn new(list: &'a str) -> Self {
        Numbers {
            left: if list == "-" {
                None
            } else {
                Some(list.as_bytes())
            },
        }
    }

    pub(crate) fn has_more(&self) -> bool {
        self.left.is_some()
    }

    // The next number, which ends at the mark or with the list.
    pub(crate) fn next_to(&mut self, mark: u8) -> Option<usize>
        ensures { OnSome result (left_in self.new < left_in self.old) }
    {
        let (number, behind) = number_before(self.left?)?;
        self.left = match behind.split_first() {
            None => None,
            Some((letter, rest)) if *letter == mark => Some(rest),
            Some(_) => return None,
        };
        Some(number)
    }
}

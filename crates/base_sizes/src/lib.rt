// Sizes that more than one rule speaks of, whether a part lies inside, and the greater of two sizes.
#![tactic(auto)]

ghost use Rattle.std.specs.Prelude.{◌≡◌, max};
ghost use Rattle.base_sizes.specs.Meant.{is_inside};

// The longest packet, the longest plaintext, and how much of an output is used.
pub const MOST_BYTES: usize = 65535;

// Whether the `len` bytes from `start` on lie inside `available` bytes. No sum of them is made: it may pass
// the largest number.
pub fn is_inside(start: usize, len: usize, available: usize) -> bool
    ensures { result ≡ is_inside start len available }
{
    if available < start {
        return false;
    }
    if available - start < len {
        return false;
    }
    true
}

pub fn greater(a: usize, b: usize) -> usize
    ensures { result ≡ max a b }
{
    if a < b { b } else { a }
}

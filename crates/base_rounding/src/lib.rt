// Rounding to four (EF next_multiple_of_u16, next_multiple_of_usize). A length of a field, a nonce or
// a ciphertext has 16 bits, so nothing wraps here.
#![tactic(auto)]

ghost use Rattle.std.specs.Prelude.{◌≡◌};
ghost use Rattle.base_rounding.specs.Meant.{rounded_up};

// The least multiple of four that is not below `n`.
pub fn next_multiple_of_four(n: u16) -> usize
    ensures { result ≡ rounded_up n }
{
    (n as usize + 3) / 4 * 4
}

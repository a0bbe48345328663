// Big-endian numbers of given widths, one after the other: what the headers of NTPv5 and of RFC 5905 are made of.
#![tactic(auto)]

ghost use Rattle.std.specs.Prelude.{◌≡◌, ◌+◌, ◌≤◌, length, leb};
ghost use Rattle.std.specs.Int.{w8};
ghost use Rattle.std.proofs.Common.{to_z, of_z};
ghost use Rattle.base_big_endian.specs.Meant.{number_at};
ghost use Rattle.base_store.specs.Meant.{wrote};
ghost use Rattle.header_numbers.specs.Meant.{total};
ghost use Rattle.header_numbers.specs.Model.{numbers_write};
ghost use Rattle.header_numbers.specs.Laws.{Put};

use base_answers::Refusal;
use time_units::NtpTimestamp;

// Why no header was read.
#[derive(Clone, Copy)]
pub enum HeaderError {
    // With the version seen.
    InvalidVersion(u8),
    Refused(Refusal),
}

// Whether the widths come to at most `room` bytes. What is left of the room is counted down, since a sum of widths might not fit.
fn fits(widths: &[usize], room: usize) -> bool
    ensures { result ≡ leb (total widths.now) room }
{
    let mut left = room;
    for &width in widths {
        if left < width {
            return false;
        }
        left -= width;
    }
    true
}

// Stores each number where the one before it ends, and tells where the last one does.
fn put_all(widths: &[usize], numbers: &[u64], out: &mut [u8], at: usize) -> usize
    requires { (length widths.now ≡ length numbers.now) × (at + total widths.now ≤ length out.old) }
    ensures { Put widths.now numbers.now out.old at result out.new }
{
    let mut place = at;
    for (i, &width) in widths.iter().enumerate() {
        base_store::put(out, place, width, numbers[i]);
        place += width;
    }
    place
}

// Writes the numbers from `at` on, as many bytes of each as its width says. Widths and numbers are two slices, since a header's
// widths are a constant; where one is longer, the answer is 18 (`header_numbers.Laws.unpaired`).
pub fn serialize(
    widths: &[usize],
    numbers: &[u64],
    out: &mut [u8],
    at: usize,
) -> Result<usize, Refusal>
    ensures { wrote result out.new ≡ numbers_write widths.now numbers.now out.old at }
{
    if widths.len() != numbers.len() {
        return Err(Refusal::CannotBeMade);
    }
    if out.len() < at || !fits(widths, base_store::room(out.len(), at)) {
        return Err(Refusal::NoRoom);
    }
    let end = put_all(widths, numbers, out, at);
    Ok(end - at)
}

// The timestamp at a place.
pub fn timestamp_at(data: &[u8], at: usize) -> NtpTimestamp
    ensures { result.0 ≡ number_at 8 «data».now at }
{
    NtpTimestamp::from_units_of_2pow_minus_32_s(base_big_endian::be64(data, at))
}

// A byte read as signed (Rust's `as i8`).
pub fn as_i8(byte: u8) -> i8
    ensures { result ≡ to_z w8 byte }
{
    byte.cast_signed()
}

// The byte of a signed number (Rust's `as u8`).
pub fn as_u8(number: i8) -> u8
    ensures { result ≡ of_z w8 number }
{
    number.cast_unsigned()
}

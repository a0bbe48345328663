// Stores into lent memory (Rust's Cursor and write_all). A store that does not fit changes nothing. A writer answers how many
// bytes it wrote, or why it wrote none: a `Result<usize, Refusal>`.
#![tactic(auto)]

ghost use Rattle.std.specs.Prelude.{◌≡◌, replicate};
ghost use Rattle.base_big_endian.specs.Meant.{big_endian};
ghost use Rattle.base_store.specs.Model.{stored};
ghost use Rattle.base_store.specs.Meant.{output_end, room_from};

use base_sizes::{MOST_BYTES, is_inside};

// Where an output of `len` bytes ends. Rule 1.7: an output is treated as no longer than 65,535 bytes.
pub fn output_end(len: usize) -> usize
    ensures { result ≡ output_end len }
{
    if MOST_BYTES < len { MOST_BYTES } else { len }
}

// How many bytes an output of `len` bytes has from `at` on.
pub fn room(len: usize, at: usize) -> usize
    ensures { result ≡ room_from len at }
{
    let end = output_end(len);
    if at < end { end - at } else { 0 }
}

// Stores `src` from `at` on.
pub fn copy(out: &mut [u8], at: usize, src: &[u8])
    ensures { out.new ≡ stored out.old at src.now }
{
    if is_inside(at, src.len(), out.len()) {
        for i in 0..src.len() {
            out[at + i] = src[i];
        }
    }
}

// Stores `count` zeros from `at` on.
pub fn fill(out: &mut [u8], at: usize, count: usize)
    ensures { out.new ≡ stored out.old at (replicate count 0) }
{
    if is_inside(at, count, out.len()) {
        for i in 0..count {
            out[at + i] = 0;
        }
    }
}

// Stores the `width` low bytes of a number, the last one first.
pub fn put(out: &mut [u8], at: usize, width: usize, number: u64)
    ensures { out.new ≡ stored out.old at (big_endian width number) }
{
    if is_inside(at, width, out.len()) {
        let mut rest = number;
        for i in (0..width).rev() {
            out[at + i] = (rest % 256) as u8;
            rest = rest / 256;
        }
    }
}

pub fn put16(out: &mut [u8], at: usize, number: u16)
    ensures { out.new ≡ stored out.old at (big_endian 2 number) }
{
    put(out, at, 2, number as u64);
}

pub fn put32(out: &mut [u8], at: usize, number: u32)
    ensures { out.new ≡ stored out.old at (big_endian 4 number) }
{
    put(out, at, 4, number as u64);
}

// Big-endian numbers, the high byte first (Rust's from_be_bytes).
#![tactic(auto)]

ghost use Rattle.std.specs.Prelude.{◌≡◌, ◌+◌, ◌≤◌, length};
ghost use Rattle.base_big_endian.specs.Meant.{number_at};
ghost use Rattle.base_big_endian.specs.Model.{Read};

// The number of the `width` bytes from `at` on.
fn number(s: &[u8], at: usize, width: usize) -> u64
    requires { (width ≤ 8) × (at + width ≤ length s.now) }
    ensures { Read width s.now at result }
{
    let mut value: u64 = 0;
    for i in 0..width {
        value = value * 256 + s[at + i] as u64;
    }
    value
}

// The same, and 0 where the bytes are not all there.
fn number_at(s: &[u8], at: usize, width: usize) -> u64
    requires { width ≤ 8 }
    ensures { Read width s.now at result }
{
    if s.len() < at {
        return 0;
    }
    if s.len() - at < width {
        return 0;
    }
    number(s, at, width)
}

pub fn be8(s: &[u8], at: usize) -> u8
    ensures { result ≡ number_at 1 s.now at }
{
    number_at(s, at, 1) as u8
}

pub fn be16(s: &[u8], at: usize) -> u16
    ensures { result ≡ number_at 2 s.now at }
{
    number_at(s, at, 2) as u16
}

pub fn be32(s: &[u8], at: usize) -> u32
    ensures { result ≡ number_at 4 s.now at }
{
    number_at(s, at, 4) as u32
}

pub fn be64(s: &[u8], at: usize) -> u64
    ensures { result ≡ number_at 8 s.now at }
{
    number_at(s, at, 8)
}

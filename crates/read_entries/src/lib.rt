// Entries of the tables that the reader and the survey are lent: four numbers of 16 bits in a word, so
// that a table has eight bytes an entry. The blank entry is 0.
#![tactic(auto)]

ghost use Rattle.std.specs.Prelude.{◌≡◌, min, length, take, drop};
ghost use Rattle.std.proofs.lemmas.List.Edits.{sets};
ghost use Rattle.read_entries.specs.Model.{entry_of, unpacked};
ghost use Rattle.read_entries.specs.Meant.{capacity, blanks, slot_of};

// How many entries a table has.
pub const CAPACITY: usize = 128;

pub type Table = [u64; CAPACITY];

// A table has its capacity of entries: a table by value says so to a proof, a reference to one does not. Nothing
// is left of a call in compiled code.
pub fn sized(table: Table)
    ensures { length table ≡ capacity }
{}

pub fn pack(first: u16, second: u16, third: u16, fourth: u16) -> u64
    ensures { result ≡ entry_of first second third fourth }
{
    let high = third as u64 + fourth as u64 * 65536;
    let middle = second as u64 + high * 65536;
    first as u64 + middle * 65536
}

#[derive(Clone, Copy)]
pub struct Unpacked {
    pub first: u16,
    pub second: u16,
    pub third: u16,
    pub fourth: u16,
}

pub fn unpack(entry: u64) -> Unpacked
    ensures { result ≡ unpacked entry }
{
    let middle = entry / 65536;
    let high = middle / 65536;
    let first = (entry % 65536) as u16;
    let second = (middle % 65536) as u16;
    let third = (high % 65536) as u16;
    let fourth = (high / 65536) as u16;
    Unpacked {
        first,
        second,
        third,
        fourth,
    }
}

// Entry number `index` of the `count` entries from `first` on, if there is one.
pub fn entry_number(table: &Table, first: usize, count: usize, index: usize) -> Option<u64>
    ensures { result ≡ slot_of (take count (drop first table.now)) index }
{
    sized(*table);
    if count <= index {
        return None;
    }
    if CAPACITY <= first {
        return None;
    }
    if CAPACITY - first <= index {
        return None;
    }
    Some(table[first + index])
}

// Blanks the entries from `from` up to `to`.
pub fn blank(table: &mut Table, from: usize, to: usize)
    ensures { table.new ≡ sets table.old from (blanks from to) }
{
    for i in from..to.min(CAPACITY) {
        table[i] = 0;
    }
}

// The buffers that a case may use.
ghost use Rattle.std.specs.Prelude.{◌≤◌};

use arrayvec::ArrayVec;

// A longer line, not counting its line feed, is no case.
pub(crate) const LONGEST_LINE: usize = 1048576;

// No line has more pairs of digits.
pub(crate) const MOST_BYTES: usize = LONGEST_LINE / 2;

// A longer list is no word of a case. An output has room for one field fewer, and so has a packet.
pub(crate) const MOST_ENTRIES: usize = 16384;

// Bytes, of which there is room for N. (An `ArrayVec` is moved where it is made, and of such sizes some copies fill the
// stack.)
#[derive(Drop)]
pub(crate) struct Buffer<const N: usize> {
    bytes: [u8; N],
    len: usize,
    ghost within: { len ≤ N },
}

// What a line's words put into them.
#[derive(Drop)]
pub(crate) struct Buffers {
    // Bytes that a library reads.
    pub(crate) given: Buffer<MOST_BYTES>,
    // An output that a library writes, or a plaintext.
    pub(crate) lent: Buffer<MOST_BYTES>,
    pub(crate) lists: Lists,
}

// The entries of a line's lists, with a column for each part of an entry, as the libraries take them.
#[derive(Drop)]
pub(crate) struct Lists {
    // Of the result for a sealed field: its verdict.
    pub(crate) verdicts: ArrayVec<u8, MOST_ENTRIES>,
    // Of a field to write: its kind and its number.
    pub(crate) kinds: ArrayVec<u8, MOST_ENTRIES>,
    pub(crate) numbers: ArrayVec<u16, MOST_ENTRIES>,
    // Where a field or its bytes start, and how many bytes it has.
    pub(crate) starts: ArrayVec<usize, MOST_ENTRIES>,
    pub(crate) lens: ArrayVec<usize, MOST_ENTRIES>,
}

impl<const N: usize> Buffer<N> {
    pub(crate) fn new() -> Self {
        Buffer {
            bytes: [0; N],
            len: 0,
        }
    }

    pub(crate) fn len(&self) -> usize {
        self.len
    }

    pub(crate) fn is_empty(&self) -> bool {
        self.len == 0
    }

    pub(crate) fn as_slice(&self) -> &[u8] {
        &self.bytes[..self.len]
    }

    pub(crate) fn as_mut_slice(&mut self) -> &mut [u8] {
        let len = self.len;
        let bytes = &mut self.bytes;
        let all = &mut bytes[..];
        &mut all[..len]
    }

    pub(crate) fn clear(&mut self) {
        self.len = 0;
    }

    // Adds a byte, or answers `None` where there is no room.
    pub(crate) fn push(&mut self, byte: u8) -> Option<()> {
        let len = self.len;
        *self.bytes.get_mut(len)? = byte;
        self.len = len + 1;
        Some(())
    }

    // Adds bytes, or answers `None` where there is no room for all of them.
    pub(crate) fn extend(&mut self, more: &[u8]) -> Option<()> {
        let len = self.len;
        let (room, _) = self.bytes.get_mut(len..)?.split_at_mut_checked(more.len())?;
        room.copy_from_slice(more);
        self.len = len + more.len();
        Some(())
    }
}

impl Lists {
    pub(crate) fn new() -> Self {
        Lists {
            verdicts: ArrayVec::new(),
            kinds: ArrayVec::new(),
            numbers: ArrayVec::new(),
            starts: ArrayVec::new(),
            lens: ArrayVec::new(),
        }
    }

    pub(crate) fn clear(&mut self) {
        self.verdicts.clear();
        self.kinds.clear();
        self.numbers.clear();
        self.starts.clear();
        self.lens.clear();
    }
}

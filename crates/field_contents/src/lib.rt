// What the message of a field may be (EF ExtensionField::decode and its decode_.. functions).
#![tactic(auto)]

ghost use Rattle.std.specs.Prelude.{◌≡◌, ◌<◌};
ghost use Rattle.field_contents.specs.Meant.{every, is_ascii, rule_of};
ghost use Rattle.field_contents.specs.Model.{PowerOfTwo, below, in_blocks, zero_blocks};

use field_kinds::Kind;

// What a kind asks of its message.
#[derive(Clone, Copy)]
pub enum Rule {
    // Nothing.
    Any,
    // All bytes zero.
    Zeros,
    // All bytes below 128.
    Ascii,
    // The two bytes of an offset.
    Offset,
    // The inner lengths of a sealed field.
    Sealed,
}

pub fn rule_of(kind: Kind) -> Rule
    ensures { result ≡ rule_of kind }
{
    match kind {
        Kind::NtsCookiePlaceholder => Rule::Zeros,
        Kind::NtsEncryptedField => Rule::Sealed,
        Kind::DraftIdentification => Rule::Ascii,
        Kind::ReferenceIdRequest => Rule::Offset,
        Kind::Unknown
        | Kind::UniqueIdentifier
        | Kind::NtsCookie
        | Kind::InvalidNtsEncryptedField
        | Kind::ReferenceIdResponse => Rule::Any,
    }
}

// Whether every byte is below `limit`. The limit is a power of two, so every byte is below it exactly where
// their "or" is. The loop does not stop early: the compiler then takes many bytes at a time.
fn is_below(block: &[u8], limit: u8) -> bool
    requires { PowerOfTwo limit }
    ensures { result ≡ every (below limit) block.now }
{
    let mut all: u8 = 0;
    for i in 0..block.len() {
        all |= block[i];
    }
    all < limit
}

// How many bytes at the front are below `limit`, in blocks of `size`: all of a message that has no others,
// otherwise those in whole blocks. A caller hands on a part of its message, even if the part is all of it:
// the compiler then passes that message in registers.
fn blocks_of(message: &[u8], size: usize, limit: u8) -> usize
    requires { (0 < size) × PowerOfTwo limit }
    ensures { result ≡ in_blocks (below limit) size message.now }
{
    let len = message.len();
    if len < size {
        if is_below(message, limit) {
            return len;
        }
        return 0;
    }
    let mut i: usize = 0;
    while size <= len - i {
        let end = i + size;
        if !is_below(&message[i..end], limit) {
            return i;
        }
        i = end;
    }
    if i == len {
        return len;
    }
    // The last block ends where the message does. It begins in the block before, so that no byte is left to
    // be looked at alone.
    let last = len - size;
    if is_below(&message[last..len], limit) {
        return len;
    }
    i
}

// Whether every byte is below 128, as those of a DraftIdentification are. What is shorter than a block of 64
// goes in eights.
pub fn is_ascii(message: &[u8]) -> bool
    ensures { result ≡ every is_ascii message.now }
{
    let len = message.len();
    if len < 64 {
        return blocks_of(&message[0..len], 8, 128) == len;
    }
    blocks_of(&message[0..len], 64, 128) == len
}

// How many zeros at the front of a message the scan of a placeholder need not look at: bytes below 1. Blocks
// of 64 pass most of them. Eights take a shorter message, and the zeros before another byte.
pub fn zero_blocks(message: &[u8]) -> usize
    ensures { result ≡ zero_blocks message.now }
{
    let len = message.len();
    if len < 64 {
        return blocks_of(&message[0..len], 8, 1);
    }
    let passed = blocks_of(&message[0..len], 64, 1);
    if passed == len {
        return len;
    }
    passed + blocks_of(&message[passed..len], 8, 1)
}

// The frame of a field: its type, its length and the bytes that it takes (EF RawExtensionField::
// deserialize and wire_length; RFC 5905, section 7.5; RFC 7822, section 3).
#![tactic(auto)]

ghost use Rattle.std.specs.Prelude.{◌≡◌, length};
ghost use Rattle.field_frame.specs.Model.{told_of, is_allowed, frame_of, frame_at};

use base_answers::Refusal;
use base_version::Version;

#[derive(Clone, Copy)]
pub struct Frame {
    pub type_id: u16,
    // Of the message, without the four bytes of type and length.
    pub message_len: usize,
    // Of the whole field with its padding.
    pub wire_length: usize,
}

// V4 counts the padding in the length, so a length is a multiple of four there.
fn is_allowed(length: u16, version: Version) -> bool
    ensures { result ≡ is_allowed version length }
{
    match version {
        Version::V4 => length % 4 == 0,
        Version::V5 => true,
    }
}

// The frame of a field with this type and length where `left` bytes are left from its start on.
pub fn frame_of(type_id: u16, length: u16, left: usize, version: Version) -> Result<Frame, Refusal>
    ensures { told_of result ≡ told_of (frame_of version type_id length left) }
{
    if length < 4 {
        return Err(Refusal::IncorrectLength);
    }
    if !is_allowed(length, version) {
        return Err(Refusal::IncorrectLength);
    }
    let wire_length = base_rounding::next_multiple_of_four(length);
    if left < wire_length {
        return Err(Refusal::IncorrectLength);
    }
    Ok(Frame {
        type_id,
        message_len: (length - 4) as usize,
        wire_length,
    })
}

// The frame of the field whose header is at `at`.
pub fn frame_at(region: &[u8], at: usize, version: Version) -> Result<Frame, Refusal>
    ensures { told_of result ≡ told_of (frame_at version region.now at) }
{
    if region.len() < at {
        return Err(Refusal::IncorrectLength);
    }
    let left = region.len() - at;
    if left < 4 {
        return Err(Refusal::IncorrectLength);
    }
    let type_id = base_big_endian::be16(region, at);
    let length = base_big_endian::be16(region, at + 2);
    frame_of(type_id, length, left, version)
}

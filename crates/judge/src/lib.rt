// Whether a proposed list is the cut of a packet: where each field begins, and how many bytes it takes
// (section 25 of the rules; ntp-proto judges no lists). The judge stops at the first pair that is wrong.
#![tactic(auto)]

ghost use Rattle.std.specs.Prelude.{◌≡◌};
ghost use Rattle.judge.specs.Model.{is_field, is_rest, is_cut};

use base_sizes::MOST_BYTES;
use base_version::Version;

// Whether a field has to begin at `at`, and is the proposed one. A proposed length that passes here is that of
// a field inside the packet, so it can be added to `at`.
pub fn is_field(
    packet: &[u8],
    at: usize,
    version: Version,
    field_offset: usize,
    wire_length: usize,
) -> bool
    ensures { result ≡ is_field version packet.now at field_offset wire_length }
{
    if packet.len() < at {
        return false;
    }
    if packet.len() - at <= read_step::cutoff_of(version) {
        return false;
    }
    if field_offset != at {
        return false;
    }
    match field_frame::frame_at(packet, at, version) {
        Ok(frame) => wire_length == frame.wire_length,
        Err(_) => false,
    }
}

// Whether the fields end at `at`: no more is left there than may be left over.
pub fn is_rest(packet: &[u8], at: usize, version: Version) -> bool
    ensures { result ≡ is_rest version packet.now at }
{
    if packet.len() < at {
        return false;
    }
    packet.len() - at <= read_step::cutoff_of(version)
}

// Whether the fields of a packet whose header is `header_size` bytes long begin at these offsets and take these
// numbers of bytes, and end where they have to. No more pairs are looked at than one for each field and one more.
pub fn is_cut(
    packet: &[u8],
    header_size: usize,
    version: Version,
    field_offsets: &[usize],
    wire_lengths: &[usize],
) -> bool
    ensures { result ≡ is_cut packet.now header_size version field_offsets.now wire_lengths.now }
{
    if MOST_BYTES < packet.len() {
        return false;
    }
    if field_offsets.len() != wire_lengths.len() {
        return false;
    }
    let mut at = header_size;
    for (field_offset, wire_length) in field_offsets.iter().zip(wire_lengths) {
        if !is_field(packet, at, version, *field_offset, *wire_length) {
            return false;
        }
        at += *wire_length;
    }
    is_rest(packet, at, version)
}

// The judge over the gateway's table of cuts as it stands: a lent slice of structs. It goes through the table and does
// nothing else.
#![tactic(auto)]

ghost use Rattle.std.specs.Prelude.{◌≡◌};
ghost use Rattle.judge.specs.Model.{is_cut};
ghost use Rattle.judge_table.specs.Meant.{offsets_in, wire_lengths_in};

use base_sizes::MOST_BYTES;
use base_version::Version;

// A field as the gateway cuts it: where it begins in the packet, and how many bytes it takes with its padding.
#[repr(C)]
#[derive(Clone, Copy)]
pub struct Cut {
    pub field_offset: usize,
    pub wire_length: usize,
}

// Whether these are the fields of a packet whose header is `header_size` bytes long (`judge::is_cut`).
pub fn is_cut<'a>(packet: &'a [u8], header_size: usize, version: Version, cuts: &'a [Cut]) -> bool
    ensures { result ≡ is_cut packet.now header_size version (offsets_in cuts.now) (wire_lengths_in cuts.now) }
{
    if MOST_BYTES < packet.len() {
        return false;
    }
    let mut at = header_size;
    for i in 0..cuts.len() {
        let cut = cuts[i];
        if !judge::is_field(packet, at, version, cut.field_offset, cut.wire_length) {
            return false;
        }
        at += cut.wire_length;
    }
    judge::is_rest(packet, at, version)
}

// Whether a list that a gateway proposes is the cut of a packet.
#![tactic(auto)]

ghost use Rattle.std.specs.Prelude.{◌≡◌};
ghost use Rattle.judge_table.specs.Meant.{offsets_in, wire_lengths_in};
ghost use Rattle.host_cuts.specs.Meant.{cut_across};

use judge_table::Cut;

pub fn is_cut(
    packet: &[u8],
    header_size: usize,
    version: u8,
    field_offsets: &[usize],
    wire_lengths: &[usize],
) -> bool
    ensures { result ≡ cut_across packet.now header_size version field_offsets.now wire_lengths.now }
{
    match host::version_of(version) {
        None => false,
        Some(version) => judge::is_cut(packet, header_size, version, field_offsets, wire_lengths),
    }
}

// The same of the gateway's table, as it stands.
pub fn is_cut_table<'a>(packet: &'a [u8], header_size: usize, version: u8, cuts: &'a [Cut]) -> bool
    ensures { result ≡ cut_across packet.now header_size version (offsets_in cuts.now) (wire_lengths_in cuts.now) }
{
    match host::version_of(version) {
        None => false,
        Some(version) => judge_table::is_cut(packet, header_size, version, cuts),
    }
}

// Demand 3 as the promise of a function: a packet has one cut, and the reader reports it or the first fault.
#![tactic(auto)]

ghost use Rattle.read_opening.specs.Meant.{lent_of};
ghost use Rattle.read_packet.specs.Meant.{input_of};
ghost use Rattle.claim_demand.specs.Meant.{Demand3};

use base_version::Version;
use read_entries::Table;
use read_opening::LentResults;
use read_packet::Read;

// Reads into tables that may hold anything (`read_packet::deserialize`).
pub fn deserialize(
    packet: &[u8],
    header_size: usize,
    version: Version,
    verdicts: &[u8],
    starts: &[usize],
    lens: &[usize],
    plain: &[u8],
    outer: &mut Table,
    inner: &mut Table,
) -> Read
    ensures { Demand3 (input_of packet.now header_size version (lent_of verdicts.now starts.now lens.now plain.now)) result outer.new inner.new }
{
    read_entries::sized(*outer);
    read_entries::sized(*inner);
    read_packet::deserialize(
        packet,
        header_size,
        version,
        &LentResults {
            verdicts,
            starts,
            lens,
            plain,
        },
        outer,
        inner,
    )
}

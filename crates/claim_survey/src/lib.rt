// What the survey says of a packet, over the layout alone, as the promise of a function.
#![tactic(auto)]

ghost use Rattle.claim_survey.specs.Meant.{SurveyTells};

use base_version::Version;
use read_entries::Table;
use read_survey::SurveyFault;

// Lists the sealed fields of a packet (`read_survey::survey`).
pub fn survey(
    packet: &[u8],
    header_size: usize,
    version: Version,
    table: &mut Table,
) -> Result<usize, SurveyFault>
    ensures { SurveyTells packet.now header_size version result table.new }
{
    read_entries::sized(*table);
    read_survey::survey(packet, header_size, version, table)
}

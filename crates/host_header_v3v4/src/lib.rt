// The header of NTPv3 and NTPv4, for a host. Its leap, version and mode are numbers in Rattle too, so it crosses as it is.
#![tactic(auto)]

ghost use Rattle.std.specs.Prelude.{◌≡◌};
ghost use Rattle.header_v3v4.specs.Meant.{header_read, header_write};
ghost use Rattle.host.specs.Meant.{leaving, of_write};
ghost use Rattle.host_header_v3v4.specs.Meant.{no_header, header_row};

use base_answers::Refusal;
use header_codes::PollInterval;
use header_numbers::HeaderError;
use header_v3v4::{LeapBits, NtpHeaderV3V4, ReferenceId};
use host::NtpLength;
use time_units::{NtpShort, NtpTimestamp};

// What reading a header tells: 0 and the header, or the number of a refusal, with 11 the version seen. What
// does not come is 0.
#[repr(C)]
#[derive(Clone, Copy)]
pub struct NtpHeaderV3V4Read {
    pub number: usize,
    pub version_seen: usize,
    pub header: NtpHeaderV3V4,
}

#[tactic(auto, unfolding(crate::specs::Meant::no_header))]
fn no_header() -> NtpHeaderV3V4
    ensures { result ≡ no_header }
{
    NtpHeaderV3V4 {
        leap: LeapBits(0),
        version: 0,
        mode: 0,
        stratum: 0,
        poll: PollInterval::from_byte(0),
        precision_log2_seconds: 0,
        root_delay: NtpShort::from_units_of_2pow_minus_16_s(0),
        root_dispersion: NtpShort::from_units_of_2pow_minus_16_s(0),
        reference_id: ReferenceId(0),
        reference_timestamp: NtpTimestamp::from_units_of_2pow_minus_32_s(0),
        origin_timestamp: NtpTimestamp::from_units_of_2pow_minus_32_s(0),
        receive_timestamp: NtpTimestamp::from_units_of_2pow_minus_32_s(0),
        transmit_timestamp: NtpTimestamp::from_units_of_2pow_minus_32_s(0),
    }
}

fn answer_row(answer: Result<NtpHeaderV3V4, HeaderError>) -> NtpHeaderV3V4Read
    ensures { result ≡ header_row answer }
{
    match answer {
        Ok(header) => NtpHeaderV3V4Read {
            number: 0,
            version_seen: 0,
            header,
        },
        Err(HeaderError::InvalidVersion(version)) => NtpHeaderV3V4Read {
            number: host::number_of(Refusal::InvalidVersion),
            version_seen: version as usize,
            header: no_header(),
        },
        Err(HeaderError::Refused(refusal)) => NtpHeaderV3V4Read {
            number: host::number_of(refusal),
            version_seen: 0,
            header: no_header(),
        },
    }
}

// Reads a header (`header_v3v4::deserialize`).
pub fn read(data: &[u8]) -> NtpHeaderV3V4Read
    ensures { result ≡ header_row (header_read «data».now) }
{
    answer_row(header_v3v4::deserialize(data))
}

// Writes a header from `at` on (`header_v3v4::serialize`).
pub fn write(header: NtpHeaderV3V4, out: &mut [u8], at: usize) -> NtpLength
    ensures { leaving result out.new ≡ of_write (header_write header out.old at) }
{
    host::length_row(header_v3v4::serialize(header, out, at))
}

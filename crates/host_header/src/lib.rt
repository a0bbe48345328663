// The header of NTPv5, for a host: leap, mode, timescale and flags are numbers there. Counts of time and the
// two cookies keep their types, so that none is taken for another.
#![tactic(auto)]

ghost use Rattle.std.specs.Prelude.{◌≡◌};
ghost use Rattle.header_v5.specs.Meant.{header_read};
ghost use Rattle.host.specs.Meant.{leaving};
ghost use Rattle.host_header.specs.Meant.{no_header, header_row, is_coded, header_of, header_across};

use base_answers::Refusal;
use header_codes::PollInterval;
use header_numbers::HeaderError;
use header_v5::{NtpClientCookie, NtpEra, NtpHeaderV5, NtpServerCookie};
use host::NtpLength;
use time_units::{NtpTimestamp, Time32};

// The small numbers come first, so that nothing is left empty between the parts.
#[repr(C)]
#[derive(Clone, Copy)]
pub struct NtpHeader {
    // 0, 1, 2, then 3 for Unknown and 4 for Unsynchronized.
    pub leap: u8,
    // 3 for a request, 4 for a response.
    pub mode: u8,
    pub stratum: u8,
    pub poll: PollInterval,
    pub precision_log2_seconds: i8,
    // 0 to 3.
    pub timescale: u8,
    pub era: u8,
    // 1 for synchronized, 2 for interleaved, 4 for authnak, added up.
    pub flags: u8,
    pub root_delay: Time32,
    pub root_dispersion: Time32,
    pub server_cookie: NtpServerCookie,
    pub client_cookie: NtpClientCookie,
    pub receive_timestamp: NtpTimestamp,
    pub transmit_timestamp: NtpTimestamp,
}

impl From<NtpHeaderV5> for NtpHeader {
    ghost use Rattle.host_header.specs.Meant.{row_of};

    ghost from_gives = { λ header row. row ≡ row_of header };

    #[tactic(auto, unfolding(crate::specs::Meant::row_of))]
    fn from(header: NtpHeaderV5) -> NtpHeader {
        NtpHeader {
            leap: header_codes::leap_told(header.leap),
            mode: header_codes::mode_to_bits(header.mode),
            stratum: header.stratum,
            poll: header.poll,
            precision_log2_seconds: header.precision_log2_seconds,
            timescale: header_codes::timescale_to_bits(header.timescale),
            era: header.era.0,
            flags: header_codes::flags_as_bits(header.flags),
            root_delay: header.root_delay,
            root_dispersion: header.root_dispersion,
            server_cookie: header.server_cookie,
            client_cookie: header.client_cookie,
            receive_timestamp: header.receive_timestamp,
            transmit_timestamp: header.transmit_timestamp,
        }
    }
}

// What reading a header tells: 0 and the header, or the number of a refusal, with 11 the version seen. What
// does not come is 0.
#[repr(C)]
#[derive(Clone, Copy)]
pub struct NtpHeaderRead {
    pub number: usize,
    pub version: usize,
    pub header: NtpHeader,
}

#[tactic(auto, unfolding(crate::specs::Meant::no_header))]
fn no_header() -> NtpHeader
    ensures { result ≡ no_header }
{
    NtpHeader {
        leap: 0,
        mode: 0,
        stratum: 0,
        poll: PollInterval::from_byte(0),
        precision_log2_seconds: 0,
        timescale: 0,
        era: 0,
        flags: 0,
        root_delay: Time32::from_units_of_2pow_minus_28_s(0),
        root_dispersion: Time32::from_units_of_2pow_minus_28_s(0),
        server_cookie: NtpServerCookie(0),
        client_cookie: NtpClientCookie(0),
        receive_timestamp: NtpTimestamp::from_units_of_2pow_minus_32_s(0),
        transmit_timestamp: NtpTimestamp::from_units_of_2pow_minus_32_s(0),
    }
}

fn answer_row(answer: Result<NtpHeaderV5, HeaderError>) -> NtpHeaderRead
    ensures { result ≡ header_row answer }
{
    match answer {
        Ok(header) => NtpHeaderRead {
            number: 0,
            version: 0,
            header: NtpHeader::from(header),
        },
        Err(HeaderError::InvalidVersion(version)) => NtpHeaderRead {
            number: host::number_of(Refusal::InvalidVersion),
            version: version as usize,
            header: no_header(),
        },
        Err(HeaderError::Refused(refusal)) => NtpHeaderRead {
            number: host::number_of(refusal),
            version: 0,
            header: no_header(),
        },
    }
}

// Reads a header (`header_v5::deserialize`).
pub fn read(data: &[u8]) -> NtpHeaderRead
    ensures { result ≡ header_row (header_read «data».now) }
{
    answer_row(header_v5::deserialize(data))
}

// Whether leap, mode, timescale and flags are numbers that stand for something.
fn is_coded(row: NtpHeader) -> bool
    ensures { result ≡ is_coded row }
{
    row.leap <= 4 && row.timescale <= 3 && row.flags <= 7 && header_codes::is_mode(row.mode)
}

#[tactic(auto, unfolding(crate::specs::Meant::header_of))]
fn header_of(row: NtpHeader) -> NtpHeaderV5
    ensures { result ≡ header_of row }
{
    NtpHeaderV5 {
        leap: header_codes::leap_of(row.leap),
        mode: header_codes::mode_from_bits(row.mode),
        stratum: row.stratum,
        poll: row.poll,
        precision_log2_seconds: row.precision_log2_seconds,
        root_delay: row.root_delay,
        root_dispersion: row.root_dispersion,
        timescale: header_codes::timescale_from_bits(row.timescale),
        era: NtpEra(row.era),
        flags: header_codes::flags_from_bits(row.flags as u16),
        server_cookie: row.server_cookie,
        client_cookie: row.client_cookie,
        receive_timestamp: row.receive_timestamp,
        transmit_timestamp: row.transmit_timestamp,
    }
}

// Writes a header from `at` on (`header_v5::serialize`). One whose leap, mode, timescale or flags stand for
// nothing is 18.
#[tactic(auto, unfolding(crate::specs::Meant::header_across))]
pub fn write(row: NtpHeader, out: &mut [u8], at: usize) -> NtpLength
    ensures { leaving result out.new ≡ header_across row out.old at }
{
    if !is_coded(row) {
        return host::length_row(Err(Refusal::CannotBeMade));
    }
    host::length_row(header_v5::serialize(header_of(row), out, at))
}

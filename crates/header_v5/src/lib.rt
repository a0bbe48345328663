// The header of NTPv5 (V5 mod.rs): 48 bytes, read and written.
#![tactic(auto)]

ghost use Rattle.std.specs.Prelude.{◌≡◌};
ghost use Rattle.base_big_endian.specs.Meant.{number_at};
ghost use Rattle.base_store.specs.Meant.{wrote};
ghost use Rattle.header_v5.specs.Meant.{header_at, first_byte, numbers_of, told_of, header_read, header_write};

use base_answers::Refusal;
use header_codes::{NtpFlags, NtpLeapIndicator, NtpMode, NtpTimescale, PollInterval};
use header_numbers::HeaderError;
use time_units::{NtpTimestamp, Time32};

#[derive(Clone, Copy)]
pub struct NtpEra(pub u8);

#[repr(C)]
#[derive(Clone, Copy)]
pub struct NtpServerCookie(pub u64);

#[repr(C)]
#[derive(Clone, Copy)]
pub struct NtpClientCookie(pub u64);

#[derive(Clone, Copy)]
pub struct NtpHeaderV5 {
    pub leap: NtpLeapIndicator,
    pub mode: NtpMode,
    pub stratum: u8,
    pub poll: PollInterval,
    pub precision_log2_seconds: i8,
    pub root_delay: Time32,
    pub root_dispersion: Time32,
    pub timescale: NtpTimescale,
    pub era: NtpEra,
    pub flags: NtpFlags,
    pub server_cookie: NtpServerCookie,
    pub client_cookie: NtpClientCookie,
    // When the request came to the server.
    pub receive_timestamp: NtpTimestamp,
    // When the response left it.
    pub transmit_timestamp: NtpTimestamp,
}

fn time32_at(data: &[u8], at: usize) -> Time32
    ensures { result.0 ≡ number_at 4 «data».now at }
{
    Time32::from_units_of_2pow_minus_28_s(base_big_endian::be32(data, at))
}

// The header in the first 48 bytes.
#[tactic(auto, unfolding(crate::specs::Meant::header_at))]
fn header_at(data: &[u8]) -> NtpHeaderV5
    ensures { result ≡ header_at «data».now }
{
    let first = base_big_endian::be8(data, 0);
    let flags = header_codes::flags_from_bits(base_big_endian::be16(data, 14));
    NtpHeaderV5 {
        leap: header_codes::fix_leap_indicator(
            flags.synchronized,
            header_codes::leap_from_bits(first / 64),
        ),
        mode: header_codes::mode_from_bits(first % 8),
        stratum: base_big_endian::be8(data, 1),
        poll: PollInterval::from_byte(base_big_endian::be8(data, 2)),
        precision_log2_seconds: header_numbers::as_i8(base_big_endian::be8(data, 3)),
        root_delay: time32_at(data, 4),
        root_dispersion: time32_at(data, 8),
        timescale: header_codes::timescale_from_bits(base_big_endian::be8(data, 12)),
        era: NtpEra(base_big_endian::be8(data, 13)),
        flags,
        server_cookie: NtpServerCookie(base_big_endian::be64(data, 16)),
        client_cookie: NtpClientCookie(base_big_endian::be64(data, 24)),
        receive_timestamp: header_numbers::timestamp_at(data, 32),
        transmit_timestamp: header_numbers::timestamp_at(data, 40),
    }
}

// Refused in the order of rule 16.2: 1, 11, 12, 13, 14. What follows the 48 bytes is not looked at.
#[tactic(auto, unfolding(crate::specs::Meant::header_read))]
pub fn deserialize(data: &[u8]) -> Result<NtpHeaderV5, HeaderError>
    ensures { told_of result ≡ told_of (header_read «data».now) }
{
    if data.len() < 48 {
        return Err(HeaderError::Refused(Refusal::IncorrectLength));
    }
    let first = base_big_endian::be8(data, 0);
    let version = first / 8 % 8;
    if version != 5 {
        return Err(HeaderError::InvalidVersion(version));
    }
    if !header_codes::is_mode(first % 8) {
        return Err(HeaderError::Refused(Refusal::MalformedMode));
    }
    if 3 < base_big_endian::be8(data, 12) {
        return Err(HeaderError::Refused(Refusal::MalformedTimescale));
    }
    if 7 < base_big_endian::be16(data, 14) {
        return Err(HeaderError::Refused(Refusal::InvalidFlags));
    }
    Ok(header_at(data))
}

fn first_byte(leap: NtpLeapIndicator, mode: NtpMode) -> u8
    ensures { result ≡ first_byte leap mode }
{
    header_codes::leap_to_bits(leap) * 64 + 5 * 8 + header_codes::mode_to_bits(mode)
}

fn numbers_of(header: NtpHeaderV5) -> [u64; 13]
    ensures { result ≡ numbers_of header }
{
    [
        first_byte(header.leap, header.mode) as u64,
        header.stratum as u64,
        header.poll.as_byte() as u64,
        header_numbers::as_u8(header.precision_log2_seconds) as u64,
        header.root_delay.units_of_2pow_minus_28_s() as u64,
        header.root_dispersion.units_of_2pow_minus_28_s() as u64,
        header_codes::timescale_to_bits(header.timescale) as u64,
        header.era.0 as u64,
        header_codes::flags_as_bits(header.flags) as u64,
        header.server_cookie.0,
        header.client_cookie.0,
        header.receive_timestamp.units_of_2pow_minus_32_s(),
        header.transmit_timestamp.units_of_2pow_minus_32_s(),
    ]
}

// How many bytes each number takes.
const WIDTHS: [usize; 13] = [1, 1, 1, 1, 4, 4, 1, 1, 2, 8, 8, 8, 8];

// Writes the 48 bytes of a header from `at` on.
#[tactic(auto, using(crate::specs::Laws::written))]
pub fn serialize(header: NtpHeaderV5, out: &mut [u8], at: usize) -> Result<usize, Refusal>
    ensures { wrote result out.new ≡ header_write header out.old at }
{
    header_numbers::serialize(&WIDTHS, &numbers_of(header), out, at)
}

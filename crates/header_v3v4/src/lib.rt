// The header of NTPv3 and NTPv4 (packet/mod.rs; RFC 5905, section 7.3): 48 bytes, read and written.
#![tactic(auto)]

ghost use Rattle.std.specs.Prelude.{◌≡◌};
ghost use Rattle.base_big_endian.specs.Meant.{number_at};
ghost use Rattle.base_store.specs.Meant.{wrote};
ghost use Rattle.header_v3v4.specs.Meant.{is_version, header_at, told_of, header_read, is_in_range, numbers_of, header_write};

use base_answers::Refusal;
use header_codes::PollInterval;
use header_numbers::HeaderError;
use time_units::{NtpShort, NtpTimestamp};

// The two bits of the leap as they stand, 0 to 3: this header has no flag that could turn them. 3 is a clock that is not
// synchronized; a leap of NTPv5 has other numbers, so it is another type.
#[repr(C)]
#[derive(Clone, Copy)]
pub struct LeapBits(pub u8);

// Four bytes: with stratum 0 a kiss code, with stratum 1 the name of a clock, otherwise what stands for a server.
#[repr(C)]
#[derive(Clone, Copy)]
pub struct ReferenceId(pub u32);

#[repr(C)]
#[derive(Clone, Copy)]
pub struct NtpHeaderV3V4 {
    pub leap: LeapBits,
    // 3 or 4.
    pub version: u8,
    // 0 to 7.
    pub mode: u8,
    pub stratum: u8,
    pub poll: PollInterval,
    pub precision_log2_seconds: i8,
    pub root_delay: NtpShort,
    pub root_dispersion: NtpShort,
    pub reference_id: ReferenceId,
    // When the sender's clock was last set.
    pub reference_timestamp: NtpTimestamp,
    // In a response: when the request left the client, as its own transmit timestamp says.
    pub origin_timestamp: NtpTimestamp,
    // In a response: when the request reached the server.
    pub receive_timestamp: NtpTimestamp,
    // When this packet left its sender.
    pub transmit_timestamp: NtpTimestamp,
}

fn is_version(version: u8) -> bool
    ensures { result ≡ is_version version }
{
    matches!(version, 3 | 4)
}

fn short_at(data: &[u8], at: usize) -> NtpShort
    ensures { result.0 ≡ number_at 4 «data».now at }
{
    NtpShort::from_units_of_2pow_minus_16_s(base_big_endian::be32(data, at))
}

// The header in the first 48 bytes.
#[tactic(auto, unfolding(crate::specs::Meant::header_at))]
fn header_at(data: &[u8]) -> NtpHeaderV3V4
    ensures { result ≡ header_at «data».now }
{
    let first = base_big_endian::be8(data, 0);
    NtpHeaderV3V4 {
        leap: LeapBits(first / 64),
        version: first / 8 % 8,
        mode: first % 8,
        stratum: base_big_endian::be8(data, 1),
        poll: PollInterval::from_byte(base_big_endian::be8(data, 2)),
        precision_log2_seconds: header_numbers::as_i8(base_big_endian::be8(data, 3)),
        root_delay: short_at(data, 4),
        root_dispersion: short_at(data, 8),
        reference_id: ReferenceId(base_big_endian::be32(data, 12)),
        reference_timestamp: header_numbers::timestamp_at(data, 16),
        origin_timestamp: header_numbers::timestamp_at(data, 24),
        receive_timestamp: header_numbers::timestamp_at(data, 32),
        transmit_timestamp: header_numbers::timestamp_at(data, 40),
    }
}

// Refused in the order of rule 23.2: 1, then 11. What follows the 48 bytes is not looked at.
#[tactic(auto, unfolding(crate::specs::Meant::header_read))]
pub fn deserialize(data: &[u8]) -> Result<NtpHeaderV3V4, HeaderError>
    ensures { told_of result ≡ told_of (header_read «data».now) }
{
    if data.len() < 48 {
        return Err(HeaderError::Refused(Refusal::IncorrectLength));
    }
    let version = base_big_endian::be8(data, 0) / 8 % 8;
    if !is_version(version) {
        return Err(HeaderError::InvalidVersion(version));
    }
    Ok(header_at(data))
}

// Whether leap, version and mode are numbers that this header can hold.
fn is_in_range(header: NtpHeaderV3V4) -> bool
    ensures { result ≡ is_in_range header }
{
    header.leap.0 <= 3 && header.mode <= 7 && is_version(header.version)
}

fn numbers_of(header: NtpHeaderV3V4) -> [u64; 11]
    ensures { result ≡ numbers_of header }
{
    [
        header.leap.0 as u64 * 64 + header.version as u64 * 8 + header.mode as u64,
        header.stratum as u64,
        header.poll.as_byte() as u64,
        header_numbers::as_u8(header.precision_log2_seconds) as u64,
        header.root_delay.units_of_2pow_minus_16_s() as u64,
        header.root_dispersion.units_of_2pow_minus_16_s() as u64,
        header.reference_id.0 as u64,
        header.reference_timestamp.units_of_2pow_minus_32_s(),
        header.origin_timestamp.units_of_2pow_minus_32_s(),
        header.receive_timestamp.units_of_2pow_minus_32_s(),
        header.transmit_timestamp.units_of_2pow_minus_32_s(),
    ]
}

// How many bytes each number takes.
const WIDTHS: [usize; 11] = [1, 1, 1, 1, 4, 4, 4, 8, 8, 8, 8];

// Writes the 48 bytes of a header from `at` on. One whose leap, version or mode is out of range is 18.
#[tactic(auto, using(crate::proofs::Laws::out_of_range, crate::proofs::Laws::written))]
pub fn serialize(header: NtpHeaderV3V4, out: &mut [u8], at: usize) -> Result<usize, Refusal>
    ensures { wrote result out.new ≡ header_write header out.old at }
{
    if !is_in_range(header) {
        return Err(Refusal::CannotBeMade);
    }
    header_numbers::serialize(&WIDTHS, &numbers_of(header), out, at)
}

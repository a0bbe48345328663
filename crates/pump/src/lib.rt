// The library for a host: the proved functions under plain C names, in the order of include/lobzhinar.h. Its
// inline functions stand between these and a C program, and the binding between these and a Rust program: they
// keep together what belongs together, and give each trust class and each unit a type. What becomes a number
// here, and how, is in the crates host and host_... A slice is a pointer and a length, a table a pointer.
#![tactic(auto)]

ghost use Rattle.std.specs.Prelude.{◌≡◌, length, Some};
ghost use Rattle.std.specs.Int.{w8};
ghost use Rattle.std.proofs.Common.{to_z};
ghost use Rattle.read_opening.specs.Meant.{lent_of};
ghost use Rattle.write_list.specs.Meant.{described_of};
ghost use Rattle.mac.specs.Meant.{mac_read, mac_body, mac_write};
ghost use Rattle.journal.specs.Meant.{stored, store_at, append_store, recovery_store};
ghost use Rattle.journal.specs.Model.{found_in, entry_in, start_in, append_in, recover_in};
ghost use Rattle.journal_body.specs.Meant.{counts_write};
ghost use Rattle.header_v5.specs.Meant.{header_read};
ghost use Rattle.header_v3v4.specs.Meant.{header_read as header_v3v4_read, header_write as header_v3v4_write};
ghost use Rattle.time_reading.specs.Meant.{reading_of};
ghost use Rattle.field_reference_ids.specs.MeantRequest.{request_new, request_read, request_write};
ghost use Rattle.field_reference_ids.specs.MeantResponse.{response_new, response_cut, response_write};
ghost use Rattle.host.specs.Meant.{leaving, leaving_both, of_write};
ghost use Rattle.host_packets.specs.Meant.{read_across, survey_across, seal_across};
ghost use Rattle.judge_table.specs.Meant.{offsets_in, wire_lengths_in};
ghost use Rattle.host_cuts.specs.Meant.{cut_across};
ghost use Rattle.host_fields.specs.Meant.{authenticated_across, untrusted_across, encrypted_across};
ghost use Rattle.host_writes.specs.Meant.{stage_one_across, stage_two_across};
ghost use Rattle.host_mac.specs.Meant.{mac_row};
ghost use Rattle.host_journal.specs.Meant.{found_row, start_row, store_row, entry_row, of_recovery, of_append};
ghost use Rattle.host_reference_ids.specs.Meant.{request_row, response_row};
ghost use Rattle.host_header.specs.Meant.{header_row, header_across};
ghost use Rattle.host_header_v3v4.specs.Meant.{header_row as header_v3v4_row};

use header_codes::PollInterval;
use header_v3v4::{LeapBits, NtpHeaderV3V4, ReferenceId};
use header_v5::{NtpClientCookie, NtpServerCookie};
use host::NtpLength;
use host_fields::{NtpAuthenticatedField, NtpEncryptedField, NtpUntrustedField};
use host_header::{NtpHeader, NtpHeaderRead};
use host_header_v3v4::NtpHeaderV3V4Read;
use host_journal::{NtpJournalEntry, NtpJournalFound, NtpJournalStart, NtpJournalStore};
use host_mac::NtpMac;
use host_packets::{NtpRead, NtpSeal, NtpSurvey};
use host_reference_ids::NtpRequest;
use host_writes::NtpStageOne;
use judge_table::Cut;
use read_entries::Table;
use read_opening::LentResults;
use time_reading::TimeReading;
use time_units::{NtpShort, NtpTimestamp, Time32};
use write_list::FieldsToWrite;

// The number of this interface, in the name too, which the C header and the binding refer to.
#[unsafe(no_mangle)]
pub extern "C" fn ntp_interface_2() -> u32
    ensures { result ≡ 2 }
{
    2
}

// A function that takes a table has its capacity in its name. So a host that was built for tables of another size does
// not link, even if its linker has dropped the reference to the function above.
#[unsafe(no_mangle)]
pub extern "C" fn ntp_raw_survey_128(
    packet: &[u8],
    header_size: usize,
    version: u8,
    seals: &mut Table,
) -> NtpSurvey
    ensures { leaving result seals.new ≡ survey_across packet.now header_size version seals.old }
{
    host_packets::survey(packet, header_size, version, seals)
}

#[unsafe(no_mangle)]
pub extern "C" fn ntp_raw_seal_128(
    packet_len: usize,
    seals: &Table,
    seal_count: usize,
    index: usize,
) -> NtpSeal
    ensures { result ≡ seal_across packet_len seals.now seal_count index }
{
    host_packets::seal(packet_len, seals, seal_count, index)
}

#[unsafe(no_mangle)]
pub extern "C" fn ntp_raw_read_128(
    packet: &[u8],
    header_size: usize,
    version: u8,
    verdicts: &[u8],
    plaintext_starts: &[usize],
    plaintext_lens: &[usize],
    plaintexts: &[u8],
    outer: &mut Table,
    used_outer: usize,
    inner: &mut Table,
    used_inner: usize,
) -> NtpRead
    ensures { leaving_both result outer.new inner.new ≡ read_across packet.now header_size version (lent_of verdicts.now plaintext_starts.now plaintext_lens.now plaintexts.now) outer.old used_outer inner.old used_inner }
{
    host_packets::read(
        packet,
        header_size,
        version,
        &LentResults {
            verdicts,
            starts: plaintext_starts,
            lens: plaintext_lens,
            plain: plaintexts,
        },
        outer,
        used_outer,
        inner,
        used_inner,
    )
}

#[unsafe(no_mangle)]
pub extern "C" fn ntp_raw_authenticated_field_128(
    packet_len: usize,
    version: u8,
    outer: &Table,
    authenticated_count: usize,
    index: usize,
) -> NtpAuthenticatedField
    ensures { result ≡ authenticated_across packet_len version outer.now authenticated_count index }
{
    host_fields::authenticated_field(packet_len, version, outer, authenticated_count, index)
}

#[unsafe(no_mangle)]
pub extern "C" fn ntp_raw_untrusted_field_128(
    packet_len: usize,
    version: u8,
    outer: &Table,
    authenticated_count: usize,
    untrusted_count: usize,
    index: usize,
) -> NtpUntrustedField
    ensures { result ≡ untrusted_across packet_len version outer.now authenticated_count untrusted_count index }
{
    host_fields::untrusted_field(
        packet_len,
        version,
        outer,
        authenticated_count,
        untrusted_count,
        index,
    )
}

#[unsafe(no_mangle)]
pub extern "C" fn ntp_raw_encrypted_field_128(
    plaintexts_len: usize,
    plaintext_starts: &[usize],
    version: u8,
    inner: &Table,
    encrypted_count: usize,
    index: usize,
) -> NtpEncryptedField
    ensures { result ≡ encrypted_across plaintexts_len plaintext_starts.now version inner.now encrypted_count index }
{
    host_fields::encrypted_field(
        plaintexts_len,
        plaintext_starts,
        version,
        inner,
        encrypted_count,
        index,
    )
}

#[unsafe(no_mangle)]
pub extern "C" fn ntp_raw_is_cut(
    packet: &[u8],
    header_size: usize,
    version: u8,
    field_offsets: &[usize],
    wire_lengths: &[usize],
) -> bool
    ensures { result ≡ cut_across packet.now header_size version field_offsets.now wire_lengths.now }
{
    host_cuts::is_cut(packet, header_size, version, field_offsets, wire_lengths)
}

#[unsafe(no_mangle)]
pub extern "C" fn ntp_raw_is_cut_table<'a>(
    packet: &'a [u8],
    header_size: usize,
    version: u8,
    cuts: &'a [Cut],
) -> bool
    ensures { result ≡ cut_across packet.now header_size version (offsets_in cuts.now) (wire_lengths_in cuts.now) }
{
    host_cuts::is_cut_table(packet, header_size, version, cuts)
}

#[unsafe(no_mangle)]
pub extern "C" fn ntp_raw_stage_one(
    out: &mut [u8],
    at: usize,
    plaintext: &mut [u8],
    kinds: &[u8],
    numbers: &[u16],
    starts: &[usize],
    lens: &[usize],
    data: &[u8],
    version: u8,
    has_cipher: u8,
    authenticated_count: usize,
    encrypted_count: usize,
) -> NtpStageOne
    ensures { leaving_both result out.new plaintext.new ≡ stage_one_across (described_of kinds.now numbers.now starts.now lens.now «data».now) version has_cipher authenticated_count encrypted_count out.old at plaintext.old }
{
    host_writes::stage_one(
        out,
        at,
        plaintext,
        &FieldsToWrite {
            kinds,
            numbers,
            starts,
            lens,
            data,
        },
        version,
        has_cipher,
        authenticated_count,
        encrypted_count,
    )
}

#[unsafe(no_mangle)]
pub extern "C" fn ntp_raw_stage_two(
    out: &mut [u8],
    at: usize,
    owes_seal: usize,
    nonce: &[u8],
    ciphertext: &[u8],
    kinds: &[u8],
    numbers: &[u16],
    starts: &[usize],
    lens: &[usize],
    data: &[u8],
    version: u8,
    untrusted_count: usize,
) -> NtpLength
    ensures { leaving result out.new ≡ stage_two_across (described_of kinds.now numbers.now starts.now lens.now «data».now) version owes_seal nonce.now ciphertext.now untrusted_count out.old at }
{
    host_writes::stage_two(
        out,
        at,
        owes_seal,
        nonce,
        ciphertext,
        &FieldsToWrite {
            kinds,
            numbers,
            starts,
            lens,
            data,
        },
        version,
        untrusted_count,
    )
}

#[unsafe(no_mangle)]
pub extern "C" fn ntp_raw_mac_read(data: &[u8]) -> NtpMac
    ensures { result ≡ mac_row (mac_read «data».now) (length (mac_body «data».now)) }
{
    host_mac::read(data)
}

#[unsafe(no_mangle)]
pub extern "C" fn ntp_raw_mac_write(keyid: u32, body: &[u8], out: &mut [u8], at: usize) -> NtpLength
    ensures { leaving result out.new ≡ of_write (mac_write keyid body.now out.old at) }
{
    host_mac::write(keyid, body, out, at)
}

#[unsafe(no_mangle)]
pub extern "C" fn ntp_raw_journal_find(image: &[u8]) -> NtpJournalFound
    ensures { result ≡ found_row (found_in image.now) }
{
    host_journal::find(image)
}

#[unsafe(no_mangle)]
pub extern "C" fn ntp_raw_journal_recovery_store(
    next_offset: usize,
    torn_len: usize,
    index: usize,
) -> NtpJournalStore
    ensures { result ≡ store_row (recovery_store next_offset torn_len index) }
{
    host_journal::recovery_store(next_offset, torn_len, index)
}

#[unsafe(no_mangle)]
pub extern "C" fn ntp_raw_journal_recover(image: &mut [u8]) -> NtpJournalFound
    ensures { leaving result image.new ≡ of_recovery (recover_in image.old) }
{
    host_journal::recover(image)
}

#[unsafe(no_mangle)]
pub extern "C" fn ntp_raw_journal_start(image: &[u8], kind: u16, body: &[u8]) -> NtpJournalStart
    ensures { result ≡ start_row (start_in image.now kind body.now) }
{
    host_journal::start_append(image, kind, body)
}

#[unsafe(no_mangle)]
pub extern "C" fn ntp_raw_journal_append_store(
    entry_offset: usize,
    kind: u16,
    body: &[u8],
    index: usize,
) -> NtpJournalStore
    ensures { result ≡ store_row (append_store entry_offset kind body.now index) }
{
    host_journal::append_store(entry_offset, kind, body, index)
}

#[unsafe(no_mangle)]
pub extern "C" fn ntp_raw_journal_append(
    image: &mut [u8],
    kind: u16,
    body: &[u8],
) -> NtpJournalStart
    ensures { leaving result image.new ≡ of_append (append_in image.old kind body.now) }
{
    host_journal::append(image, kind, body)
}

#[unsafe(no_mangle)]
pub extern "C" fn ntp_raw_journal_store(image: &mut [u8], offset: usize, byte: u8)
    ensures { image.new ≡ stored image.old (Some (store_at offset byte)) }
{
    host_journal::store_one(image, offset, byte);
}

#[unsafe(no_mangle)]
pub extern "C" fn ntp_raw_journal_entry(image: &[u8], index: usize) -> NtpJournalEntry
    ensures { result ≡ entry_row (entry_in image.now index) }
{
    host_journal::entry(image, index)
}

#[unsafe(no_mangle)]
pub extern "C" fn ntp_raw_journal_read_body(
    number: usize,
    authenticated_count: usize,
    untrusted_count: usize,
    encrypted_count: usize,
    out: &mut [u8],
    at: usize,
) -> NtpLength
    ensures { leaving result out.new ≡ of_write (counts_write number authenticated_count untrusted_count encrypted_count out.old at) }
{
    host_journal::read_body(
        number,
        authenticated_count,
        untrusted_count,
        encrypted_count,
        out,
        at,
    )
}

#[unsafe(no_mangle)]
pub extern "C" fn ntp_raw_header_read(data: &[u8]) -> NtpHeaderRead
    ensures { result ≡ header_row (header_read «data».now) }
{
    host_header::read(data)
}

// The parts of a header one by one: a large struct would not cross by value in one way on all machines.
#[unsafe(no_mangle)]
pub extern "C" fn ntp_raw_header_write(
    leap: u8,
    mode: u8,
    stratum: u8,
    poll: PollInterval,
    precision_log2_seconds: i8,
    timescale: u8,
    era: u8,
    flags: u8,
    root_delay: Time32,
    root_dispersion: Time32,
    server_cookie: NtpServerCookie,
    client_cookie: NtpClientCookie,
    receive_timestamp: NtpTimestamp,
    transmit_timestamp: NtpTimestamp,
    out: &mut [u8],
    at: usize,
) -> NtpLength
    ensures { leaving result out.new ≡ header_across (record { leap = leap; mode = mode; stratum = stratum; poll = poll; precision_log2_seconds = precision_log2_seconds; timescale = timescale; era = era; flags = flags; root_delay = root_delay; root_dispersion = root_dispersion; server_cookie = server_cookie; client_cookie = client_cookie; receive_timestamp = receive_timestamp; transmit_timestamp = transmit_timestamp }) out.old at }
{
    let header = NtpHeader {
        leap,
        mode,
        stratum,
        poll,
        precision_log2_seconds,
        timescale,
        era,
        flags,
        root_delay,
        root_dispersion,
        server_cookie,
        client_cookie,
        receive_timestamp,
        transmit_timestamp,
    };
    host_header::write(header, out, at)
}

#[unsafe(no_mangle)]
pub extern "C" fn ntp_poll_log2_seconds(poll: PollInterval) -> i8
    ensures { result ≡ to_z w8 poll.0 }
{
    poll.as_log2_seconds()
}

#[unsafe(no_mangle)]
pub extern "C" fn ntp_raw_reading(root_delay: Time32, root_dispersion: Time32) -> TimeReading
    ensures { result ≡ reading_of 28 root_delay.0 root_dispersion.0 }
{
    time_reading::time_reading(root_delay, root_dispersion)
}

#[unsafe(no_mangle)]
pub extern "C" fn ntp_raw_header_v3v4_read(data: &[u8]) -> NtpHeaderV3V4Read
    ensures { result ≡ header_v3v4_row (header_v3v4_read «data».now) }
{
    host_header_v3v4::read(data)
}

// In this order no struct is the seventh or eighth argument: Arm has registers for those two, and x86-64 has none.
#[unsafe(no_mangle)]
pub extern "C" fn ntp_raw_header_v3v4_write(
    leap: LeapBits,
    version: u8,
    mode: u8,
    poll: PollInterval,
    root_delay: NtpShort,
    root_dispersion: NtpShort,
    stratum: u8,
    precision_log2_seconds: i8,
    reference_id: ReferenceId,
    reference_timestamp: NtpTimestamp,
    origin_timestamp: NtpTimestamp,
    receive_timestamp: NtpTimestamp,
    transmit_timestamp: NtpTimestamp,
    out: &mut [u8],
    at: usize,
) -> NtpLength
    ensures { leaving result out.new ≡ of_write (header_v3v4_write (record { leap = leap; version = version; mode = mode; stratum = stratum; poll = poll; precision_log2_seconds = precision_log2_seconds; root_delay = root_delay; root_dispersion = root_dispersion; reference_id = reference_id; reference_timestamp = reference_timestamp; origin_timestamp = origin_timestamp; receive_timestamp = receive_timestamp; transmit_timestamp = transmit_timestamp }) out.old at) }
{
    let header = NtpHeaderV3V4 {
        leap,
        version,
        mode,
        stratum,
        poll,
        precision_log2_seconds,
        root_delay,
        root_dispersion,
        reference_id,
        reference_timestamp,
        origin_timestamp,
        receive_timestamp,
        transmit_timestamp,
    };
    host_header_v3v4::write(header, out, at)
}

#[unsafe(no_mangle)]
pub extern "C" fn ntp_raw_reading_v3v4(
    root_delay: NtpShort,
    root_dispersion: NtpShort,
) -> TimeReading
    ensures { result ≡ reading_of 16 root_delay.0 root_dispersion.0 }
{
    time_reading::time_reading_v3v4(root_delay, root_dispersion)
}

#[unsafe(no_mangle)]
pub extern "C" fn ntp_raw_request_new(payload_len: u16, filter_offset: u16) -> NtpRequest
    ensures { result ≡ request_row (request_new payload_len filter_offset) }
{
    host_reference_ids::request_new(payload_len, filter_offset)
}

#[unsafe(no_mangle)]
pub extern "C" fn ntp_raw_request_read(message: &[u8]) -> NtpRequest
    ensures { result ≡ request_row (request_read message.now) }
{
    host_reference_ids::request_read(message)
}

#[unsafe(no_mangle)]
pub extern "C" fn ntp_raw_request_write(
    payload_len: u16,
    filter_offset: u16,
    out: &mut [u8],
    at: usize,
) -> NtpLength
    ensures { leaving result out.new ≡ of_write (request_write payload_len filter_offset out.old at) }
{
    host_reference_ids::request_write(payload_len, filter_offset, out, at)
}

#[unsafe(no_mangle)]
pub extern "C" fn ntp_raw_response_new(bytes: &[u8]) -> NtpLength
    ensures { result ≡ response_row (response_new bytes.now) }
{
    host_reference_ids::response_new(bytes)
}

#[unsafe(no_mangle)]
pub extern "C" fn ntp_raw_response_cut(
    payload_len: u16,
    filter_offset: u16,
    filter: &[u8],
) -> NtpLength
    ensures { result ≡ response_row (response_cut payload_len filter_offset filter.now) }
{
    host_reference_ids::response_cut(payload_len, filter_offset, filter)
}

#[unsafe(no_mangle)]
pub extern "C" fn ntp_raw_response_write(bytes: &[u8], out: &mut [u8], at: usize) -> NtpLength
    ensures { leaving result out.new ≡ of_write (response_write bytes.now out.old at) }
{
    host_reference_ids::response_write(bytes, out, at)
}

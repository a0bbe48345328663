// What a packet holds: its sealed fields, and its fields once the host has opened those.
#![tactic(auto)]

ghost use Rattle.std.specs.Prelude.{◌≡◌};
ghost use Rattle.read_opening.specs.Meant.{lent_in};
ghost use Rattle.read_packet.specs.declared.Read.TheVariants.{Refused};
ghost use Rattle.host.specs.Meant.{leaving, leaving_both};
ghost use Rattle.host_packets.specs.Meant.{has_cookie_of, cookie_number, lists_row, read_row, read_across, survey_row, survey_across, no_seal, seal_row, seal_across};

use base_answers::Refusal;
use read_entries::{CAPACITY, Table};
use read_opening::LentResults;
use read_packet::Read;
use read_survey::{Seal, SurveyFault};

// What reading tells. `number` is 0 or that of a refusal. The counts and the remainder come with 0 and
// 5, the cookie with 0, the offset with other refusals; what does not come is 0.
#[repr(C)]
#[derive(Clone, Copy)]
pub struct NtpRead {
    pub number: usize,
    // Where the outer field at fault starts in the packet.
    pub field_offset: usize,
    pub authenticated_count: usize,
    pub untrusted_count: usize,
    pub encrypted_count: usize,
    // So many bytes at the packet's end.
    pub remainder_len: usize,
    // 1 if the last opening came by a server cookie, and the number of that sealed field.
    pub has_cookie: usize,
    pub cookie_seal: usize,
}

fn has_cookie(by: Option<usize>) -> usize
    ensures { result ≡ has_cookie_of by }
{
    usize::from(by.is_some())
}

fn cookie_number(by: Option<usize>) -> usize
    ensures { result ≡ cookie_number by }
{
    by.unwrap_or(0)
}

// An answer with lists in numbers.
fn lists_row(
    number: usize,
    authenticated_count: usize,
    untrusted_count: usize,
    encrypted_count: usize,
    remainder_len: usize,
    by: Option<usize>,
) -> NtpRead
    ensures { result ≡ lists_row number authenticated_count untrusted_count encrypted_count remainder_len by }
{
    NtpRead {
        number,
        field_offset: 0,
        authenticated_count,
        untrusted_count,
        encrypted_count,
        remainder_len,
        has_cookie: has_cookie(by),
        cookie_seal: cookie_number(by),
    }
}

// A refusal other than 5 in numbers.
fn refused_row(refusal: Refusal, field_offset: usize) -> NtpRead
    ensures { result ≡ read_row (Refused refusal field_offset) }
{
    NtpRead {
        number: host::number_of(refusal),
        field_offset,
        authenticated_count: 0,
        untrusted_count: 0,
        encrypted_count: 0,
        remainder_len: 0,
        has_cookie: 0,
        cookie_seal: 0,
    }
}

// An answer in numbers.
fn read_row(answer: Read) -> NtpRead
    ensures { result ≡ read_row answer }
{
    match answer {
        Read::Refused {
            refusal,
            field_offset,
        } => refused_row(refusal, field_offset),
        Read::DecryptError {
            authenticated_count,
            untrusted_count,
            encrypted_count,
            remainder_len,
        } => {
            let number = host::number_of(Refusal::DecryptError);
            lists_row(
                number,
                authenticated_count,
                untrusted_count,
                encrypted_count,
                remainder_len,
                None,
            )
        }
        Read::Accepted {
            authenticated_count,
            untrusted_count,
            encrypted_count,
            remainder_len,
            cookie,
        } => lists_row(
            0,
            authenticated_count,
            untrusted_count,
            encrypted_count,
            remainder_len,
            cookie,
        ),
    }
}

// Reads a packet (`read_packet::deserialize_over`). `used_outer` and `used_inner` are how many entries of the
// tables may be in use: the counts that the last call told, or the capacity for tables that may hold
// anything. A version other than 4 and 5 is refused with 11.
pub fn read(
    packet: &[u8],
    header_size: usize,
    version: u8,
    lent: &LentResults,
    outer: &mut Table,
    used_outer: usize,
    inner: &mut Table,
    used_inner: usize,
) -> NtpRead
    ensures { leaving_both result outer.new inner.new ≡ read_across packet.now header_size version (lent_in lent.now) outer.old used_outer inner.old used_inner }
{
    let Some(version) = host::version_of(version) else {
        read_entries::blank(outer, 0, used_outer);
        read_entries::blank(inner, 0, used_inner);
        return read_row(Read::Refused {
            refusal: Refusal::InvalidVersion,
            field_offset: 0,
        });
    };
    read_row(read_packet::deserialize_over(
        packet,
        header_size,
        version,
        lent,
        outer,
        used_outer,
        inner,
        used_inner,
    ))
}

// What a survey tells: 0 or the number of a refusal, the packet offset of the field at fault, and how many
// entries the table has.
#[repr(C)]
#[derive(Clone, Copy)]
pub struct NtpSurvey {
    pub number: usize,
    pub field_offset: usize,
    pub seal_count: usize,
}

fn survey_row(answer: Result<usize, SurveyFault>) -> NtpSurvey
    ensures { result ≡ survey_row answer }
{
    match answer {
        Ok(seal_count) => NtpSurvey {
            number: 0,
            field_offset: 0,
            seal_count,
        },
        Err(fault) => NtpSurvey {
            number: host::number_of(fault.refusal),
            field_offset: fault.field_offset,
            seal_count: fault.seal_count,
        },
    }
}

// Lists the sealed fields of a packet (`read_survey::survey`). The table's entries are for `seal`; those past the
// count are 0.
pub fn survey(packet: &[u8], header_size: usize, version: u8, table: &mut Table) -> NtpSurvey
    ensures { leaving result table.new ≡ survey_across packet.now header_size version table.old }
{
    let Some(version) = host::version_of(version) else {
        read_entries::blank(table, 0, CAPACITY);
        return survey_row(Err(SurveyFault {
            refusal: Refusal::InvalidVersion,
            field_offset: 0,
            seal_count: 0,
        }));
    };
    survey_row(read_survey::survey(packet, header_size, version, table))
}

// A surveyed field in numbers: what the host opens, and over which bytes. All offsets are of the packet, and the
// associated data are its first bytes. `number` is 0, or 18 if there is no such field.
#[repr(C)]
#[derive(Clone, Copy)]
pub struct NtpSeal {
    pub number: usize,
    pub nonce_offset: usize,
    pub nonce_len: usize,
    pub ciphertext_offset: usize,
    pub ciphertext_len: usize,
    pub associated_data_len: usize,
}

fn no_seal() -> NtpSeal
    ensures { result ≡ no_seal }
{
    NtpSeal {
        number: host::number_of(Refusal::CannotBeMade),
        nonce_offset: 0,
        nonce_len: 0,
        ciphertext_offset: 0,
        ciphertext_len: 0,
        associated_data_len: 0,
    }
}

// 18 also where the ciphertext, which comes last, does not lie inside the packet: no table that a survey of it
// has left can cause that.
fn seal_row(seal: Seal, packet_len: usize) -> NtpSeal
    ensures { result ≡ seal_row packet_len seal }
{
    if !base_sizes::is_inside(seal.ciphertext_offset, seal.ciphertext_len, packet_len) {
        return no_seal();
    }
    NtpSeal {
        number: 0,
        nonce_offset: seal.nonce_offset,
        nonce_len: seal.nonce_len,
        ciphertext_offset: seal.ciphertext_offset,
        ciphertext_len: seal.ciphertext_len,
        associated_data_len: seal.associated_data_len,
    }
}

// Sealed field number `index`, from 0 on, of a survey.
pub fn seal(packet_len: usize, table: &Table, seal_count: usize, index: usize) -> NtpSeal
    ensures { result ≡ seal_across packet_len table.now seal_count index }
{
    match read_entries::entry_number(table, 0, seal_count, index) {
        None => no_seal(),
        Some(entry) => seal_row(read_survey::seal_of(entry), packet_len),
    }
}

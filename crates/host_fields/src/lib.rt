// The fields that were read, by trust and number (rules 9, 11 and 20). A host asks for the i-th authenticated,
// untrusted or encrypted field, by the counts that reading returned, and says nothing about trust itself: the
// three come back as three types. A slice can't be a result here, so a message comes back as a place.
#![tactic(auto)]

ghost use Rattle.std.specs.Prelude.{◌≡◌};
ghost use Rattle.host_fields.specs.Meant.{kind_number, no_field, field_row, asked_of, outer_field, inner_field, authenticated_across, untrusted_across, encrypted_across};

use base_answers::Refusal;
use base_version::Version;
use field_kinds::Kind;
use read_entries::Table;
use read_records::{Record, Trust};

// The numbers of fields to write, where a kind can be written (docs/DECISIONS.md).
fn kind_number(kind: Kind) -> usize
    ensures { result ≡ kind_number kind }
{
    match kind {
        Kind::Unknown => 0,
        Kind::UniqueIdentifier => 1,
        Kind::NtsCookie => 2,
        Kind::NtsCookiePlaceholder => 3,
        Kind::DraftIdentification => 4,
        Kind::ReferenceIdRequest => 6,
        Kind::ReferenceIdResponse => 7,
        Kind::InvalidNtsEncryptedField => 8,
        Kind::NtsEncryptedField => 9,
    }
}

// A field (rules 11) in numbers. `number` is 0 or the refusal; what does not come is 0. Offsets count from the
// start of the packet or, for an encrypted field, of the buffer of all plaintexts.
#[repr(C)]
#[derive(Clone, Copy)]
pub struct NtpField {
    pub number: usize,
    pub kind: usize,
    pub type_id: usize,
    pub field_offset: usize,
    pub wire_length: usize,
    pub message_offset: usize,
    pub message_len: usize,
}

#[repr(C)]
#[derive(Clone, Copy)]
pub struct NtpAuthenticatedField {
    pub field: NtpField,
}

#[repr(C)]
#[derive(Clone, Copy)]
pub struct NtpUntrustedField {
    pub field: NtpField,
}

#[repr(C)]
#[derive(Clone, Copy)]
pub struct NtpEncryptedField {
    pub field: NtpField,
}

fn no_field(refusal: Refusal) -> NtpField
    ensures { result ≡ no_field refusal }
{
    NtpField {
        number: host::number_of(refusal),
        kind: 0,
        type_id: 0,
        field_offset: 0,
        wire_length: 0,
        message_offset: 0,
        message_len: 0,
    }
}

// The field of a record in a buffer of `available` bytes; 18 if its message does not lie inside, which no
// table that reading has left can cause.
#[tactic(auto, unfolding(crate::specs::Meant::field_row))]
fn field_row(field: Record, available: usize) -> NtpField
    ensures { result ≡ field_row available field }
{
    let kind = field.kind;
    let type_id = field.type_id as usize;
    let field_offset = field.field_offset;
    let message_len = field.message_len;
    if !read_records::is_message_inside(available, field_offset, message_len) {
        return no_field(Refusal::CannotBeMade);
    }
    let message_offset = field_offset + 4;
    NtpField {
        number: 0,
        kind: kind_number(kind),
        type_id,
        field_offset,
        wire_length: field.wire_length,
        message_offset,
        message_len,
    }
}

// An entry that a host asked for, with the version by which it is read.
#[derive(Clone, Copy)]
struct Asked {
    entry: u64,
    version: Version,
}

#[tactic(auto, unfolding(crate::specs::Meant::asked_of))]
fn ask(slot: Option<u64>, version: u8) -> Result<Asked, Refusal>
    ensures { result ≡ asked_of slot version }
{
    let version = host::version_of(version).ok_or(Refusal::InvalidVersion)?;
    let entry = slot.ok_or(Refusal::CannotBeMade)?;
    Ok(Asked { entry, version })
}

fn outer_field(asked: Result<Asked, Refusal>, trust: Trust, packet_len: usize) -> NtpField
    ensures { result ≡ outer_field asked trust packet_len }
{
    match asked {
        Ok(asked) => {
            field_row(
                read_records::outer_record(asked.entry, asked.version, trust),
                packet_len,
            )
        }
        Err(refusal) => no_field(refusal),
    }
}

// Authenticated field number `index`, from 0 on, of a packet that was read.
#[tactic(auto, unfolding(crate::specs::Meant::authenticated_across))]
pub fn authenticated_field(
    packet_len: usize,
    version: u8,
    outer: &Table,
    authenticated_count: usize,
    index: usize,
) -> NtpAuthenticatedField
    ensures { result ≡ authenticated_across packet_len version outer.now authenticated_count index }
{
    let slot = read_entries::entry_number(outer, 0, authenticated_count, index);
    let field = outer_field(ask(slot, version), Trust::Authenticated, packet_len);
    NtpAuthenticatedField { field }
}

// Untrusted field number `index`, from 0 on, of a packet that was read.
#[tactic(auto, unfolding(crate::specs::Meant::untrusted_across))]
pub fn untrusted_field(
    packet_len: usize,
    version: u8,
    outer: &Table,
    authenticated_count: usize,
    untrusted_count: usize,
    index: usize,
) -> NtpUntrustedField
    ensures { result ≡ untrusted_across packet_len version outer.now authenticated_count untrusted_count index }
{
    let slot = read_entries::entry_number(outer, authenticated_count, untrusted_count, index);
    let field = outer_field(ask(slot, version), Trust::Untrusted, packet_len);
    NtpUntrustedField { field }
}

fn inner_field(asked: Result<Asked, Refusal>, starts: &[usize], plaintexts_len: usize) -> NtpField
    ensures { result ≡ inner_field asked starts.now plaintexts_len }
{
    match asked {
        Ok(asked) => {
            field_row(
                read_records::inner_record(asked.entry, asked.version, starts),
                plaintexts_len,
            )
        }
        Err(refusal) => no_field(refusal),
    }
}

// Encrypted field number `index`, from 0 on, of a packet that was read. `starts` are the starts of the
// plaintexts that were passed to the reader.
#[tactic(auto, unfolding(crate::specs::Meant::encrypted_across))]
pub fn encrypted_field(
    plaintexts_len: usize,
    starts: &[usize],
    version: u8,
    inner: &Table,
    encrypted_count: usize,
    index: usize,
) -> NtpEncryptedField
    ensures { result ≡ encrypted_across plaintexts_len starts.now version inner.now encrypted_count index }
{
    let slot = read_entries::entry_number(inner, 0, encrypted_count, index);
    let field = inner_field(ask(slot, version), starts, plaintexts_len);
    NtpEncryptedField { field }
}

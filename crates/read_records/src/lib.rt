// Field records: what is reported of a field (rules 11), from an entry of a table, and the field's bytes as a
// part of the packet or of the plaintext (the Cows of EF ExtensionField).
#![tactic(auto)]

ghost use Rattle.std.specs.Prelude.{◌≡◌, length};
ghost use Rattle.field_reference_ids.specs.MeantRequest.{told_of};
ghost use Rattle.read_records.specs.Model.{item_kind, outer_record, inner_record, plaintext_start};
ghost use Rattle.read_records.specs.Model.{part_of, message_of};
ghost use Rattle.read_records.specs.Meant.{source_of, place_told, lies, place_of};
ghost use Rattle.read_records.specs.MeantRequest.{request_of};

use base_answers::Refusal;
use base_version::Version;
use field_contents::Rule;
use field_kinds::Kind;
use field_reference_ids::request;
use field_reference_ids::request::ReferenceIdRequest;

#[derive(Clone, Copy)]
pub enum Trust {
    Untrusted,
    Authenticated,
    Encrypted,
}

#[derive(Clone, Copy)]
pub struct Record {
    pub kind: Kind,
    pub type_id: u16,
    // Of the field's header, from the start of the packet or, if encrypted, of the lent plaintext buffer.
    pub field_offset: usize,
    pub message_len: usize,
    // Of the whole field with its padding.
    pub wire_length: usize,
    pub trust: Trust,
}

// A sealed field in a list was not opened.
fn item_kind(kind: Kind) -> Kind
    ensures { result ≡ item_kind kind }
{
    match kind {
        Kind::NtsEncryptedField => Kind::InvalidNtsEncryptedField,
        other => other,
    }
}

// The record of an entry of the outer table. Items below the count of authenticated ones are
// authenticated, those after them untrusted.
#[tactic(auto, unfolding(crate::specs::Model::outer_record))]
pub fn outer_record(entry: u64, version: Version, trust: Trust) -> Record
    ensures { result ≡ outer_record entry version trust }
{
    let e = read_entries::unpack(entry);
    let kind = item_kind(field_kinds::from_type_id(e.second, version));
    let field_offset = e.third as usize;
    let message_len = e.first as usize;
    let wire_length = base_rounding::next_multiple_of_four(e.first) + 4;
    Record {
        kind,
        type_id: e.second,
        field_offset,
        message_len,
        wire_length,
        trust,
    }
}

fn start_of(starts: &[usize], seal: u16) -> usize
    ensures { result ≡ plaintext_start starts.now seal }
{
    starts.get(seal as usize).copied().unwrap_or(0)
}

// The record of an entry of the inner table. `starts` are the starts of plaintexts that were lent to the
// reader.
#[tactic(auto, unfolding(crate::specs::Model::inner_record))]
pub fn inner_record(entry: u64, version: Version, starts: &[usize]) -> Record
    ensures { result ≡ inner_record entry version starts.now }
{
    let e = read_entries::unpack(entry);
    let kind = field_kinds::from_type_id(e.second, version);
    let start = start_of(starts, e.fourth);
    let field_offset = start.wrapping_add(e.third as usize);
    let message_len = e.first as usize;
    let wire_length = base_rounding::next_multiple_of_four(e.first) + 4;
    Record {
        kind,
        type_id: e.second,
        field_offset,
        message_len,
        wire_length,
        trust: Trust::Encrypted,
    }
}

// Whether the `n` bytes after the four from `at` on lie inside.
pub fn is_message_inside(len: usize, at: usize, n: usize) -> bool
    ensures { result ≡ lies len at n }
{
    if len < 4 {
        return false;
    }
    base_sizes::is_inside(at, n, len - 4)
}

// Those bytes, and none where they do not lie inside.
#[tactic(auto, unfolding(crate::specs::Model::part_of))]
fn part<'a>(s: &'a [u8], at: usize, n: usize) -> &'a [u8]
    ensures { result.now ≡ part_of s.now at n }
{
    if is_message_inside(s.len(), at, n) {
        let from = at + 4;
        let end = from + n;
        &s[from..end]
    } else {
        &s[..0]
    }
}

// Where the field of a trust class lies: in the packet or in the plaintext.
fn source_of<'a>(packet: &'a [u8], plain: &'a [u8], trust: Trust) -> &'a [u8]
    ensures { result.now ≡ source_of trust packet.now plain.now }
{
    match trust {
        Trust::Untrusted | Trust::Authenticated => packet,
        Trust::Encrypted => plain,
    }
}

// The message of a field: a part of the packet or of the plaintext, as its trust class says.
#[tactic(auto, unfolding(crate::specs::Model::message_of))]
pub fn message_bytes<'a>(packet: &'a [u8], plain: &'a [u8], field: Record) -> &'a [u8]
    ensures { result.now ≡ message_of packet.now plain.now field }
{
    let bytes = source_of(packet, plain, field.trust);
    part(bytes, field.field_offset, field.message_len)
}

// Whether the message of a field lies inside: the check apart from `message_bytes`.
#[tactic(auto, unfolding(crate::specs::Meant::place_of))]
pub fn message_place(packet: &[u8], plain: &[u8], field: Record) -> Result<(), Refusal>
    ensures { place_told result ≡ place_of (source_of field.trust packet.now plain.now) field.field_offset field.message_len }
{
    let source = source_of(packet, plain, field.trust);
    if is_message_inside(source.len(), field.field_offset, field.message_len) {
        Ok(())
    } else {
        Err(Refusal::CannotBeMade)
    }
}

// The payload length and offset of a reference id request, which its record does not hold.
#[tactic(auto, unfolding(crate::specs::MeantRequest::request_of))]
pub fn request_of<'a>(
    packet: &'a [u8],
    plain: &'a [u8],
    field: Record,
) -> Result<ReferenceIdRequest, Refusal>
    ensures { told_of result ≡ told_of (request_of packet.now plain.now field) }
{
    match field_contents::rule_of(field.kind) {
        Rule::Offset => request::decode(message_bytes(packet, plain, field)),
        Rule::Any | Rule::Zeros | Rule::Ascii | Rule::Sealed => Err(Refusal::CannotBeMade),
    }
}

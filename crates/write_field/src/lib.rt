// One field to write, of every kind (EF ExtensionField::serialize and its encode_.. functions): first a
// plan of it, or why it can't be written, and then its bytes.
#![tactic(auto)]

ghost use Rattle.std.specs.Prelude.{◌≡◌, ◌≤◌};
ghost use Rattle.base_store.specs.Model.{stored};
ghost use Rattle.write_field.specs.Meant.{to_write_of, most_data, minimum_of, stated_of, framed_plan, lent_plan, draft_plan, padding_plan, request_plan, response_plan, plan_of, wire_length_of, data_of, plan_bytes};

use base_answers::Refusal;
use base_sizes::{greater, is_inside};
use base_version::Version;
use field_kinds::{
    DRAFT_IDENTIFICATION, NTS_COOKIE, NTS_COOKIE_PLACEHOLDER, PADDING, REFERENCE_ID_RESPONSE,
    UNIQUE_IDENTIFIER,
};

// What a host wants written. A marker can't be.
#[derive(Clone, Copy)]
pub enum ToWrite {
    Unknown,
    UniqueIdentifier,
    NtsCookie,
    NtsCookiePlaceholder,
    DraftIdentification,
    Padding,
    ReferenceIdRequest,
    ReferenceIdResponse,
    Marker,
}

// Where a field is written, which decides how long it has to be.
#[derive(Clone, Copy)]
pub enum Place {
    Authenticated,
    Sealed,
    Untrusted,
    LastUntrusted,
}

#[derive(Clone, Copy)]
pub enum Plan {
    // A field whose body is the lent data from `from` up to `to`, with zeros up to its wire length.
    Field {
        type_id: u16,
        length: u16,
        wire_length: usize,
        from: usize,
        to: usize,
    },
    // A reference id request, whose body is its offset.
    Request {
        length: u16,
        wire_length: usize,
        offset: u16,
    },
}

// The kind that a number in a lent list stands for.
pub fn to_write(code: u8) -> ToWrite
    ensures { result ≡ to_write_of code }
{
    match code {
        0 => ToWrite::Unknown,
        1 => ToWrite::UniqueIdentifier,
        2 => ToWrite::NtsCookie,
        3 => ToWrite::NtsCookiePlaceholder,
        4 => ToWrite::DraftIdentification,
        5 => ToWrite::Padding,
        6 => ToWrite::ReferenceIdRequest,
        7 => ToWrite::ReferenceIdResponse,
        _ => ToWrite::Marker,
    }
}

// How much data a field may have.
fn most_data(version: Version) -> usize
    ensures { result ≡ most_data version }
{
    match version {
        Version::V4 => 65528,
        Version::V5 => 65531,
    }
}

// RFC 7822, section 3: V4 fields have 16 bytes, and 28 the last where no MAC follows.
fn minimum_size(version: Version, place: Place) -> usize
    ensures { result ≡ minimum_of version place }
{
    match version {
        Version::V4 => match place {
            Place::Authenticated => 16,
            Place::Sealed => 0,
            Place::Untrusted => 16,
            Place::LastUntrusted => 28,
        },
        Version::V5 => match place {
            Place::Authenticated => 16,
            Place::Sealed => 0,
            Place::Untrusted => 4,
            Place::LastUntrusted => 4,
        },
    }
}

// The length that a field states.
fn stated(version: Version, minimum: usize, size: usize) -> usize
    requires { (minimum ≤ 28) × (size ≤ most_data version) }
    ensures { result ≡ stated_of version minimum size }
{
    let length = greater(size + 4, minimum);
    let rounded = base_rounding::next_multiple_of_four(length as u16);
    match version {
        Version::V4 => rounded,
        Version::V5 => length,
    }
}

// A field with `size` bytes of data, of which those from `from` up to `to` are lent.
#[tactic(auto, unfolding(crate::specs::Meant::framed_plan))]
fn framed(
    version: Version,
    place: Place,
    type_id: u16,
    size: usize,
    from: usize,
    to: usize,
) -> Result<Plan, Refusal>
    ensures { result ≡ framed_plan version place type_id size from to }
{
    if most_data(version) < size {
        return Err(Refusal::FieldTooLong);
    }
    let length = stated(version, minimum_size(version, place), size) as u16;
    Ok(Plan::Field {
        type_id,
        length,
        wire_length: base_rounding::next_multiple_of_four(length),
        from,
        to,
    })
}

// A field with the `len` bytes of data from `start` on.
#[tactic(auto, unfolding(crate::specs::Meant::lent_plan))]
fn lent(
    version: Version,
    place: Place,
    type_id: u16,
    start: usize,
    len: usize,
    data: &[u8],
) -> Result<Plan, Refusal>
    ensures { result ≡ lent_plan version place type_id start len «data».now }
{
    if !is_inside(start, len, data.len()) {
        return Err(Refusal::CannotBeMade);
    }
    framed(version, place, type_id, len, start, start + len)
}

#[tactic(auto, unfolding(crate::specs::Meant::draft_plan))]
fn draft(
    version: Version,
    place: Place,
    start: usize,
    len: usize,
    data: &[u8],
) -> Result<Plan, Refusal>
    ensures { result ≡ draft_plan version place start len «data».now }
{
    if !is_inside(start, len, data.len()) {
        return Err(Refusal::CannotBeMade);
    }
    let end = start + len;
    if !field_contents::is_ascii(&data[start..end]) {
        return Err(Refusal::CannotBeMade);
    }
    framed(version, place, DRAFT_IDENTIFICATION, len, start, end)
}

// `len` is the whole field's length, with its header.
#[tactic(auto, unfolding(crate::specs::Meant::padding_plan))]
fn padding(version: Version, place: Place, len: usize) -> Result<Plan, Refusal>
    ensures { result ≡ padding_plan version place len }
{
    if len < 4 {
        return Err(Refusal::CannotBeMade);
    }
    framed(version, place, PADDING, len - 4, 0, 0)
}

#[tactic(auto, unfolding(crate::specs::Meant::request_plan))]
fn request(payload: usize, offset: u16) -> Result<Plan, Refusal>
    ensures { result ≡ request_plan payload offset }
{
    let wire_length = field_reference_ids::request::wire_length(payload)?;
    Ok(Plan::Request {
        length: wire_length as u16,
        wire_length,
        offset,
    })
}

#[tactic(auto, unfolding(crate::specs::Meant::response_plan))]
fn response(start: usize, len: usize, available: usize) -> Result<Plan, Refusal>
    ensures { result ≡ response_plan start len available }
{
    if !is_inside(start, len, available) {
        return Err(Refusal::CannotBeMade);
    }
    let wire_length = field_reference_ids::response::wire_length(len)?;
    Ok(Plan::Field {
        type_id: REFERENCE_ID_RESPONSE,
        length: (len + 4) as u16,
        wire_length,
        from: start,
        to: start + len,
    })
}

// `number` is the type of an Unknown and the offset of a request; `start` and `len` say where in `data`
// the data is. A placeholder, a Padding and a request have a length only.
#[tactic(auto, unfolding(crate::specs::Meant::plan_of))]
pub fn plan_field(
    version: Version,
    place: Place,
    kind: ToWrite,
    number: u16,
    start: usize,
    len: usize,
    data: &[u8],
) -> Result<Plan, Refusal>
    ensures { result ≡ plan_of version place kind number start len «data».now }
{
    match kind {
        ToWrite::Unknown => lent(version, place, number, start, len, data),
        ToWrite::UniqueIdentifier => lent(version, place, UNIQUE_IDENTIFIER, start, len, data),
        ToWrite::NtsCookie => lent(version, place, NTS_COOKIE, start, len, data),
        ToWrite::NtsCookiePlaceholder => framed(version, place, NTS_COOKIE_PLACEHOLDER, len, 0, 0),
        ToWrite::DraftIdentification => draft(version, place, start, len, data),
        ToWrite::Padding => padding(version, place, len),
        ToWrite::ReferenceIdRequest => request(len, number),
        ToWrite::ReferenceIdResponse => response(start, len, data.len()),
        ToWrite::Marker => Err(Refusal::CannotBeMade),
    }
}

// The wire length of a planned field, or why it can't be written.
pub fn wire_length(plan: Result<Plan, Refusal>) -> Result<usize, Refusal>
    ensures { result ≡ wire_length_of plan }
{
    match plan {
        Ok(Plan::Field { wire_length, .. }) => Ok(wire_length),
        Ok(
            Plan::Request {
                wire_length: size,
                ..
            },
        ) => Ok(size),
        Err(refusal) => Err(refusal),
    }
}

// The wire length of a field, or why it can't be written: `wire_length` of its plan. It has the arms of
// `plan_field` again, so that each has one caller and is compiled into that caller's loop: a call for each
// field costs more than the field.
#[tactic(auto, unfolding(crate::specs::Meant::plan_of))]
pub fn measure_field(
    version: Version,
    place: Place,
    kind: ToWrite,
    number: u16,
    start: usize,
    len: usize,
    data: &[u8],
) -> Result<usize, Refusal>
    ensures { result ≡ wire_length_of (plan_of version place kind number start len «data».now) }
{
    match kind {
        ToWrite::Unknown => wire_length(lent(version, place, number, start, len, data)),
        ToWrite::UniqueIdentifier => {
            wire_length(lent(version, place, UNIQUE_IDENTIFIER, start, len, data))
        },
        ToWrite::NtsCookie => wire_length(lent(version, place, NTS_COOKIE, start, len, data)),
        ToWrite::NtsCookiePlaceholder => {
            wire_length(framed(version, place, NTS_COOKIE_PLACEHOLDER, len, 0, 0))
        },
        ToWrite::DraftIdentification => wire_length(draft(version, place, start, len, data)),
        ToWrite::Padding => wire_length(padding(version, place, len)),
        ToWrite::ReferenceIdRequest => wire_length(request(len, number)),
        ToWrite::ReferenceIdResponse => wire_length(response(start, len, data.len())),
        ToWrite::Marker => wire_length(Err(Refusal::CannotBeMade)),
    }
}

// The bytes from `from` up to `to`, and none where they are not there.
#[tactic(auto, unfolding(crate::specs::Meant::data_of))]
fn part(data: &[u8], from: usize, to: usize) -> &[u8]
    ensures { result.now ≡ data_of «data».now from to }
{
    if to < from {
        return &data[..0];
    }
    if data.len() < to {
        return &data[..0];
    }
    &data[from..to]
}

// Stores a planned field from `at` on; one that does not fit changes nothing.
pub fn put(out: &mut [u8], at: usize, plan: Result<Plan, Refusal>, data: &[u8])
    ensures { out.new ≡ stored out.old at (plan_bytes «data».now plan) }
{
    match plan {
        Ok(
            Plan::Field {
                type_id,
                length,
                wire_length,
                from,
                to,
            },
        ) => {
            field_bytes::put_field(out, at, type_id, length, part(data, from, to), wire_length);
        }
        Ok(
            Plan::Request {
                length,
                wire_length,
                offset,
            },
        ) => {
            field_reference_ids::request::put(out, at, length, offset, wire_length);
        }
        Err(_) => {}
    }
}

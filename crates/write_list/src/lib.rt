// A list of fields to write (the loops over fields in EF ExtensionFieldData::serialize and
// encode_encrypted): it is measured first, and then written or refused as a whole.
#![tactic(auto)]

ghost use Rattle.std.specs.Prelude.{◌≡◌, ltb};
ghost use Rattle.base_store.specs.Meant.{wrote};
ghost use Rattle.write_field.specs.Meant.{wire_length_of};
ghost use Rattle.write_list.specs.Meant.{described, described_in, list_place, plan_at, plans_from, measure_of};
ghost use Rattle.write_list.specs.Model.{list_write};
ghost use Rattle.write_list.specs.Model.{entry_at, laid_from};

use base_answers::Refusal;
use base_version::Version;
use write_field::{Place, Plan, ToWrite};

// The fields that are described: of each its kind, a number, and where its data starts in `data` and how long it is.
#[derive(Clone, Copy)]
pub struct FieldsToWrite<'a> {
    pub kinds: &'a [u8],
    pub numbers: &'a [u16],
    pub starts: &'a [usize],
    pub lens: &'a [usize],
    pub data: &'a [u8],
}

fn place_of(each: Place, last: Place, is_last: bool) -> Place
    ensures { result ≡ list_place each last is_last }
{
    if is_last { last } else { each }
}

// Whether each of the four lists has an entry of number `k`.
fn is_described(fields: &FieldsToWrite, k: usize) -> bool
    ensures { result ≡ ltb k (described (described_in fields.now)) }
{
    k < fields.kinds.len()
        && k < fields.numbers.len()
        && k < fields.starts.len()
        && k < fields.lens.len()
}

// What the four lists say of one field.
#[derive(Clone, Copy)]
struct Entry {
    kind: ToWrite,
    number: u16,
    start: usize,
    len: usize,
}

// The entry of field number `k`, where each of the four lists has one.
#[tactic(auto, unfolding(crate::specs::Model::entry_at))]
fn entry_at(fields: &FieldsToWrite, k: usize) -> Option<Entry>
    ensures { result ≡ entry_at (described_in fields.now) k }
{
    if !is_described(fields, k) {
        return None;
    }
    Some(Entry {
        kind: write_field::to_write(fields.kinds[k]),
        number: fields.numbers[k],
        start: fields.starts[k],
        len: fields.lens[k],
    })
}

// The plan of field number `k`, with its data in `data`.
#[tactic(auto, unfolding(crate::specs::Model::entry_at, crate::specs::Meant::plan_at))]
fn plan_at(
    fields: &FieldsToWrite,
    version: Version,
    place: Place,
    k: usize,
) -> Result<Plan, Refusal>
    ensures { result ≡ plan_at (described_in fields.now) version place k }
{
    let entry = entry_at(fields, k).ok_or(Refusal::CannotBeMade)?;
    write_field::plan_field(
        version,
        place,
        entry.kind,
        entry.number,
        entry.start,
        entry.len,
        fields.data,
    )
}

// The wire length of field number `k`, or why it can't be written.
#[tactic(auto, unfolding(crate::specs::Model::entry_at, crate::specs::Meant::plan_at))]
fn measure_at(
    fields: &FieldsToWrite,
    version: Version,
    place: Place,
    k: usize,
) -> Result<usize, Refusal>
    ensures { result ≡ wire_length_of (plan_at (described_in fields.now) version place k) }
{
    match entry_at(fields, k) {
        Some(entry) => write_field::measure_field(
            version,
            place,
            entry.kind,
            entry.number,
            entry.start,
            entry.len,
            fields.data,
        ),
        None => Err(Refusal::CannotBeMade),
    }
}

// How many bytes the `count` fields from number `first` on take, or why they can't be written where there
// is `room`.
pub fn measure(
    fields: &FieldsToWrite,
    version: Version,
    each: Place,
    last: Place,
    first: usize,
    count: usize,
    room: usize,
) -> Result<usize, Refusal>
    ensures { result ≡ measure_of (plans_from (described_in fields.now) version each last count first) room }
{
    // A copy, so that the loop does not read the struct again for each field.
    let fields = *fields;
    let mut total: usize = 0;
    for i in 0..count {
        let place = place_of(each, last, i + 1 == count);
        let n = measure_at(&fields, version, place, first + i)?;
        if room - total < n {
            return Err(Refusal::NoRoom);
        }
        total += n;
    }
    Ok(total)
}

// Stores fields one after the other from `at` on, up to the first that can't be written or does not fit. A
// list that was measured for this room is stored whole, and is not measured again.
pub fn put_all(
    out: &mut [u8],
    at: usize,
    fields: &FieldsToWrite,
    version: Version,
    each: Place,
    last: Place,
    first: usize,
    count: usize,
)
    ensures { out.new ≡ laid_from fields.now.«data».now (plans_from (described_in fields.now) version each last count first) out.old at }
{
    // A copy, so that the loop does not read the struct again after each store.
    let fields = *fields;
    let mut to = at;
    for i in 0..count {
        let place = place_of(each, last, i + 1 == count);
        let plan = plan_at(&fields, version, place, first + i);
        let Ok(n) = write_field::wire_length(plan) else {
            return;
        };
        if base_store::room(out.len(), to) < n {
            return;
        }
        write_field::put(out, to, plan, fields.data);
        to += n;
    }
}

// Writes the `count` fields from number `first` on, from `at` on in the output.
pub fn write_list(
    out: &mut [u8],
    at: usize,
    fields: &FieldsToWrite,
    version: Version,
    each: Place,
    last: Place,
    first: usize,
    count: usize,
) -> Result<usize, Refusal>
    ensures { wrote result out.new ≡ list_write fields.now.«data».now (plans_from (described_in fields.now) version each last count first) out.old at }
{
    // Most packets have an empty list.
    if count == 0 {
        return Ok(0);
    }
    let room = base_store::room(out.len(), at);
    let written = measure(fields, version, each, last, first, count, room)?;
    put_all(out, at, fields, version, each, last, first, count);
    Ok(written)
}

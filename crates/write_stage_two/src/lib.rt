// Stage two of writing the fields of a packet (EF ExtensionField::encode_encrypted, and the rest of
// ExtensionFieldData::serialize): the sealed field, from what the host's cipher made, and the untrusted fields.
#![tactic(auto)]

ghost use Rattle.std.specs.Prelude.{◌≡◌, ◌+◌, ◌≤◌, length};
ghost use Rattle.base_rounding.specs.Meant.{rounded_up};
ghost use Rattle.base_store.specs.Model.{stored};
ghost use Rattle.base_store.specs.Meant.{room_from, wrote};
ghost use Rattle.write_list.specs.Meant.{described_in};
ghost use Rattle.write_stage_two.specs.Meant.{padded, sealed_length, sealed_bytes, untrusted_plans, after_sealed, stage_two};
ghost use Rattle.write_stage_two.specs.Model.{sealed_measure};

use base_answers::Refusal;
use base_version::Version;
use field_kinds::NTS_ENCRYPTED_FIELD;
use write_field::Place;
use write_list::FieldsToWrite;

// The wire length of a sealed field, or that there is no room for it.
fn sealed_size(nonce: usize, ciphertext: usize, room: usize) -> Result<usize, Refusal>
    requires { room ≤ 65535 }
    ensures { result ≡ sealed_measure nonce ciphertext room }
{
    if 65535 < nonce || 65535 < ciphertext {
        return Err(Refusal::NoRoom);
    }
    let padded_nonce = base_rounding::next_multiple_of_four(nonce as u16);
    let size = 8 + padded_nonce + base_rounding::next_multiple_of_four(ciphertext as u16);
    if room < size {
        return Err(Refusal::NoRoom);
    }
    Ok(size)
}

// Stores bytes, and zeros after them up to a multiple of four.
fn put_padded(out: &mut [u8], at: usize, bytes: &[u8])
    requires { (length bytes.now ≤ 65535) × (at + rounded_up (length bytes.now) ≤ length out.old) }
    ensures { out.new ≡ stored out.old at (padded bytes.now) }
{
    let len = bytes.len();
    let zeros = base_rounding::next_multiple_of_four(len as u16) - len;
    base_store::copy(out, at, bytes);
    base_store::fill(out, at + len, zeros);
}

// Stores the sealed field, whose wire length is `size`.
fn put_sealed(out: &mut [u8], at: usize, nonce: &[u8], ciphertext: &[u8], size: usize)
    requires { (size ≡ sealed_length nonce.now ciphertext.now) × (size ≤ 65535) × (at + size ≤ length out.old) }
    ensures { out.new ≡ stored out.old at (sealed_bytes nonce.now ciphertext.now) }
{
    let padded_nonce = base_rounding::next_multiple_of_four(nonce.len() as u16);
    base_store::put16(out, at, NTS_ENCRYPTED_FIELD);
    base_store::put16(out, at + 2, size as u16);
    base_store::put16(out, at + 4, nonce.len() as u16);
    base_store::put16(out, at + 6, ciphertext.len() as u16);
    put_padded(out, at + 8, nonce);
    put_padded(out, at + 8 + padded_nonce, ciphertext);
}

// The sealed field, whose wire length is `size`, and the untrusted fields after it.
fn after_sealed(
    out: &mut [u8],
    at: usize,
    nonce: &[u8],
    ciphertext: &[u8],
    size: usize,
    room: usize,
    fields: &FieldsToWrite,
    version: Version,
    untrusted: usize,
) -> Result<usize, Refusal>
    requires { (size ≡ sealed_length nonce.now ciphertext.now) × (room ≡ room_from (length out.old) at) × (size ≤ room) }
    ensures { wrote result out.new ≡ after_sealed (sealed_bytes nonce.now ciphertext.now) fields.now.«data».now (untrusted_plans (described_in fields.now) version untrusted) out.old at }
{
    // Most packets have no untrusted field.
    if untrusted == 0 {
        put_sealed(out, at, nonce, ciphertext, size);
        return Ok(size);
    }
    let each = Place::Untrusted;
    let last = Place::LastUntrusted;
    let left = room - size;
    let total = write_list::measure(fields, version, each, last, 0, untrusted, left)?;
    put_sealed(out, at, nonce, ciphertext, size);
    write_list::put_all(out, at + size, fields, version, each, last, 0, untrusted);
    Ok(size + total)
}

// Stage two: the sealed field, if stage one wrote any field, and the untrusted fields after it.
#[tactic(auto, unfolding(crate::specs::Meant::stage_two))]
pub fn stage_two(
    out: &mut [u8],
    at: usize,
    has_seal: bool,
    nonce: &[u8],
    ciphertext: &[u8],
    fields: &FieldsToWrite,
    version: Version,
    untrusted: usize,
) -> Result<usize, Refusal>
    ensures { wrote result out.new ≡ stage_two (described_in fields.now) version has_seal nonce.now ciphertext.now untrusted out.old at }
{
    let end = base_store::output_end(out.len());
    if end < at {
        return Err(Refusal::NoRoom);
    }
    if !has_seal {
        return write_list::write_list(
            out,
            at,
            fields,
            version,
            Place::Untrusted,
            Place::LastUntrusted,
            0,
            untrusted,
        );
    }
    let room = base_store::room(out.len(), at);
    let size = sealed_size(nonce.len(), ciphertext.len(), room)?;
    after_sealed(
        out, at, nonce, ciphertext, size, room, fields, version, untrusted,
    )
}

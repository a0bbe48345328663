// Stage one of writing the fields of a packet (EF ExtensionFieldData::serialize, up to the call of the cipher):
// the authenticated fields, and the plaintext that the host seals.
#![tactic(auto)]

ghost use Rattle.std.specs.Prelude.{◌≡◌};
ghost use Rattle.write_list.specs.Meant.{described_in};
ghost use Rattle.write_stage_one.specs.Meant.{needs_cipher, stage_reply, stage_one};

use base_answers::Refusal;
use base_version::Version;
use write_field::Place;
use write_list::FieldsToWrite;

#[derive(Clone, Copy)]
pub struct StageOne {
    // How many bytes were written to the output, and how many to the plaintext.
    pub output_len: usize,
    pub plaintext_len: usize,
}

// Whether a cipher is needed and missing.
#[tactic(auto, unfolding(crate::specs::Meant::needs_cipher))]
fn needs_cipher(has_cipher: bool, authenticated: usize, encrypted: usize) -> bool
    ensures { result ≡ needs_cipher has_cipher authenticated encrypted }
{
    !has_cipher && (0 < authenticated || 0 < encrypted)
}

// Stage one: the authenticated fields, which are the first described, from `at` on in the output, and the
// fields to be sealed, which follow them, in the plaintext.
#[tactic(auto, unfolding(crate::specs::Meant::stage_one))]
pub fn stage_one(
    out: &mut [u8],
    at: usize,
    plain: &mut [u8],
    fields: &FieldsToWrite,
    version: Version,
    has_cipher: bool,
    authenticated: usize,
    encrypted: usize,
) -> Result<StageOne, Refusal>
    ensures { stage_reply result out.new plain.new ≡ stage_one (described_in fields.now) version has_cipher authenticated encrypted out.old at plain.old }
{
    if needs_cipher(has_cipher, authenticated, encrypted) {
        return Err(Refusal::NoCipher);
    }
    let output_end = base_store::output_end(out.len());
    if output_end < at {
        return Err(Refusal::NoRoom);
    }
    let output_room = base_store::room(out.len(), at);
    let first = Place::Authenticated;
    let inside = Place::Sealed;
    let output_len = write_list::measure(
        fields,
        version,
        first,
        first,
        0,
        authenticated,
        output_room,
    )?;
    let plaintext_len = write_list::write_list(
        plain,
        0,
        fields,
        version,
        inside,
        inside,
        authenticated,
        encrypted,
    )?;
    write_list::put_all(out, at, fields, version, first, first, 0, authenticated);
    Ok(StageOne {
        output_len,
        plaintext_len,
    })
}

// Writing the fields of a packet in two stages: the host seals the plaintext in between. A field is
// described by its kind, a number, and the start and length of its data, each in a list of its own.
#![tactic(auto)]

ghost use Rattle.std.specs.Prelude.{◌≡◌};
ghost use Rattle.write_list.specs.Meant.{described_in};
ghost use Rattle.host.specs.Meant.{leaving, leaving_both};
ghost use Rattle.host_writes.specs.Meant.{owes_seal_of, no_stage, stage_one_across, stage_two_across};

use base_answers::Refusal;
use host::NtpLength;
use write_list::FieldsToWrite;

// What stage one tells: 0 or the number of a refusal, and what stage two needs. What does not come is 0.
#[repr(C)]
#[derive(Clone, Copy)]
pub struct NtpStageOne {
    pub number: usize,
    // How many bytes were written to the output, and how many to the plaintext.
    pub output_len: usize,
    pub plaintext_len: usize,
    // All bytes of the output up to the place where stage two goes on. The host seals the plaintext over them.
    pub associated_data_len: usize,
    // 1 if the packet has a sealed field, since there are fields to authenticate or to seal.
    pub owes_seal: usize,
}

fn owes_seal(authenticated_count: usize, encrypted_count: usize) -> usize
    ensures { result ≡ owes_seal_of authenticated_count encrypted_count }
{
    if 0 < authenticated_count || 0 < encrypted_count {
        1
    } else {
        0
    }
}

fn no_stage(refusal: Refusal) -> NtpStageOne
    ensures { result ≡ no_stage refusal }
{
    NtpStageOne {
        number: host::number_of(refusal),
        output_len: 0,
        plaintext_len: 0,
        associated_data_len: 0,
        owes_seal: 0,
    }
}

// Writes the authenticated fields, which are the first described, and the plaintext of the fields to be
// sealed, which follow them (`write_stage_one::stage_one`). `has_cipher` is 0 where there is none.
#[tactic(auto, unfolding(crate::specs::Meant::stage_one_across))]
pub fn stage_one(
    out: &mut [u8],
    at: usize,
    plain: &mut [u8],
    fields: &FieldsToWrite,
    version: u8,
    has_cipher: u8,
    authenticated_count: usize,
    encrypted_count: usize,
) -> NtpStageOne
    ensures { leaving_both result out.new plain.new ≡ stage_one_across (described_in fields.now) version has_cipher authenticated_count encrypted_count out.old at plain.old }
{
    let Some(v) = host::version_of(version) else {
        return no_stage(Refusal::InvalidVersion);
    };
    match write_stage_one::stage_one(
        out,
        at,
        plain,
        fields,
        v,
        has_cipher != 0,
        authenticated_count,
        encrypted_count,
    ) {
        Err(refusal) => no_stage(refusal),
        Ok(staged) => NtpStageOne {
            number: 0,
            output_len: staged.output_len,
            plaintext_len: staged.plaintext_len,
            associated_data_len: at + staged.output_len,
            owes_seal: owes_seal(authenticated_count, encrypted_count),
        },
    }
}

// Writes the sealed field from the host's nonce and ciphertext, if stage one owes a seal, and then the untrusted
// fields (`write_stage_two::stage_two`). `at` is the length of stage one's associated data.
#[tactic(auto, unfolding(crate::specs::Meant::stage_two_across))]
pub fn stage_two(
    out: &mut [u8],
    at: usize,
    owes_seal: usize,
    nonce: &[u8],
    ciphertext: &[u8],
    fields: &FieldsToWrite,
    version: u8,
    untrusted_count: usize,
) -> NtpLength
    ensures { leaving result out.new ≡ stage_two_across (described_in fields.now) version owes_seal nonce.now ciphertext.now untrusted_count out.old at }
{
    let Some(v) = host::version_of(version) else {
        return host::length_row(Err(Refusal::InvalidVersion));
    };
    host::length_row(write_stage_two::stage_two(
        out,
        at,
        owes_seal != 0,
        nonce,
        ciphertext,
        fields,
        v,
        untrusted_count,
    ))
}

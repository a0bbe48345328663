// The body of a journal entry about a read (rules 24 of docs/RULES.md): the answer's number and the counts of its
// three lists, a byte each.
#![tactic(auto)]

ghost use Rattle.std.specs.Prelude.{◌≡◌, leb, Ok, Err};
ghost use Rattle.base_answers.specs.Meant.{pick};
ghost use Rattle.base_answers.specs.declared.Refusal.TheVariants.{CannotBeMade};
ghost use Rattle.base_store.specs.Meant.{wrote};
ghost use Rattle.journal_body.specs.Meant.{counts_write, read_write};

use base_answers::Refusal;
use read_packet::Read;

// A number that fits a byte.
fn byte(number: usize) -> Result<u8, Refusal>
    ensures { result ≡ pick (leb number 255) (Ok number) (Err CannotBeMade) }
{
    u8::try_from(number).or(Err(Refusal::CannotBeMade))
}

// Writes the four numbers from `at` on.
pub fn write_counts(
    number: usize,
    authenticated_count: usize,
    untrusted_count: usize,
    encrypted_count: usize,
    out: &mut [u8],
    at: usize,
) -> Result<usize, Refusal>
    ensures { wrote result out.new ≡ counts_write number authenticated_count untrusted_count encrypted_count out.old at }
{
    let body = [
        byte(number)?,
        byte(authenticated_count)?,
        byte(untrusted_count)?,
        byte(encrypted_count)?,
    ];
    if base_store::room(out.len(), at) < 4 {
        return Err(Refusal::NoRoom);
    }
    base_store::copy(out, at, &body);
    Ok(4)
}

// Writes what a read answered from `at` on. A refusal other than 5 has no lists.
pub fn write_read(answer: Read, out: &mut [u8], at: usize) -> Result<usize, Refusal>
    ensures { wrote result out.new ≡ read_write answer out.old at }
{
    match answer {
        Read::Accepted {
            authenticated_count,
            untrusted_count,
            encrypted_count,
            ..
        } => write_counts(
            0,
            authenticated_count,
            untrusted_count,
            encrypted_count,
            out,
            at,
        ),
        Read::DecryptError {
            authenticated_count,
            untrusted_count,
            encrypted_count,
            ..
        } => {
            let number = base_answers::number(Refusal::DecryptError) as usize;
            write_counts(
                number,
                authenticated_count,
                untrusted_count,
                encrypted_count,
                out,
                at,
            )
        }
        Read::Refused { refusal, .. } => {
            let number = base_answers::number(refusal) as usize;
            write_counts(number, 0, 0, 0, out, at)
        }
    }
}

// The next field of a region (EF ExtensionFieldStreamer::next): frame and contents of rule 3.2, but for
// the scan of a placeholder, which the loops over fields do themselves.
#![tactic(auto)]

ghost use Rattle.std.specs.Prelude.{◌≡◌};
ghost use Rattle.layout.specs.Meant.{cutoff_of};
ghost use Rattle.field_frame.specs.Model.{told_of, frame_at};
ghost use Rattle.read_step.specs.Model.{checked_of, field_at, step_at};

use base_answers::Refusal;
use base_version::Version;
use field_contents::Rule;
use field_frame::Frame;

#[derive(Clone, Copy)]
pub enum Step {
    // No field is left.
    End,
    // A field whose contents are lawful, or will be if `is_placeholder` and all its bytes are zero.
    Field {
        type_id: u16,
        message_len: usize,
        wire_length: usize,
        is_placeholder: bool,
    },
    // A sealed field whose inner lengths are still to be looked at.
    Sealed {
        message_len: usize,
        wire_length: usize,
    },
    Refused(Refusal),
}

// A field by what its kind asks of the message.
fn check(rule: Rule, type_id: u16, message: &[u8], wire_length: usize) -> Step
    ensures { result ≡ checked_of rule type_id message.now wire_length }
{
    let len = message.len();
    let field = Step::Field {
        type_id,
        message_len: len,
        wire_length,
        is_placeholder: false,
    };
    match rule {
        Rule::Any => field,
        Rule::Zeros => Step::Field {
            type_id,
            message_len: len,
            wire_length,
            is_placeholder: true,
        },
        Rule::Sealed => Step::Sealed {
            message_len: len,
            wire_length,
        },
        Rule::Ascii => {
            if field_contents::is_ascii(message) {
                return field;
            }
            Step::Refused(Refusal::InvalidDraftIdentification)
        }
        Rule::Offset => {
            if len < 2 {
                return Step::Refused(Refusal::IncorrectLength);
            }
            field
        }
    }
}

// How many bytes may be left over after the last field: in V4 a MAC may stand there.
pub fn cutoff_of(version: Version) -> usize
    ensures { result ≡ cutoff_of version }
{
    match version {
        Version::V4 => 24,
        Version::V5 => 0,
    }
}

// What a step says of the frame that was found at `at`.
fn check_frame(found: Result<Frame, Refusal>, region: &[u8], at: usize, version: Version) -> Step
    requires { told_of found ≡ told_of (frame_at version region.now at) }
    ensures { result ≡ field_at version region.now at }
{
    match found {
        Ok(frame) => {
            let from = at + 4;
            let end = from + frame.message_len;
            let rule = field_contents::rule_of(field_kinds::from_type_id(frame.type_id, version));
            check(rule, frame.type_id, &region[from..end], frame.wire_length)
        }
        Err(refusal) => Step::Refused(refusal),
    }
}

// The field at `at`, where a remainder of up to `cutoff` bytes is left alone.
pub fn next(region: &[u8], at: usize, cutoff: usize, version: Version) -> Step
    ensures { result ≡ step_at version cutoff region.now at }
{
    if region.len() <= at {
        return Step::End;
    }
    if region.len() - at <= cutoff {
        return Step::End;
    }
    check_frame(
        field_frame::frame_at(region, at, version),
        region,
        at,
        version,
    )
}

// `next` for a plaintext, of which nothing is left alone. It is a function of its own so that each of the
// two has one caller: the compiler then puts it into that caller's loop.
pub fn next_inner(plain: &[u8], at: usize, version: Version) -> Step
    ensures { result ≡ step_at version 0 plain.now at }
{
    if plain.len() <= at {
        return Step::End;
    }
    check_frame(
        field_frame::frame_at(plain, at, version),
        plain,
        at,
        version,
    )
}

// An opened sealed field: the fields of its plaintext (EF RawEncryptedField::decrypt).
#![tactic(auto)]

ghost use Rattle.std.specs.Prelude.{◌≡◌};
ghost use Rattle.read_plaintext.specs.Model.{inside_reply, inner_fields};

use base_answers::Refusal;
use base_sizes::MOST_BYTES;
use base_version::Version;
use read_entries::{CAPACITY, Table};
use read_step::Step;

// Why a field is refused, and how many entries the table has before it.
#[derive(Clone, Copy)]
pub struct InnerFault {
    pub refusal: Refusal,
    pub inner_count: usize,
}

// Adds an entry for each field of a plaintext to the table, which has `count` already, and tells how many it has then.
// `seal` is the number of the sealed field.
pub fn inner_fields(
    plain: &[u8],
    version: Version,
    seal: u16,
    inner: &mut Table,
    count: usize,
) -> Result<usize, InnerFault>
    ensures { inside_reply result inner.new ≡ inner_fields version plain.now seal inner.old count }
{
    if MOST_BYTES < plain.len() {
        return Err(InnerFault {
            refusal: Refusal::MalformedResult,
            inner_count: count,
        });
    }
    let mut n = count;
    let mut at: usize = 0;
    let refusal = 'fields: loop {
        match read_step::next_inner(plain, at, version) {
            Step::End => {
                return Ok(n);
            }
            Step::Refused(fault) => {
                break 'fields fault;
            }
            Step::Sealed {
                message_len: _,
                wire_length: _,
            } => {
                break 'fields Refusal::MalformedNtsExtensionFields;
            }
            Step::Field {
                type_id,
                message_len,
                wire_length,
                is_placeholder,
            } => {
                if is_placeholder {
                    let from = at + 4;
                    let end = from + message_len;
                    let bytes = &plain[from..end];
                    'scan: for j in field_contents::zero_blocks(bytes)..bytes.len() {
                        if bytes[j] != 0 {
                            break 'fields Refusal::MalformedCookiePlaceholder;
                        }
                    }
                }
                if CAPACITY <= n {
                    break 'fields Refusal::TooManyFields;
                }
                inner[n] = read_entries::pack(message_len as u16, type_id, at as u16, seal);
                n += 1;
                at += wire_length;
            }
        }
    };
    Err(InnerFault {
        refusal,
        inner_count: n,
    })
}

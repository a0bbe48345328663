// The survey: the sealed fields of a packet, which the host opens before the packet is read (in place of
// the Rust's calls of CipherProvider::get and Cipher::decrypt from within EF ExtensionFieldData::
// deserialize).
#![tactic(auto)]

ghost use Rattle.std.specs.Prelude.{◌≡◌};
ghost use Rattle.read_survey.specs.Model.{is_sealed, outer_at, survey_reply, survey_of, seal_of};
ghost use Rattle.read_survey.specs.Meant.{refusing_survey};

use base_answers::Refusal;
use base_sizes::MOST_BYTES;
use base_version::Version;
use field_kinds::Kind;
use read_entries::{CAPACITY, Table};

// Why no further field is listed, the packet offset of the outer field at fault, and how many entries the
// table has.
#[derive(Clone, Copy)]
pub struct SurveyFault {
    pub refusal: Refusal,
    pub field_offset: usize,
    pub seal_count: usize,
}

// What a survey looks at in an outer field.
#[derive(Clone, Copy)]
pub enum Outer {
    // Any field but a sealed one.
    Other {
        wire_length: usize,
    },
    // The lengths of nonce and ciphertext.
    Sealed {
        nonce_len: usize,
        ciphertext_len: usize,
        wire_length: usize,
    },
}

fn is_sealed(kind: Kind) -> bool
    ensures { result ≡ is_sealed kind }
{
    kind == Kind::NtsEncryptedField
}

// The outer field at `at`.
fn outer_at(packet: &[u8], at: usize, version: Version) -> Result<Outer, Refusal>
    ensures { result ≡ outer_at version packet.now at }
{
    match field_frame::frame_at(packet, at, version) {
        Err(refusal) => Err(refusal),
        Ok(frame) => {
            let wire_length = frame.wire_length;
            if !is_sealed(field_kinds::from_type_id(frame.type_id, version)) {
                return Ok(Outer::Other { wire_length });
            }
            let from = at + 4;
            let end = from + frame.message_len;
            match field_sealed::from_message_bytes(&packet[from..end]) {
                Err(fault) => Err(fault),
                Ok(sealed) => Ok(Outer::Sealed {
                    nonce_len: sealed.nonce_len,
                    ciphertext_len: sealed.ciphertext_len,
                    wire_length,
                }),
            }
        }
    }
}

// A survey that ends with a fault keeps the entries that it has.
fn refuse(
    refusal: Refusal,
    field_offset: usize,
    table: &mut Table,
    seal_count: usize,
) -> Result<usize, SurveyFault>
    ensures { survey_reply result table.new ≡ refusing_survey refusal field_offset seal_count table.old }
{
    read_entries::blank(table, seal_count, CAPACITY);
    Err(SurveyFault {
        refusal,
        field_offset,
        seal_count,
    })
}

// Lists the sealed fields of a packet whose header is `header_size` bytes long, and answers how many entries the
// table has. `seal_of` reads an entry.
pub fn survey(
    packet: &[u8],
    header_size: usize,
    version: Version,
    table: &mut Table,
) -> Result<usize, SurveyFault>
    ensures { survey_reply result table.new ≡ survey_of packet.now header_size version table.old }
{
    if MOST_BYTES < packet.len() {
        return refuse(Refusal::PacketTooLong, 0, table, 0);
    }
    if packet.len() < header_size {
        return refuse(Refusal::HeaderPastEnd, 0, table, 0);
    }
    let cutoff = read_step::cutoff_of(version);
    let mut at = header_size;
    let mut n: usize = 0;
    while cutoff < packet.len() - at {
        match outer_at(packet, at, version) {
            Err(refusal) => {
                return refuse(refusal, at, table, n);
            }
            Ok(Outer::Other { wire_length }) => {
                at += wire_length;
            }
            Ok(
                Outer::Sealed {
                    nonce_len,
                    ciphertext_len,
                    wire_length,
                },
            ) => {
                if CAPACITY <= n {
                    return refuse(Refusal::TooManyFields, at, table, n);
                }
                table[n] = read_entries::pack(
                    nonce_len as u16,
                    ciphertext_len as u16,
                    at as u16,
                    0,
                );
                n += 1;
                at += wire_length;
            }
        }
    }
    read_entries::blank(table, n, CAPACITY);
    Ok(n)
}

// Where the nonce and the ciphertext of a sealed field are in the packet, and how many bytes are before
// the field, which are the associated data.
#[repr(C)]
#[derive(Clone, Copy)]
pub struct Seal {
    pub nonce_offset: usize,
    pub nonce_len: usize,
    pub ciphertext_offset: usize,
    pub ciphertext_len: usize,
    pub associated_data_len: usize,
}

// What an entry says. The nonce comes after type and length of the field and its own two lengths.
pub fn seal_of(entry: u64) -> Seal
    ensures { result ≡ seal_of entry }
{
    let e = read_entries::unpack(entry);
    let nonce_len = e.first as usize;
    let padded = base_rounding::next_multiple_of_four(e.first);
    let associated_data_len = e.third as usize;
    let nonce_offset = associated_data_len + 8;
    let ciphertext_offset = nonce_offset + padded;
    let ciphertext_len = e.second as usize;
    Seal {
        nonce_offset,
        nonce_len,
        ciphertext_offset,
        ciphertext_len,
        associated_data_len,
    }
}

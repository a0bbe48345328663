// The message of a sealed field (EF RawEncryptedField::from_message_bytes; RFC 8915, section 5.6).
#![tactic(auto)]

ghost use Rattle.std.specs.Prelude.{◌≡◌};
ghost use Rattle.field_sealed.specs.Model.{told_of, sealed_parts};

use base_answers::Refusal;

// The nonce follows the two lengths. Places count from the start of the message.
#[derive(Clone, Copy)]
pub struct Sealed {
    pub nonce_len: usize,
    pub ciphertext_start: usize,
    pub ciphertext_len: usize,
}

// Where nonce and ciphertext are in a message.
pub fn from_message_bytes(message: &[u8]) -> Result<Sealed, Refusal>
    ensures { told_of result ≡ told_of (sealed_parts message.now) }
{
    if message.len() < 4 {
        return Err(Refusal::IncorrectLength);
    }
    let nonce = base_big_endian::be16(message, 0);
    let ciphertext_len = base_big_endian::be16(message, 2) as usize;
    let ciphertext_start = 4 + base_rounding::next_multiple_of_four(nonce);
    if message.len() < ciphertext_start + ciphertext_len {
        return Err(Refusal::IncorrectLength);
    }
    Ok(Sealed {
        nonce_len: nonce as usize,
        ciphertext_start,
        ciphertext_len,
    })
}

// A response: bytes of the server's filter.
ghost use Rattle.std.specs.Prelude.{◌≡◌};
ghost use Rattle.base_store.specs.Meant.{wrote};
ghost use Rattle.field_reference_ids.specs.MeantResponse.{response_told, response_new, response_wire_length, response_write};

use base_answers::Refusal;

// Whether bytes are a response to send, and how many they are; they stay where they were lent.
pub fn new(bytes: &[u8]) -> Result<usize, Refusal>
    ensures { response_told result ≡ response_told (response_new bytes.now) }
{
    let len = bytes.len();
    if len % 4 != 0 {
        return Err(Refusal::CannotBeMade);
    }
    if 512 < len {
        return Err(Refusal::CannotBeMade);
    }
    Ok(len)
}

// The bytes of the response that a field's message is: all of it.
pub fn decode(message: &[u8]) -> &[u8]
    ensures { result.now ≡ message.now }
{
    message
}

// The wire length of the field of a response of `len` bytes, or why it can't be written.
#[tactic(auto, unfolding(crate::specs::MeantResponse::response_wire_length))]
pub fn wire_length(len: usize) -> Result<usize, Refusal>
    ensures { result ≡ response_wire_length len }
{
    if 65531 < len {
        return Err(Refusal::FieldTooLong);
    }
    Ok(base_rounding::next_multiple_of_four((len + 4) as u16))
}

// Writes a response as a field from `at` on.
#[tactic(auto, unfolding(crate::specs::MeantResponse::response_write))]
pub fn serialize(bytes: &[u8], out: &mut [u8], at: usize) -> Result<usize, Refusal>
    ensures { wrote result out.new ≡ response_write bytes.now out.old at }
{
    let len = bytes.len();
    let count = wire_length(len)?;
    if base_store::room(out.len(), at) < count {
        return Err(Refusal::NoRoom);
    }
    field_bytes::put_field(
        out,
        at,
        field_kinds::REFERENCE_ID_RESPONSE,
        (len + 4) as u16,
        bytes,
        count,
    );
    Ok(count)
}

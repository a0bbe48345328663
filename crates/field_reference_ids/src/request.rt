// A request: how many bytes of the filter are wanted, and from which on.
ghost use Rattle.std.specs.Prelude.{◌≡◌};
ghost use Rattle.base_big_endian.specs.Meant.{big_endian};
ghost use Rattle.base_store.specs.Model.{stored};
ghost use Rattle.base_store.specs.Meant.{wrote};
ghost use Rattle.field_kinds.specs.Meant.{reference_id_request};
ghost use Rattle.field_bytes.specs.Meant.{field_bytes};
ghost use Rattle.field_reference_ids.specs.MeantRequest.{told_of, request_new, request_read, request_wire_length, request_write};
ghost use Rattle.field_reference_ids.specs.MeantResponse.{response_told, response_cut, cut_bytes};

use base_answers::Refusal;

#[derive(Clone, Copy)]
pub struct ReferenceIdRequest {
    pub payload_len: u16,
    pub offset: u16,
}

// A request to send.
#[tactic(auto, unfolding(crate::specs::MeantRequest::request_new))]
pub fn new(payload_len: u16, offset: u16) -> Result<ReferenceIdRequest, Refusal>
    ensures { told_of result ≡ told_of (request_new payload_len offset) }
{
    if payload_len % 4 != 0 {
        return Err(Refusal::CannotBeMade);
    }
    if 512 < payload_len as u32 + offset as u32 {
        return Err(Refusal::CannotBeMade);
    }
    Ok(ReferenceIdRequest {
        payload_len,
        offset,
    })
}

// The request that a field's message is.
#[tactic(auto, unfolding(crate::specs::MeantRequest::request_read))]
pub fn decode(message: &[u8]) -> Result<ReferenceIdRequest, Refusal>
    ensures { told_of result ≡ told_of (request_read message.now) }
{
    if message.len() < 2 {
        return Err(Refusal::IncorrectLength);
    }
    if 65535 < message.len() {
        return Err(Refusal::IncorrectLength);
    }
    let offset = base_big_endian::be16(message, 0);
    let payload_len = message.len() as u16;
    Ok(ReferenceIdRequest {
        payload_len,
        offset,
    })
}

// How many bytes the part of a filter that is asked for has, if it lies inside.
#[tactic(auto, unfolding(crate::specs::MeantResponse::response_cut))]
pub fn to_response(request: ReferenceIdRequest, filter: &[u8]) -> Result<usize, Refusal>
    ensures { response_told result ≡ response_told (response_cut request.payload_len request.offset filter.now) }
{
    let offset = request.offset as usize;
    let len = request.payload_len as usize;
    if filter.len() < offset + len {
        return Err(Refusal::CannotBeMade);
    }
    Ok(len)
}

// That part of the filter, and none of it where it does not lie inside.
#[tactic(auto, unfolding(crate::specs::MeantResponse::cut_bytes))]
pub fn response_bytes(request: ReferenceIdRequest, filter: &[u8]) -> &[u8]
    ensures { result.now ≡ cut_bytes request.payload_len request.offset filter.now }
{
    let offset = request.offset as usize;
    let end = offset + request.payload_len as usize;
    if filter.len() < end {
        return &filter[..0];
    }
    &filter[offset..end]
}

// The wire length of a request's field, or why it can't be written.
#[tactic(auto, unfolding(crate::specs::MeantRequest::request_wire_length))]
pub fn wire_length(payload: usize) -> Result<usize, Refusal>
    ensures { result ≡ request_wire_length payload }
{
    if payload == 0 {
        return Err(Refusal::CannotBeMade);
    }
    if payload % 4 != 0 {
        return Err(Refusal::CannotBeMade);
    }
    if 65531 < payload {
        return Err(Refusal::FieldTooLong);
    }
    Ok(payload + 4)
}

// Stores the field of a request from `at` on; one that does not fit changes nothing.
pub fn put(out: &mut [u8], at: usize, length: u16, offset: u16, wire_length: usize)
    ensures { out.new ≡ stored out.old at (field_bytes reference_id_request length (big_endian 2 offset) wire_length) }
{
    let mut body = [0u8; 2];
    base_store::put16(&mut body, 0, offset);
    field_bytes::put_field(
        out,
        at,
        field_kinds::REFERENCE_ID_REQUEST,
        length,
        &body,
        wire_length,
    );
}

// Writes the request as a field from `at` on.
#[tactic(auto, unfolding(crate::specs::MeantRequest::request_write))]
pub fn serialize(request: ReferenceIdRequest, out: &mut [u8], at: usize) -> Result<usize, Refusal>
    ensures { wrote result out.new ≡ request_write request.payload_len request.offset out.old at }
{
    let count = wire_length(request.payload_len as usize)?;
    if base_store::room(out.len(), at) < count {
        return Err(Refusal::NoRoom);
    }
    let length = request.payload_len + 4;
    put(out, at, length, request.offset, count);
    Ok(count)
}

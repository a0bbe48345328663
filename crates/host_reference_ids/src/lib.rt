// Reference ids of NTPv5: requests for a part of a server's filter, and responses.
#![tactic(auto)]

ghost use Rattle.std.specs.Prelude.{◌≡◌};
ghost use Rattle.field_reference_ids.specs.MeantRequest.{asking, request_new, request_read, request_write};
ghost use Rattle.field_reference_ids.specs.MeantResponse.{response_new, response_cut, response_write};
ghost use Rattle.host.specs.Meant.{leaving, of_write};
ghost use Rattle.host_reference_ids.specs.Meant.{request_row, response_row};

use base_answers::Refusal;
use field_reference_ids::request::ReferenceIdRequest;
use field_reference_ids::{request, response};
use host::NtpLength;

// What is told of a request: 0 and its payload length and offset, or the number of a refusal.
#[repr(C)]
#[derive(Clone, Copy)]
pub struct NtpRequest {
    pub number: usize,
    pub payload_len: usize,
    // Where the payload starts in the server's filter.
    pub filter_offset: usize,
}

fn request_row(answer: Result<ReferenceIdRequest, Refusal>) -> NtpRequest
    ensures { result ≡ request_row answer }
{
    match answer {
        Err(refusal) => NtpRequest {
            number: host::number_of(refusal),
            payload_len: 0,
            filter_offset: 0,
        },
        Ok(request) => NtpRequest {
            number: 0,
            payload_len: request.payload_len as usize,
            filter_offset: request.offset as usize,
        },
    }
}

fn asking(payload_len: u16, filter_offset: u16) -> ReferenceIdRequest
    ensures { result ≡ asking payload_len filter_offset }
{
    ReferenceIdRequest {
        payload_len,
        offset: filter_offset,
    }
}

// Whether a request may be sent (`request::new`).
pub fn request_new(payload_len: u16, filter_offset: u16) -> NtpRequest
    ensures { result ≡ request_row (request_new payload_len filter_offset) }
{
    request_row(request::new(payload_len, filter_offset))
}

// The request that a field's message is (`request::decode`).
pub fn request_read(message: &[u8]) -> NtpRequest
    ensures { result ≡ request_row (request_read message.now) }
{
    request_row(request::decode(message))
}

// Writes a request as a field from `at` on (`request::serialize`).
pub fn request_write(payload_len: u16, filter_offset: u16, out: &mut [u8], at: usize) -> NtpLength
    ensures { leaving result out.new ≡ of_write (request_write payload_len filter_offset out.old at) }
{
    host::length_row(request::serialize(asking(payload_len, filter_offset), out, at))
}

// Whether bytes may be sent as a response, and how many they are (`response::new`).
pub fn response_new(bytes: &[u8]) -> NtpLength
    ensures { result ≡ response_row (response_new bytes.now) }
{
    host::length_row(response::new(bytes))
}

// Whether the part of a filter that is asked for lies inside it (`request::to_response`): it starts at the
// request's offset.
pub fn response_cut(payload_len: u16, filter_offset: u16, filter: &[u8]) -> NtpLength
    ensures { result ≡ response_row (response_cut payload_len filter_offset filter.now) }
{
    host::length_row(request::to_response(asking(payload_len, filter_offset), filter))
}

// Writes a response as a field from `at` on (`response::serialize`).
pub fn response_write(bytes: &[u8], out: &mut [u8], at: usize) -> NtpLength
    ensures { leaving result out.new ≡ of_write (response_write bytes.now out.old at) }
{
    host::length_row(response::serialize(bytes, out, at))
}

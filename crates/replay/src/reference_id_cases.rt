// docs/REPLAY.md, "Reference ids".
use crate::answers::{Answers, Bytes};
use crate::buffers::Buffers;
use crate::words::Words;
use base_answers::Refusal;
use field_reference_ids::request::ReferenceIdRequest;
use field_reference_ids::{request, response};

fn put_request(answers: &mut Answers, made: Result<ReferenceIdRequest, Refusal>) {
    match made {
        Ok(request) => {
            answers.print(format_args!("0 {} {}", request.payload_len, request.offset));
        }
        Err(refusal) => answers.refused(refusal),
    }
}

// request-new PAYLOAD OFFSET
pub(crate) fn request_new(words: &mut Words, answers: &mut Answers) -> Option<()> {
    let payload_len = words.number()?;
    let offset = words.number()?;
    words.end()?;
    put_request(answers, request::new(payload_len, offset));
    Some(())
}

// request-read MESSAGE
pub(crate) fn request_read(
    words: &mut Words,
    buffers: &mut Buffers,
    answers: &mut Answers,
) -> Option<()> {
    let message = words.bytes(&mut buffers.given)?;
    words.end()?;
    put_request(answers, request::decode(message));
    Some(())
}

// The words PAYLOAD OFFSET.
fn request_of(words: &mut Words) -> Option<ReferenceIdRequest> {
    Some(ReferenceIdRequest {
        payload_len: words.number()?,
        offset: words.number()?,
    })
}

// request-write PAYLOAD OFFSET AT OUT
pub(crate) fn request_write(
    words: &mut Words,
    buffers: &mut Buffers,
    answers: &mut Answers,
) -> Option<()> {
    let request = request_of(words)?;
    let at = words.number()?;
    let out = words.bytes(&mut buffers.lent)?;
    words.end()?;
    let written = request::serialize(request, out, at);
    answers.written(written, out);
    Some(())
}

// response-new BYTES
pub(crate) fn response_new(
    words: &mut Words,
    buffers: &mut Buffers,
    answers: &mut Answers,
) -> Option<()> {
    let bytes = words.bytes(&mut buffers.given)?;
    words.end()?;
    match response::new(bytes) {
        Ok(len) => answers.print(format_args!("0 {len}")),
        Err(refusal) => answers.refused(refusal),
    }
    Some(())
}

// response-cut PAYLOAD OFFSET FILTER
pub(crate) fn response_cut(
    words: &mut Words,
    buffers: &mut Buffers,
    answers: &mut Answers,
) -> Option<()> {
    let request = request_of(words)?;
    let filter = words.bytes(&mut buffers.given)?;
    words.end()?;
    match request::to_response(request, filter) {
        Ok(_) => {
            let bytes = Bytes(request::response_bytes(request, filter));
            answers.print(format_args!("0 {bytes}"));
        }
        Err(refusal) => answers.refused(refusal),
    }
    Some(())
}

// response-read MESSAGE
pub(crate) fn response_read(
    words: &mut Words,
    buffers: &mut Buffers,
    answers: &mut Answers,
) -> Option<()> {
    let message = words.bytes(&mut buffers.given)?;
    words.end()?;
    let bytes = Bytes(response::decode(message));
    answers.print(format_args!("0 {bytes}"));
    Some(())
}

// response-write BYTES AT OUT
pub(crate) fn response_write(
    words: &mut Words,
    buffers: &mut Buffers,
    answers: &mut Answers,
) -> Option<()> {
    let bytes = words.bytes(&mut buffers.given)?;
    let at = words.number()?;
    let out = words.bytes(&mut buffers.lent)?;
    words.end()?;
    let written = response::serialize(bytes, out, at);
    answers.written(written, out);
    Some(())
}

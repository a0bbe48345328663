// docs/REPLAY.md, "Leaves".
use crate::answers::Answers;
use crate::buffers::Buffers;
use crate::words::Words;
use field_frame::Frame;
use field_kinds::Kind;

// round N
pub(crate) fn round(words: &mut Words, answers: &mut Answers) -> Option<()> {
    let number = words.number()?;
    words.end()?;
    let rounded = base_rounding::next_multiple_of_four(number);
    answers.print(format_args!("0 {rounded}"));
    Some(())
}

pub(crate) fn name_of(kind: Kind) -> &'static str {
    match kind {
        Kind::Unknown => "Unknown",
        Kind::UniqueIdentifier => "UniqueIdentifier",
        Kind::NtsCookie => "NtsCookie",
        Kind::NtsCookiePlaceholder => "NtsCookiePlaceholder",
        Kind::NtsEncryptedField => "NtsEncryptedField",
        Kind::InvalidNtsEncryptedField => "InvalidNtsEncryptedField",
        Kind::DraftIdentification => "DraftIdentification",
        Kind::ReferenceIdRequest => "ReferenceIdRequest",
        Kind::ReferenceIdResponse => "ReferenceIdResponse",
    }
}

// kind VERSION TYPE
pub(crate) fn kind(words: &mut Words, answers: &mut Answers) -> Option<()> {
    let version = words.version()?;
    let type_id = words.number()?;
    words.end()?;
    let name = name_of(field_kinds::from_type_id(type_id, version));
    answers.print(format_args!("0 {name}"));
    Some(())
}

// frame VERSION AT BYTES
pub(crate) fn frame(words: &mut Words, buffers: &mut Buffers, answers: &mut Answers) -> Option<()> {
    let version = words.version()?;
    let at = words.number()?;
    let bytes = words.bytes(&mut buffers.given)?;
    words.end()?;
    match field_frame::frame_at(bytes, at, version) {
        Ok(frame) => {
            let Frame {
                type_id,
                message_len,
                wire_length,
            } = frame;
            answers.print(format_args!("0 {type_id} {message_len} {wire_length}"));
        }
        Err(refusal) => answers.refused(refusal),
    }
    Some(())
}

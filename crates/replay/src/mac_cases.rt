// docs/REPLAY.md, "MAC".
use crate::answers::{Answers, Bytes};
use crate::buffers::Buffers;
use crate::words::Words;

// mac-read BYTES
pub(crate) fn read(words: &mut Words, buffers: &mut Buffers, answers: &mut Answers) -> Option<()> {
    let bytes = words.bytes(&mut buffers.given)?;
    words.end()?;
    match mac::deserialize(bytes) {
        Ok(read) => {
            let body = Bytes(mac::body(bytes));
            answers.print(format_args!("0 {} {body}", read.keyid));
        }
        Err(refusal) => answers.refused(refusal),
    }
    Some(())
}

// mac-write KEYID BODY AT OUT
pub(crate) fn write(words: &mut Words, buffers: &mut Buffers, answers: &mut Answers) -> Option<()> {
    let keyid = words.number()?;
    let body = words.bytes(&mut buffers.given)?;
    let at = words.number()?;
    let out = words.bytes(&mut buffers.lent)?;
    words.end()?;
    let written = mac::serialize(keyid, body, out, at);
    answers.written(written, out);
    Some(())
}

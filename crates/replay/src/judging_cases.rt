// docs/REPLAY.md, "Judging a cut".
use crate::answers::Answers;
use crate::buffers::Buffers;
use crate::words::Words;

// judge VERSION HEADER PACKET OFFSETS LENGTHS
pub(crate) fn judge(words: &mut Words, buffers: &mut Buffers, answers: &mut Answers) -> Option<()> {
    let version = words.version()?;
    let header_len = words.number()?;
    let packet = words.bytes(&mut buffers.given)?;
    let offsets = &mut buffers.lists.starts;
    let lengths = &mut buffers.lists.lens;
    words.numbers(offsets)?;
    words.numbers(lengths)?;
    words.end()?;
    let is_cut = judge::is_cut(
        packet,
        header_len,
        version,
        offsets.as_slice(),
        lengths.as_slice(),
    );
    answers.print(if is_cut { "yes" } else { "no" });
    Some(())
}

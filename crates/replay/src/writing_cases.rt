// docs/REPLAY.md, "Writing".
use crate::answers::{Answers, Bytes};
use crate::buffers::{Buffers, Lists};
use crate::words::Words;
use base_answers::Refusal;
use base_version::Version;
use write_list::FieldsToWrite;
use write_stage_one::StageOne;

// No output has more, and so no plaintext.
const LONGEST: usize = 65535;

// What a line says of both stages.
#[derive(Clone, Copy)]
struct Stages<'a> {
    version: Version,
    has_cipher: bool,
    nonce: &'a [u8],
    ciphertext: &'a [u8],
    // The fields, and how many each list has.
    lists: &'a Lists,
    authenticated: usize,
    encrypted: usize,
    untrusted: usize,
    data: &'a [u8],
}

// The last `count` entries of a column.
fn last<T>(column: &[T], count: usize) -> &[T] {
    &column[column.len().saturating_sub(count)..]
}

impl Stages<'_> {
    fn one(&self, out: &mut [u8], at: usize, plain: &mut [u8]) -> Result<StageOne, Refusal> {
        write_stage_one::stage_one(
            out,
            at,
            plain,
            &FieldsToWrite {
                kinds: self.lists.kinds.as_slice(),
                numbers: self.lists.numbers.as_slice(),
                starts: self.lists.starts.as_slice(),
                lens: self.lists.lens.as_slice(),
                data: self.data,
            },
            self.version,
            self.has_cipher,
            self.authenticated,
            self.encrypted,
        )
    }

    fn two(&self, out: &mut [u8], at: usize) -> Result<usize, Refusal> {
        write_stage_two::stage_two(
            out,
            at,
            self.authenticated != 0 || self.encrypted != 0,
            self.nonce,
            self.ciphertext,
            &FieldsToWrite {
                kinds: last(self.lists.kinds.as_slice(), self.untrusted),
                numbers: last(self.lists.numbers.as_slice(), self.untrusted),
                starts: last(self.lists.starts.as_slice(), self.untrusted),
                lens: last(self.lists.lens.as_slice(), self.untrusted),
                data: self.data,
            },
            self.version,
            self.untrusted,
        )
    }

    // How many bytes both stages wrote to the output, and the first one to the plaintext.
    fn both(&self, out: &mut [u8], at: usize, plain: &mut [u8]) -> Result<(usize, usize), Refusal> {
        let first = self.one(out, at, plain)?;
        let count = self.two(out, at.wrapping_add(first.output_len))?;
        Ok((first.output_len.wrapping_add(count), first.plaintext_len))
    }

    // Both stages, with the line's ciphertext for the plaintext that the first one wrote.
    fn put(&self, out: &mut [u8], at: usize, answers: &mut Answers) {
        let mut plain = [0; LONGEST];
        match self.both(out, at, &mut plain) {
            Ok((count, plaintext_len)) => {
                let plain = Bytes(&plain[..plaintext_len.min(LONGEST)]);
                let out = Bytes(out);
                answers.print(format_args!("0 {count} {plain} {out}"));
            }
            Err(refusal) => answers.written(Err(refusal), out),
        }
    }
}

// write VERSION CIPHER NONCE CIPHERTEXT AT OUT AUTHENTICATED ENCRYPTED UNTRUSTED
pub(crate) fn write(words: &mut Words, buffers: &mut Buffers, answers: &mut Answers) -> Option<()> {
    let version = words.version()?;
    let has_cipher = words.flag()?;
    let given = &mut buffers.given;
    given.clear();
    let nonce_len = words.more_bytes(given)?;
    let ciphertext_len = words.more_bytes(given)?;
    let at = words.number()?;
    let out = words.bytes(&mut buffers.lent)?;
    let lists = &mut buffers.lists;
    lists.clear();
    let authenticated = lists.take_fields(words, given)?;
    let encrypted = lists.take_fields(words, given)?;
    let untrusted = lists.take_fields(words, given)?;
    words.end()?;
    let data = given.as_slice();
    let (nonce, behind) = data.split_at_checked(nonce_len)?;
    let stages = Stages {
        version,
        has_cipher,
        nonce,
        ciphertext: behind.get(..ciphertext_len)?,
        lists,
        authenticated,
        encrypted,
        untrusted,
        data,
    };
    stages.put(out, at, answers);
    Some(())
}

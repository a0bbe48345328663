// docs/REPLAY.md, "The journal".
use crate::answers::{Answers, Bytes};
use crate::buffers::Buffers;
use crate::words::Words;
use base_answers::Refusal;
use journal::{Found, Start, Store};
use std::fmt;
use std::fmt::{Display, Formatter};

// An entry of the list of entries. Its last part is the body that the library hands back, so that a wrong part of
// the image shows in the answer.
#[derive(Clone, Copy)]
struct Listed<'a> {
    kind: u16,
    entry_offset: usize,
    body: &'a [u8],
}

impl Display for Listed<'_> {
    fn fmt<W: fmt::Write>(&self, f: &mut Formatter<W>) -> fmt::Result {
        write!(
            f,
            "{}:{}:{}",
            self.kind,
            self.entry_offset,
            Bytes(self.body)
        )
    }
}

fn entry_of<'a>(image: &'a [u8], index: usize) -> Option<Listed<'a>> {
    let entry = journal::entry(image, index)?;
    Some(Listed {
        kind: entry.kind,
        entry_offset: entry.entry_offset,
        body: journal::body(image, index),
    })
}

// journal-find IMAGE
pub(crate) fn find(words: &mut Words, buffers: &mut Buffers, answers: &mut Answers) -> Option<()> {
    let image = &*words.bytes(&mut buffers.given)?;
    words.end()?;
    match journal::find(image) {
        Ok(found) => {
            answers.print(format_args!("0 {} {}", found.next_offset, found.torn_len));
            answers.list((0..found.entry_count).filter_map(|index| entry_of(image, index)));
        }
        Err(refusal) => answers.refused(refusal),
    }
    Some(())
}

// The two numbers of an answer about an image, and the image as it was left.
fn put_two(answers: &mut Answers, told: Result<(usize, usize), Refusal>, image: &[u8]) {
    match told {
        Ok((first, second)) => answers.print(format_args!("0 {first} {second}")),
        Err(refusal) => answers.refused(refusal),
    }
    answers.print(format_args!(" {}", Bytes(image)));
}

// Where an append began and by how many stores, or why there was none.
fn put_start(answers: &mut Answers, start: Result<Start, Refusal>, image: &[u8]) {
    let told = start.map(|start| (start.entry_offset, start.store_count));
    put_two(answers, told, image);
}

// journal-append KIND BODY IMAGE
pub(crate) fn append(
    words: &mut Words,
    buffers: &mut Buffers,
    answers: &mut Answers,
) -> Option<()> {
    let kind = words.number()?;
    let body = words.bytes(&mut buffers.given)?;
    let image = words.bytes(&mut buffers.lent)?;
    words.end()?;
    let start = journal::append(image, kind, body);
    put_start(answers, start, image);
    Some(())
}

// Performs the first `cut` stores, one by one, or all if there are fewer.
fn perform<F: Fn(usize) -> Option<Store>>(image: &mut [u8], cut: usize, store_at: F)
where
    F: Drop,
    requires { F.IsAlwaysCallable store_at }
{
    for index in 0..cut {
        let store = store_at(index);
        if store.is_none() {
            return;
        }
        journal::store_one(image, store);
    }
}

// journal-append-cut KIND BODY CUT IMAGE
pub(crate) fn append_cut(
    words: &mut Words,
    buffers: &mut Buffers,
    answers: &mut Answers,
) -> Option<()> {
    let kind = words.number()?;
    let body = &*words.bytes(&mut buffers.given)?;
    let cut = words.number()?;
    let image = words.bytes(&mut buffers.lent)?;
    words.end()?;
    let start = journal::start_append(image, kind, body);
    if let Ok(start) = start {
        perform(image, cut, |index| {
            journal::append_store(start.entry_offset, kind, body, index)
        });
    }
    put_start(answers, start, image);
    Some(())
}

// Where a recovery found the end and how many bytes were torn, or why there was none.
fn put_found(answers: &mut Answers, found: Result<Found, Refusal>, image: &[u8]) {
    let told = found.map(|found| (found.next_offset, found.torn_len));
    put_two(answers, told, image);
}

// journal-recover IMAGE
pub(crate) fn recover(
    words: &mut Words,
    buffers: &mut Buffers,
    answers: &mut Answers,
) -> Option<()> {
    let image = words.bytes(&mut buffers.lent)?;
    words.end()?;
    let found = journal::recover(image);
    put_found(answers, found, image);
    Some(())
}

// journal-recover-cut CUT IMAGE
pub(crate) fn recover_cut(
    words: &mut Words,
    buffers: &mut Buffers,
    answers: &mut Answers,
) -> Option<()> {
    let cut = words.number()?;
    let image = words.bytes(&mut buffers.lent)?;
    words.end()?;
    let found = journal::find(image);
    if let Ok(found) = found {
        perform(image, cut, |index| {
            journal::recovery_store(found.next_offset, found.torn_len, index)
        });
    }
    put_found(answers, found, image);
    Some(())
}

fn put_store(answers: &mut Answers, store: Option<Store>) {
    match store {
        Some(store) => answers.print(format_args!("0 {} {}", store.offset, store.byte)),
        None => answers.refused(Refusal::CannotBeMade),
    }
}

// journal-store-append OFFSET KIND BODY K
pub(crate) fn append_store(
    words: &mut Words,
    buffers: &mut Buffers,
    answers: &mut Answers,
) -> Option<()> {
    let offset = words.number()?;
    let kind = words.number()?;
    let body = words.bytes(&mut buffers.given)?;
    let index = words.number()?;
    words.end()?;
    put_store(answers, journal::append_store(offset, kind, body, index));
    Some(())
}

// journal-store-recovery NEXT TORN K
pub(crate) fn recovery_store(words: &mut Words, answers: &mut Answers) -> Option<()> {
    let next_offset = words.number()?;
    let torn_len = words.number()?;
    let index = words.number()?;
    words.end()?;
    put_store(
        answers,
        journal::recovery_store(next_offset, torn_len, index),
    );
    Some(())
}

// journal-body NUMBER AUTHENTICATED UNTRUSTED ENCRYPTED AT OUT
pub(crate) fn body(words: &mut Words, buffers: &mut Buffers, answers: &mut Answers) -> Option<()> {
    let number = words.number()?;
    let authenticated = words.number()?;
    let untrusted = words.number()?;
    let encrypted = words.number()?;
    let at = words.number()?;
    let out = words.bytes(&mut buffers.lent)?;
    words.end()?;
    let written = journal_body::write_counts(number, authenticated, untrusted, encrypted, out, at);
    answers.written(written, out);
    Some(())
}

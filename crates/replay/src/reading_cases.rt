// docs/REPLAY.md, "Reading".
use crate::answers::{Answers, Bytes};
use crate::buffers::{Buffers, Lists};
use crate::leaf_cases;
use crate::words::Words;
use base_answers::Refusal;
use base_version::Version;
use read_entries::{CAPACITY, Table};
use read_opening::LentResults;
use read_packet::Read;
use read_records::{Record, Trust};
use read_survey::Seal;
use std::fmt;
use std::fmt::{Display, Formatter};

// An entry of a list of fields. Its last part is the message that the library hands back, so that a wrong part of a
// buffer shows in the answer.
#[derive(Clone, Copy)]
struct Listed<'a> {
    record: Record,
    message: &'a [u8],
}

fn trust_letter(trust: Trust) -> char {
    match trust {
        Trust::Untrusted => 'u',
        Trust::Authenticated => 'a',
        Trust::Encrypted => 'e',
    }
}

impl Display for Listed<'_> {
    fn fmt<W: fmt::Write>(&self, f: &mut Formatter<W>) -> fmt::Result {
        let record = self.record;
        let kind = leaf_cases::name_of(record.kind);
        let trust = trust_letter(record.trust);
        write!(f, "{kind}:{}:{}", record.type_id, record.field_offset)?;
        write!(f, ":{}:{}", record.message_len, record.wire_length)?;
        write!(f, ":{trust}:{}", Bytes(self.message))
    }
}

// What was read.
#[derive(Clone, Copy)]
struct Reading<'a> {
    version: Version,
    packet: &'a [u8],
    // Where the plaintext of each sealed field starts in `plain`.
    starts: &'a [usize],
    plain: &'a [u8],
    outer: Table,
    inner: Table,
}

impl Reading<'_> {
    fn with_message(&self, record: Record) -> Listed<'_> {
        Listed {
            record,
            message: read_records::message_bytes(self.packet, self.plain, record),
        }
    }

    // Further words: the lists of outer items, the authenticated ones first, and of inner fields.
    fn put_lists(
        &self,
        answers: &mut Answers,
        authenticated: usize,
        untrusted: usize,
        encrypted: usize,
    ) {
        let items = authenticated.wrapping_add(untrusted);
        answers.list(
            self.outer.iter().take(items).enumerate().map(|(place, entry)| {
                let trust = if place < authenticated {
                    Trust::Authenticated
                } else {
                    Trust::Untrusted
                };
                self.with_message(read_records::outer_record(*entry, self.version, trust))
            }),
        );
        answers.list(
            self.inner.iter().take(encrypted).map(|entry| {
                self.with_message(read_records::inner_record(*entry, self.version, self.starts))
            }),
        );
    }

    fn put(&self, answers: &mut Answers, read: Read) {
        match read {
            Read::Accepted {
                authenticated_count,
                untrusted_count,
                encrypted_count,
                remainder_len,
                cookie,
            } => {
                answers.print('0');
                self.put_lists(
                    answers,
                    authenticated_count,
                    untrusted_count,
                    encrypted_count,
                );
                answers.print(format_args!(" {remainder_len}"));
                match cookie {
                    None => answers.print(" -"),
                    Some(number) => answers.print(format_args!(" {number}")),
                }
            }
            Read::DecryptError {
                authenticated_count,
                untrusted_count,
                encrypted_count,
                remainder_len,
            } => {
                answers.refused(Refusal::DecryptError);
                self.put_lists(
                    answers,
                    authenticated_count,
                    untrusted_count,
                    encrypted_count,
                );
                answers.print(format_args!(" {remainder_len} -"));
            }
            Read::Refused {
                refusal,
                field_offset,
            } => {
                answers.refused(refusal);
                answers.print(format_args!(" {field_offset}"));
            }
        }
    }
}

// The list RESULTS: an entry `VERDICT:START:LENGTH` for each sealed field. No verdict over 255 has a meaning, and
// 255 has none either.
fn take_results(words: &mut Words, lists: &mut Lists) -> Option<()> {
    lists.clear();
    let mut list = words.list()?;
    while list.has_more() {
        let verdict = u8::try_from(list.next_to(b':')?).unwrap_or(255);
        lists.verdicts.try_push(verdict).ok()?;
        lists.starts.try_push(list.next_to(b':')?).ok()?;
        lists.lens.try_push(list.next_to(b',')?).ok()?;
    }
    Some(())
}

// read VERSION HEADER PACKET RESULTS PLAIN
pub(crate) fn read(words: &mut Words, buffers: &mut Buffers, answers: &mut Answers) -> Option<()> {
    let version = words.version()?;
    let header_len = words.number()?;
    let packet = words.bytes(&mut buffers.given)?;
    take_results(words, &mut buffers.lists)?;
    let plain = words.bytes(&mut buffers.lent)?;
    words.end()?;
    let lists = &buffers.lists;
    let starts = lists.starts.as_slice();
    let mut outer = [0; CAPACITY];
    let mut inner = [0; CAPACITY];
    let read = read_packet::deserialize(
        packet,
        header_len,
        version,
        &LentResults {
            verdicts: lists.verdicts.as_slice(),
            starts,
            lens: lists.lens.as_slice(),
            plain,
        },
        &mut outer,
        &mut inner,
    );
    let reading = Reading {
        version,
        packet,
        starts,
        plain,
        outer,
        inner,
    };
    reading.put(answers, read);
    Some(())
}

// An entry of a list of sealed fields.
#[derive(Clone, Copy)]
struct ListedSeal(Seal);

impl Display for ListedSeal {
    fn fmt<W: fmt::Write>(&self, f: &mut Formatter<W>) -> fmt::Result {
        let seal = self.0;
        write!(f, "{}:{}", seal.nonce_offset, seal.nonce_len)?;
        write!(f, ":{}:{}", seal.ciphertext_offset, seal.ciphertext_len)?;
        write!(f, ":{}", seal.associated_data_len)
    }
}

fn put_seals(answers: &mut Answers, table: &Table, seal_count: usize) {
    answers.list(
        table
            .iter()
            .take(seal_count)
            .map(|entry| ListedSeal(read_survey::seal_of(*entry))),
    );
}

// survey VERSION HEADER PACKET
pub(crate) fn survey(
    words: &mut Words,
    buffers: &mut Buffers,
    answers: &mut Answers,
) -> Option<()> {
    let version = words.version()?;
    let header_len = words.number()?;
    let packet = words.bytes(&mut buffers.given)?;
    words.end()?;
    let mut table = [0; CAPACITY];
    match read_survey::survey(packet, header_len, version, &mut table) {
        Ok(seal_count) => {
            answers.print("0 0");
            put_seals(answers, &table, seal_count);
        }
        Err(fault) => {
            answers.refused(fault.refusal);
            answers.print(format_args!(" {}", fault.field_offset));
            put_seals(answers, &table, fault.seal_count);
        }
    }
    Some(())
}

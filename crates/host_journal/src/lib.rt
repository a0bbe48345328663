// The journal: what an image holds, and each store of an append and of a recovery.
#![tactic(auto)]

ghost use Rattle.std.specs.Prelude.{◌≡◌, Some};
ghost use Rattle.journal.specs.Meant.{stored, store_at, append_store, recovery_store};
ghost use Rattle.journal.specs.Model.{found_in, entry_in, start_in, append_in, recover_in};
ghost use Rattle.journal_body.specs.Meant.{counts_write};
ghost use Rattle.host.specs.Meant.{leaving, of_write};
ghost use Rattle.host_journal.specs.Meant.{found_row, start_row, store_row, entry_row, of_recovery, of_append};

use base_answers::Refusal;
use host::NtpLength;
use journal::{EntryRead, Found, Start, Store};

// What an image holds: 0 and how many entries, where the next append may start, and how many bytes from there on
// are a torn tail; or the number of a refusal.
#[repr(C)]
#[derive(Clone, Copy)]
pub struct NtpJournalFound {
    pub number: usize,
    pub entry_count: usize,
    pub next_offset: usize,
    pub torn_len: usize,
}

// Where an entry goes: 0 and its place and the number of its stores, or the number of a refusal.
#[repr(C)]
#[derive(Clone, Copy)]
pub struct NtpJournalStart {
    pub number: usize,
    pub entry_offset: usize,
    pub store_count: usize,
}

// One byte to store: 0 and where it goes, or 18 if there is no such store.
#[repr(C)]
#[derive(Clone, Copy)]
pub struct NtpJournalStore {
    pub number: usize,
    pub offset: usize,
    pub byte: usize,
}

// An entry: 0 and its kind, its place and that of its body; or 18 if there is no such entry.
#[repr(C)]
#[derive(Clone, Copy)]
pub struct NtpJournalEntry {
    pub number: usize,
    pub kind: usize,
    pub entry_offset: usize,
    pub body_offset: usize,
    pub body_len: usize,
}

fn found_row(answer: Result<Found, Refusal>) -> NtpJournalFound
    ensures { result ≡ found_row answer }
{
    match answer {
        Err(refusal) => NtpJournalFound {
            number: host::number_of(refusal),
            entry_count: 0,
            next_offset: 0,
            torn_len: 0,
        },
        Ok(
            Found {
                entry_count,
                next_offset,
                torn_len,
            },
        ) => NtpJournalFound {
            number: 0,
            entry_count,
            next_offset,
            torn_len,
        },
    }
}

fn start_row(answer: Result<Start, Refusal>) -> NtpJournalStart
    ensures { result ≡ start_row answer }
{
    match answer {
        Err(refusal) => NtpJournalStart {
            number: host::number_of(refusal),
            entry_offset: 0,
            store_count: 0,
        },
        Ok(
            Start {
                entry_offset,
                store_count,
            },
        ) => NtpJournalStart {
            number: 0,
            entry_offset,
            store_count,
        },
    }
}

fn store_row(answer: Option<Store>) -> NtpJournalStore
    ensures { result ≡ store_row answer }
{
    match answer {
        None => NtpJournalStore {
            number: host::number_of(Refusal::CannotBeMade),
            offset: 0,
            byte: 0,
        },
        Some(Store { offset, byte }) => NtpJournalStore {
            number: 0,
            offset,
            byte: usize::from(byte),
        },
    }
}

// What an image holds (`journal::find`).
pub fn find(image: &[u8]) -> NtpJournalFound
    ensures { result ≡ found_row (found_in image.now) }
{
    found_row(journal::find(image))
}

// One store of a recovery (`journal::recovery_store`).
pub fn recovery_store(next_offset: usize, torn_len: usize, index: usize) -> NtpJournalStore
    ensures { result ≡ store_row (recovery_store next_offset torn_len index) }
{
    store_row(journal::recovery_store(next_offset, torn_len, index))
}

// Recovers an image, by all its stores (`journal::recover`).
pub fn recover(image: &mut [u8]) -> NtpJournalFound
    ensures { leaving result image.new ≡ of_recovery (recover_in image.old) }
{
    found_row(journal::recover(image))
}

// Where an entry would go (`journal::start_append`).
pub fn start_append(image: &[u8], kind: u16, body: &[u8]) -> NtpJournalStart
    ensures { result ≡ start_row (start_in image.now kind body.now) }
{
    start_row(journal::start_append(image, kind, body))
}

// One store of an entry (`journal::append_store`).
pub fn append_store(entry_offset: usize, kind: u16, body: &[u8], index: usize) -> NtpJournalStore
    ensures { result ≡ store_row (append_store entry_offset kind body.now index) }
{
    store_row(journal::append_store(entry_offset, kind, body, index))
}

// Appends an entry, by all its stores (`journal::append`).
pub fn append(image: &mut [u8], kind: u16, body: &[u8]) -> NtpJournalStart
    ensures { leaving result image.new ≡ of_append (append_in image.old kind body.now) }
{
    start_row(journal::append(image, kind, body))
}

// Performs one store (`journal::store_one`).
pub fn store_one(image: &mut [u8], offset: usize, byte: u8)
    ensures { image.new ≡ stored image.old (Some (store_at offset byte)) }
{
    journal::store_one(image, Some(Store { offset, byte }));
}

// Entry number `index`, from 0 on (`journal::entry`).
pub fn entry(image: &[u8], index: usize) -> NtpJournalEntry
    ensures { result ≡ entry_row (entry_in image.now index) }
{
    match journal::entry(image, index) {
        None => NtpJournalEntry {
            number: host::number_of(Refusal::CannotBeMade),
            kind: 0,
            entry_offset: 0,
            body_offset: 0,
            body_len: 0,
        },
        Some(
            EntryRead {
                kind,
                entry_offset,
                body_len,
            },
        ) => NtpJournalEntry {
            number: 0,
            kind: usize::from(kind),
            entry_offset,
            body_offset: entry_offset + 4,
            body_len,
        },
    }
}

// Writes the body of an entry about a read from `at` on (`journal_body::write_counts`).
pub fn read_body(
    number: usize,
    authenticated_count: usize,
    untrusted_count: usize,
    encrypted_count: usize,
    out: &mut [u8],
    at: usize,
) -> NtpLength
    ensures { leaving result out.new ≡ of_write (counts_write number authenticated_count untrusted_count encrypted_count out.old at) }
{
    host::length_row(journal_body::write_counts(
        number,
        authenticated_count,
        untrusted_count,
        encrypted_count,
        out,
        at,
    ))
}

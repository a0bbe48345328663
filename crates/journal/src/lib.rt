// A journal in a lent flash image (rules 24 of docs/RULES.md). An entry's two length bytes are stored last, so power
// may be lost after any store: what is found afterwards is whole. Each store is a call of its own, since a compiler
// may join the stores of a loop.
#![tactic(auto)]

ghost use Rattle.std.specs.Prelude.{◌≡◌, ◌+◌, ◌≤◌, ◌<◌, length, drop, get_or};
ghost use Rattle.journal.specs.Meant.{is_named, entry_of, entry_bytes, torn_len_of, store_at, inside_longest, append_store, recovery_store, stored, left};
ghost use Rattle.journal.specs.Model.{le16, whole_len, len_here, unless_zero, found_in, entry_in, body_in, start_in, place_of, append_in, recover_in};
ghost use Rattle.journal.specs.ModelWalk.{Passes};

use base_answers::Refusal;

// The longest image.
pub const LONGEST_IMAGE: usize = 32768;

// What blank flash holds, and how an entry ends.
const BLANK_BYTE: u8 = 0xFF;

const END_BYTE: u8 = 0xA5;

// What an image holds: how many entries, where the next append may start, and how many bytes after that place are a
// torn tail.
#[derive(Clone, Copy)]
pub struct Found {
    pub entry_count: usize,
    pub next_offset: usize,
    pub torn_len: usize,
}

// The place of an entry to append, and the number of its stores.
#[derive(Clone, Copy)]
pub struct Start {
    pub entry_offset: usize,
    pub store_count: usize,
}

// One byte to be stored.
#[derive(Clone, Copy)]
pub struct Store {
    pub offset: usize,
    pub byte: u8,
}

// An entry that was found: its kind, its place and the length of its body.
#[derive(Clone, Copy)]
pub struct EntryRead {
    pub kind: u16,
    pub entry_offset: usize,
    pub body_len: usize,
}

// How many entries were passed, and where the last of them ends.
#[derive(Clone, Copy)]
struct Passed {
    count: usize,
    offset: usize,
}

// The number of two bytes, the low one first.
fn number_at(image: &[u8], at: usize) -> u16
    requires { at + 2 ≤ length image.now }
    ensures { result ≡ le16 image.now at }
{
    u16::from_le_bytes([image[at], image[at + 1]])
}

// The length of a whole entry of a kind; none for a kind that is not named.
#[tactic(auto, unfolding(crate::specs::Model::whole_len))]
fn whole_len(kind: u16) -> Option<usize>
    ensures { result ≡ unless_zero (whole_len kind) }
{
    match kind {
        1 => Some(9),
        2 => Some(53),
        _ => None,
    }
}

// The length of the entry that stands at a place, if one does.
fn len_at(image: &[u8], at: usize) -> Option<usize>
    requires { at ≤ length image.now }
    ensures { result ≡ unless_zero (len_here (drop at image.now)) }
{
    let available = image.len() - at;
    if available < 9 {
        return None;
    }
    let len = whole_len(number_at(image, at + 2))?;
    if available < len {
        return None;
    }
    if usize::from(number_at(image, at)) != len {
        return None;
    }
    if image[at + (len - 1)] != END_BYTE {
        return None;
    }
    Some(len)
}

// Passes so many entries from the first on, or all if there are fewer.
fn pass(image: &[u8], most: usize) -> Passed
    ensures { Passes image.now most result }
{
    let mut offset = 0;
    for count in 0..most {
        let Some(len) = len_at(image, offset) else {
            return Passed { count, offset };
        };
        offset += len;
    }
    Passed {
        count: most,
        offset,
    }
}

// How many bytes stand from a place on, up to the last that is not blank.
fn torn_from(image: &[u8], at: usize) -> usize
    requires { at ≤ length image.now }
    ensures { result ≡ torn_len_of (drop at image.now) }
{
    for last in (at..image.len()).rev() {
        if image[last] != BLANK_BYTE {
            return last - at + 1;
        }
    }
    0
}

// What stands in an image. Nothing is changed.
pub fn find(image: &[u8]) -> Result<Found, Refusal>
    ensures { result ≡ found_in image.now }
{
    if LONGEST_IMAGE < image.len() {
        return Err(Refusal::PacketTooLong);
    }
    let passed = pass(image, image.len());
    let torn_len = torn_from(image, passed.offset);
    Ok(Found {
        entry_count: passed.count,
        next_offset: passed.offset,
        torn_len,
    })
}

// Entry number `index`, from 0 on.
pub fn entry(image: &[u8], index: usize) -> Option<EntryRead>
    ensures { result ≡ entry_in image.now index }
{
    let entry_offset = pass(image, index).offset;
    let len = len_at(image, entry_offset)?;
    let kind = number_at(image, entry_offset + 2);
    Some(EntryRead {
        kind,
        entry_offset,
        body_len: len - 5,
    })
}

// Its body, as a part of the image; none where there is no such entry.
pub fn body(image: &[u8], index: usize) -> &[u8]
    ensures { result.now ≡ body_in image.now index }
{
    match entry(image, index) {
        None => &image[..0],
        Some(read) => {
            let start = read.entry_offset + 4;
            &image[start..start + read.body_len]
        }
    }
}

// The kinds that are named, and how long the body of each is.
fn is_named(kind: u16, body_len: usize) -> bool
    ensures { result ≡ is_named kind body_len }
{
    match kind {
        1 => body_len == 4,
        2 => body_len == 48,
        _ => false,
    }
}

// Where an append would store its entry, after the last one found, and by how many stores. Nothing is changed.
pub fn start_append(image: &[u8], kind: u16, body: &[u8]) -> Result<Start, Refusal>
    ensures { result ≡ start_in image.now kind body.now }
{
    if LONGEST_IMAGE < image.len() {
        return Err(Refusal::PacketTooLong);
    }
    if !is_named(kind, body.len()) {
        return Err(Refusal::CannotBeMade);
    }
    let store_count = body.len() + 5;
    let entry_offset = pass(image, image.len()).offset;
    if image.len() - entry_offset < store_count {
        return Err(Refusal::NoRoom);
    }
    Ok(Start {
        entry_offset,
        store_count,
    })
}

// Which byte of an entry of `len` bytes store number `index` is: the length's two bytes come last, high before low.
#[tactic(auto, unfolding(crate::specs::Model::place_of))]
fn place_of(index: usize, len: usize) -> usize
    requires { (index < len) × (5 ≤ len) × (len ≤ 53) }
    ensures { result ≡ place_of index len }
{
    if index + 2 < len {
        index + 2
    } else {
        len - 1 - index
    }
}

// A byte of an entry.
fn byte_of(kind: u16, body: &[u8], place: usize) -> u8
    requires { (length body.now ≤ 48) × (place < length body.now + 5) }
    ensures { result ≡ get_or (entry_bytes (entry_of kind body.now)) place 0 }
{
    let len = body.len() + 5;
    let [len_low, len_high] = (len as u16).to_le_bytes();
    let [kind_low, kind_high] = kind.to_le_bytes();
    match place {
        0 => len_low,
        1 => len_high,
        2 => kind_low,
        3 => kind_high,
        _ => if place - 4 < body.len() {
            body[place - 4]
        } else {
            END_BYTE
        },
    }
}

// A store, if it lies inside the longest image.
fn inside(start: usize, place: usize, byte: u8) -> Option<Store>
    ensures { result ≡ inside_longest (store_at (start + place) byte) }
{
    // In place of a checked sum, with which a recovery takes longer.
    if LONGEST_IMAGE <= start {
        return None;
    }
    if LONGEST_IMAGE - start <= place {
        return None;
    }
    Some(Store {
        offset: start + place,
        byte,
    })
}

// Store number `index`, from 0 on, of an entry that goes to a place.
pub fn append_store(entry_offset: usize, kind: u16, body: &[u8], index: usize) -> Option<Store>
    ensures { result ≡ append_store entry_offset kind body.now index }
{
    if !is_named(kind, body.len()) {
        return None;
    }
    let len = body.len() + 5;
    if len <= index {
        return None;
    }
    let place = place_of(index, len);
    inside(entry_offset, place, byte_of(kind, body, place))
}

// Store number `index`, from 0 on, of a recovery: it erases from the last byte back.
#[tactic(auto, using(crate::specs::LawsPlans::past_torn, crate::specs::LawsPlans::one_erased))]
pub fn recovery_store(next_offset: usize, torn_len: usize, index: usize) -> Option<Store>
    ensures { result ≡ recovery_store next_offset torn_len index }
{
    if torn_len <= index {
        return None;
    }
    inside(next_offset, torn_len - 1 - index, BLANK_BYTE)
}

// Performs one store. None, or one outside the image, changes nothing.
pub fn store_one(image: &mut [u8], store: Option<Store>)
    ensures { image.new ≡ stored image.old store }
{
    if let Some(Store { offset, byte }) = store {
        if offset < image.len() {
            image[offset] = byte;
        }
    }
}

// Appends an entry: all its stores.
pub fn append(image: &mut [u8], kind: u16, body: &[u8]) -> Result<Start, Refusal>
    ensures { left result image.new ≡ append_in image.old kind body.now }
{
    let start = start_append(image, kind, body)?;
    for index in 0..start.store_count {
        store_one(image, append_store(start.entry_offset, kind, body, index));
    }
    Ok(start)
}

// Recovers an image: finds its entries and erases the torn tail.
pub fn recover(image: &mut [u8]) -> Result<Found, Refusal>
    ensures { left result image.new ≡ recover_in image.old }
{
    let found = find(image)?;
    for index in 0..found.torn_len {
        store_one(
            image,
            recovery_store(found.next_offset, found.torn_len, index),
        );
    }
    Ok(found)
}

// A look at the image of a journal (rules 24 of docs/RULES.md): its entries, where the next append may start, and the
// torn tail.
use crate::counts::{Count, Place};
use crate::given::Given;
use crate::header::HEADER;
use crate::headers::Header;
use crate::verdicts::Answer;
use crate::{lines, parts};
use base_answers::Refusal;
use journal::LONGEST_IMAGE;
use std::rt::Stdout;

// The body of an entry stands after its length and its kind, two bytes each; the end byte follows it.
const BEFORE_BODY: usize = 4;

const AROUND_BODY: usize = 5;

// A cut append leaves a torn tail of at most 53 bytes, so all of it is shown. Of a longer one so many bytes are.
const SHOWN_TAIL: usize = 128;

// An entry about a read: its answer, and the counts of the three lists, each in a byte of its own.
fn show_read(out: Stdout, body: &[u8]) {
    let authenticated = base_big_endian::be8(body, 1);
    let untrusted = base_big_endian::be8(body, 2);
    let encrypted = base_big_endian::be8(body, 3);
    lines::print_named(out, "  answer", Answer(base_big_endian::be8(body, 0)));
    lines::print_named(
        out,
        "  fields",
        format_args!("{authenticated} authenticated, {untrusted} untrusted, {encrypted} encrypted"),
    );
}

// A header that is not read is shown as its bytes.
fn show_unread(out: Stdout, body: &[u8], at: usize, refusal: Refusal) {
    let count = body.len();
    lines::print_named(out, "header", Answer::from(refusal));
    lines::named(out, "  bytes")
        .show(Place { count, at })
        .shown_up_to(body, HEADER)
        .end();
}

// The header of an entry, as that of a packet is read.
fn show_header(out: Stdout, body: &[u8], at: usize) {
    match Header::read(body) {
        Ok(header) => header.show(out, at),
        Err(refusal) => show_unread(out, body, at, refusal),
    }
}

impl Given<'_> {
    fn show_too_long(self, refusal: Refusal) {
        let number = base_answers::number(refusal);
        let most = Count(LONGEST_IMAGE);
        lines::print(
            self.out,
            format_args!("refused ({number}): an image of more than {most}"),
        );
        self.show_given("image", LONGEST_IMAGE);
    }

    fn show_image_answer(self, torn_len: usize) {
        let tail = if torn_len == 0 {
            "no torn tail"
        } else {
            "a torn tail, which a recovery erases"
        };
        lines::print(
            self.out,
            format_args!("accepted (0): a journal with {tail}"),
        );
    }

    // What an entry holds, by its kind: no kind other than 1 and 2 is found.
    fn show_entry(self, index: usize) {
        let Some(entry) = journal::entry(self.bytes, index) else {
            return;
        };
        let kind = entry.kind;
        let place = Place {
            count: entry.body_len.wrapping_add(AROUND_BODY),
            at: entry.entry_offset,
        };
        let body = journal::body(self.bytes, index);
        let holds = if kind == 1 { "read" } else { "header" };
        lines::gap(self.out);
        lines::empty(self.out)
            .show(format_args!("entry {index}"))
            .to_values()
            .show(format_args!("{holds}, {place}"))
            .end();
        if kind == 1 {
            return show_read(self.out, body);
        }
        show_header(self.out, body, entry.entry_offset.wrapping_add(BEFORE_BODY));
    }

    fn show_entries(self, entry_count: usize) {
        lines::print_named(self.out, "entries", entry_count);
        for index in 0..entry_count {
            self.show_entry(index);
        }
    }

    fn show_end(self, next_offset: usize, torn_len: usize) {
        let room = Count(self.bytes.len().wrapping_sub(next_offset));
        lines::gap(self.out);
        lines::print_named(
            self.out,
            "next append",
            format_args!("at {next_offset}, with room for {room}"),
        );
        if torn_len == 0 {
            return lines::print_named(self.out, "torn tail", "none");
        }
        let place = Place {
            count: torn_len,
            at: next_offset,
        };
        lines::named(self.out, "torn tail")
            .show(place)
            .shown_up_to(parts::within(self.bytes, next_offset, torn_len), SHOWN_TAIL)
            .end();
    }

    pub(crate) fn look_at_image(self) {
        match journal::find(self.bytes) {
            Ok(found) => {
                self.show_image_answer(found.torn_len);
                self.show_given("image", LONGEST_IMAGE);
                self.show_entries(found.entry_count);
                self.show_end(found.next_offset, found.torn_len);
            }
            Err(refusal) => self.show_too_long(refusal),
        }
    }
}

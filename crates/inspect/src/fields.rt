// The lines of a packet's fields: its sealed ones, as the survey lists them, then the reader's list and the remainder.
use crate::counts::{Count, Place};
use crate::header::HEADER;
use crate::{lines, names, parts};
use base_version::Version;
use field_kinds::Kind;
use read_entries::{CAPACITY, Table};
use read_opening::LentResults;
use read_packet::Read;
use read_records::{Record, Trust};
use read_survey::Seal;
use std::rt::Stdout;

// One more than the entries, so that a sealed field too many is refused as one, and not because it has no result.
const RESULTS: usize = CAPACITY + 1;

// The verdict on a sealed field for which there is no key.
const NO_KEY: u8 = 0;

// How many bytes of a message are shown in the list.
const SHOWN_IN_LIST: usize = 14;

// A packet whose header has fields after it.
#[derive(Clone, Copy)]
pub(crate) struct Fields<'a> {
    pub(crate) out: Stdout,
    pub(crate) packet: &'a [u8],
    pub(crate) version: Version,
}

pub(crate) fn blank_table() -> Table {
    [0; CAPACITY]
}

fn show_titles(out: Stdout) {
    lines::print(
        out,
        "  offset  type    kind                      message  taken  trust          first bytes of the message",
    );
}

impl Fields<'_> {
    // Reads the packet with no key for any of its sealed fields, so that no inner field is found.
    pub(crate) fn read(self, outer: &mut Table) -> Read {
        let verdicts = [NO_KEY; RESULTS];
        let places = [0usize; RESULTS];
        let mut inner = blank_table();
        read_packet::deserialize(
            self.packet,
            HEADER,
            self.version,
            &LentResults {
                verdicts: &verdicts,
                starts: &places,
                lens: &places,
                plain: &[],
            },
            outer,
            &mut inner,
        )
    }

    fn show_seal(self, number: usize, seal: Seal) {
        let out = self.out;
        let packet = self.packet;
        let before = seal.associated_data_len;
        let nonce = Place {
            count: seal.nonce_len,
            at: seal.nonce_offset,
        };
        let ciphertext = Place {
            count: seal.ciphertext_len,
            at: seal.ciphertext_offset,
        };
        lines::gap(out);
        lines::empty(out)
            .show(format_args!("sealed field {number}"))
            .to_values()
            .show(format_args!("at {before}"))
            .end();
        lines::named(out, "  nonce")
            .found_whole(packet, nonce)
            .end();
        lines::named(out, "  ciphertext")
            .found_whole(packet, ciphertext)
            .end();
        let count = Count(before);
        lines::print_named(out, "  opened over", format_args!("the {count} before it"));
        lines::print_named(out, "  verdict lent", format_args!("{NO_KEY}, no key"));
    }

    // The sealed fields up to the survey's first fault, which the reader tells too.
    pub(crate) fn show_sealed(self) {
        let mut table = blank_table();
        let count = match read_survey::survey(self.packet, HEADER, self.version, &mut table) {
            Ok(count) => count,
            Err(fault) => fault.seal_count,
        };
        for (number, entry) in table.iter().take(count).enumerate() {
            self.show_seal(number, read_survey::seal_of(*entry));
        }
    }

    fn show_row(self, field: Record) {
        let offset = field.field_offset;
        let type_id = field.type_id;
        let kind = names::kind(field.kind);
        let message_len = field.message_len;
        let taken = field.wire_length;
        let trust = names::trust(field.trust);
        let line = lines::empty(self.out)
            .show(format_args!("{offset:>8}  {type_id:#06x}  {kind:<24}"))
            .show(format_args!("{message_len:>9}{taken:>7}  {trust:<15}"));
        let message = read_records::message_bytes(self.packet, &[], field);
        if message.is_empty() {
            return line.show("-").end();
        }
        line.first_bytes(message, SHOWN_IN_LIST).end();
    }

    // The request of a field; every field of its kind that stands in a list has one.
    fn show_request(self, field: Record) {
        if let Ok(request) = read_records::request_of(self.packet, &[], field) {
            let count = Count(request.payload_len as usize);
            let offset = request.offset;
            lines::print_named(
                self.out,
                "",
                format_args!("asks for {count} of the filter, from offset {offset} on"),
            );
        }
    }

    // A field of a list, and below it what its message says, where that is more than bytes.
    fn show_field(self, field: Record) {
        self.show_row(field);
        match field.kind {
            Kind::DraftIdentification => lines::named(self.out, "")
                .quoted(read_records::message_bytes(self.packet, &[], field))
                .end(),
            Kind::ReferenceIdRequest => self.show_request(field),
            _ => {}
        }
    }

    // The outer items, of which the first are authenticated.
    pub(crate) fn show_listed(self, table: &Table, items: usize, authenticated: usize) {
        lines::gap(self.out);
        lines::print_named(self.out, "fields", items);
        if items == 0 {
            return;
        }
        show_titles(self.out);
        for (place, entry) in table.iter().take(items).enumerate() {
            let trust = if place < authenticated {
                Trust::Authenticated
            } else {
                Trust::Untrusted
            };
            self.show_field(read_records::outer_record(*entry, self.version, trust));
        }
    }

    // The fields of a refused packet from its header up to the fault. The reader hands out no list with a refusal, so
    // they are cut once more. There are no more than a table has entries, since one more would be the fault.
    pub(crate) fn show_before(self, fault: usize) {
        lines::gap(self.out);
        if fault <= HEADER {
            return lines::print_named(self.out, "fields", "none before the fault");
        }
        lines::print_named(
            self.out,
            "fields",
            "those before the fault: untrusted, and not judged further",
        );
        show_titles(self.out);
        let mut at = HEADER;
        for _ in 0..CAPACITY {
            if fault <= at {
                return;
            }
            let Ok(frame) = field_frame::frame_at(self.packet, at, self.version) else {
                return;
            };
            // What it is as far as its type and its lengths say.
            self.show_field(Record {
                kind: field_kinds::from_type_id(frame.type_id, self.version),
                type_id: frame.type_id,
                field_offset: at,
                message_len: frame.message_len,
                wire_length: frame.wire_length,
                trust: Trust::Untrusted,
            });
            at = at.wrapping_add(frame.wire_length);
        }
    }
}

// What follows the fields, or the header of NTPv3, and what it is as a MAC, or that it is none. NTPv5 leaves nothing.
pub(crate) fn show_remainder(out: Stdout, packet: &[u8], remainder: usize) {
    let place = Place {
        count: remainder,
        at: packet.len().wrapping_sub(remainder),
    };
    let rest = parts::within(packet, place.at, remainder);
    lines::gap(out);
    lines::named(out, "remainder").found(packet, place).end();
    if let Ok(read) = mac::deserialize(rest) {
        let body = mac::body(rest);
        lines::print_named(out, "  MAC key id", read.keyid);
        lines::named(out, "  MAC body")
            .show(Count(body.len()))
            .shown(body)
            .end();
    } else if remainder != 0 {
        lines::print_named(out, "  MAC", "none: a MAC has 4, 20 or 24 bytes");
    }
}

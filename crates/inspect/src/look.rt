// A look at a packet: what is answered to it comes first, and then what it holds.
use crate::fields::Fields;
use crate::given::Given;
use crate::header::HEADER;
use crate::headers::Header;
use crate::verdicts::Answer;
use crate::{fields, lines, parts};
use base_answers::Refusal;
use base_version::Version;
use read_packet::Read;
use std::rt::Stdout;

// No packet is longer.
const LONGEST: usize = 65535;

fn show_refusal(out: Stdout, refusal: Refusal, offset: usize) {
    let answer = Answer::from(refusal);
    lines::print(out, format_args!("{answer}, at offset {offset}"));
}

fn show_answer(out: Stdout, read: Read) {
    match read {
        Read::Accepted { .. } => lines::print(out, Answer(0)),
        Read::DecryptError { .. } => {
            let answer = Answer::from(Refusal::DecryptError);
            lines::print(out, format_args!("{answer} (no key here)"));
        }
        Read::Refused {
            refusal,
            field_offset,
        } => show_refusal(out, refusal, field_offset),
    }
}

impl Given<'_> {
    fn show_packet(self) {
        self.show_given("packet", LONGEST);
        if let Some(first) = self.bytes.first().copied() {
            lines::print_named(self.out, "version", first / 8 % 8);
        }
    }

    fn show_fault(self, offset: usize) {
        lines::gap(self.out);
        lines::named(self.out, "first fault")
            .show(format_args!("at {offset}"))
            .shown(parts::behind(self.bytes, offset))
            .end();
    }

    // Answers a packet that is refused for its length or its header.
    fn refuse(self, refusal: Refusal) {
        show_refusal(self.out, refusal, 0);
        self.show_packet();
        self.show_fault(0);
    }

    // Answers a packet whose header is read, and that has fields.
    fn look_at_fields(self, header: Header, version: Version) {
        let fields = Fields {
            out: self.out,
            packet: self.bytes,
            version,
        };
        let mut table = fields::blank_table();
        let read = fields.read(&mut table);
        show_answer(self.out, read);
        self.show_packet();
        lines::gap(self.out);
        header.show(self.out, 0);
        fields.show_sealed();
        match read {
            Read::Accepted {
                authenticated_count,
                untrusted_count,
                remainder_len,
                ..
            }
            | Read::DecryptError {
                authenticated_count,
                untrusted_count,
                remainder_len,
                ..
            } => {
                let items = authenticated_count.wrapping_add(untrusted_count);
                fields.show_listed(&table, items, authenticated_count);
                fields::show_remainder(self.out, self.bytes, remainder_len);
            }
            Read::Refused { field_offset, .. } => {
                fields.show_before(field_offset);
                self.show_fault(field_offset);
            }
        }
    }

    // Answers a packet of NTPv3. ntp-proto reads what follows its header as a MAC, so it is shown as the remainder is.
    fn look_at_v3(self, header: Header) {
        lines::print(
            self.out,
            "accepted (0): only the header was read, as NTPv3 has no fields",
        );
        self.show_packet();
        lines::gap(self.out);
        header.show(self.out, 0);
        fields::show_remainder(self.out, self.bytes, self.bytes.len().wrapping_sub(HEADER));
    }

    fn look_at_read(self, header: Header) {
        match header.version() {
            Some(version) => self.look_at_fields(header, version),
            None => self.look_at_v3(header),
        }
    }

    pub(crate) fn look_at_packet(self) {
        if LONGEST < self.bytes.len() {
            return self.refuse(Refusal::PacketTooLong);
        }
        match Header::read(self.bytes) {
            Ok(header) => self.look_at_read(header),
            Err(refusal) => self.refuse(refusal),
        }
    }
}

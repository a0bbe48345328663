// The lines of an input that is no packet, or no image of a journal.
use crate::input::{Fault, Flaw, Subject};
use crate::{letters, lines};
use std::rt::Stdout;

// An input that is refused as a whole.
pub(crate) fn show(out: Stdout, subject: Subject, fault: Fault) {
    lines::print(out, format_args!("no {subject}: {fault}"));
}

// A text that is refused for a letter, and the forms that are taken.
pub(crate) fn show_text(out: Stdout, text: &[u8], subject: Subject, flaw: Flaw) {
    let fault = flaw.fault;
    let spot = letters::spot_of(text, flaw.at);
    lines::print(out, format_args!("no {subject}: {fault}, {spot}"));
    lines::gap(out);
    lines::print_named(
        out,
        "forms taken",
        "raw bytes; hex: 2300.., 23 00 .., 23:00:.., 0x23, 0x00, .., \\x23\\x00..;",
    );
    lines::print_named(out, "", "dumps by xxd, hexdump -C and Wireshark");
}

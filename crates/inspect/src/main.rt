// Looks at a packet or at the image of a journal: reads it from standard input, raw or as a text of hex, and writes
// what it is to standard output, in lines for a person. It decides nothing itself: every answer is that of a library.
// It has no key, so it opens no sealed field.
#![tactic(auto)]

mod counts;
mod dates;
mod dump;
mod fields;
mod figures;
mod forms;
mod given;
mod header;
mod headers;
mod hex;
mod image;
mod input;
mod letters;
mod lines;
mod look;
mod names;
mod older;
mod parts;
mod refusals;
mod verdicts;

use forms::Form;
use given::Given;
use input::{BYTES, Fault, MARK_LEN, ROOM, Subject};
use std::rt::{Stdin, Stdout};

fn look_at_bytes(out: Stdout, bytes: &[u8], form: Form, subject: Subject) {
    let given = Given { out, bytes, form };
    match subject {
        Subject::Packet => given.look_at_packet(),
        Subject::Image => given.look_at_image(),
    }
}

fn look_at_text(out: Stdout, text: &[u8], subject: Subject, bytes: &mut [u8; BYTES]) {
    let form = forms::form_of(text);
    match input::decode(text, form, bytes) {
        Ok(bytes) => look_at_bytes(out, bytes, form, subject),
        Err(flaw) => refusals::show_text(out, text, subject, flaw),
    }
}

// Looks at what is given as a packet or an image, with room for the bytes that a text stands for.
fn look_at(out: Stdout, given: &[u8], subject: Subject, bytes: &mut [u8; BYTES]) {
    if given.is_empty() {
        return refusals::show(out, subject, Fault::Empty);
    }
    if input::is_capture(given) {
        return refusals::show(out, subject, Fault::Capture);
    }
    if input::is_text(given) {
        return look_at_text(out, given, subject, bytes);
    }
    look_at_bytes(out, given, Form::Raw, subject);
}

// Looks at an input. The line that marks an image is no part of it.
fn look_at_input(out: Stdout, input: &[u8], bytes: &mut [u8; BYTES]) {
    let subject = input::subject_of(input);
    match subject {
        Subject::Packet => look_at(out, input, subject, bytes),
        Subject::Image => look_at(out, parts::behind(input, MARK_LEN), subject, bytes),
    }
}

fn look_at_stdin(input: Stdin, out: Stdout, room: &mut [u8; ROOM], bytes: &mut [u8; BYTES]) {
    look_at_input(out, input::read(input, room), bytes);
}

fn main(rt: HostRuntime) {
    let mut room = input::text_buffer();
    let mut bytes = input::bytes_buffer();
    look_at_stdin(rt.stdin(), rt.stdout(), &mut room, &mut bytes);
}

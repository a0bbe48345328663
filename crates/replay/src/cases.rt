// Which case a line is. A further case is a function in the module of its section, and here its name and a line.
// Every such function is lent the words behind the name and the buffers. It takes its words, and answers `None`
// where the line is no case; then it has put nothing. Else it puts the answer; the line feed comes last, here.
use crate::answers::Answers;
use crate::buffers::{Buffers, LONGEST_LINE};
use crate::words::Words;
use crate::{
    header_cases, journal_cases, judging_cases, leaf_cases, mac_cases, older_header_cases,
    reading_cases, reference_id_cases, writing_cases,
};

fn answer_case(
    name: &str,
    words: &mut Words,
    buffers: &mut Buffers,
    answers: &mut Answers,
) -> Option<()> {
    match name {
        "read" => reading_cases::read(words, buffers, answers),
        "survey" => reading_cases::survey(words, buffers, answers),
        "write" => writing_cases::write(words, buffers, answers),
        "judge" => judging_cases::judge(words, buffers, answers),
        "round" => leaf_cases::round(words, answers),
        "kind" => leaf_cases::kind(words, answers),
        "frame" => leaf_cases::frame(words, buffers, answers),
        "mac-read" => mac_cases::read(words, buffers, answers),
        "mac-write" => mac_cases::write(words, buffers, answers),
        "journal-find" => journal_cases::find(words, buffers, answers),
        "journal-append" => journal_cases::append(words, buffers, answers),
        "journal-append-cut" => journal_cases::append_cut(words, buffers, answers),
        "journal-recover" => journal_cases::recover(words, buffers, answers),
        "journal-recover-cut" => journal_cases::recover_cut(words, buffers, answers),
        "journal-store-append" => journal_cases::append_store(words, buffers, answers),
        "journal-store-recovery" => journal_cases::recovery_store(words, answers),
        "journal-body" => journal_cases::body(words, buffers, answers),
        "request-new" => reference_id_cases::request_new(words, answers),
        "request-read" => reference_id_cases::request_read(words, buffers, answers),
        "request-write" => reference_id_cases::request_write(words, buffers, answers),
        "response-new" => reference_id_cases::response_new(words, buffers, answers),
        "response-cut" => reference_id_cases::response_cut(words, buffers, answers),
        "response-read" => reference_id_cases::response_read(words, buffers, answers),
        "response-write" => reference_id_cases::response_write(words, buffers, answers),
        "header5-read" => header_cases::read(words, buffers, answers),
        "header5-write" => header_cases::write(words, buffers, answers),
        "reading" => header_cases::reading(words, answers),
        "header34-read" => older_header_cases::read(words, buffers, answers),
        "header34-write" => older_header_cases::write(words, buffers, answers),
        "reading34" => header_cases::reading34(words, answers),
        _ => None,
    }
}

fn answer(line: &[u8], buffers: &mut Buffers, answers: &mut Answers) -> Option<()> {
    if LONGEST_LINE < line.len() {
        return None;
    }
    let mut words = Words::new(str::from_utf8(line).ok()?, ' ');
    let name = words.next()?;
    answer_case(name, &mut words, buffers, answers)
}

pub(crate) fn answer_line(line: &[u8], buffers: &mut Buffers, answers: &mut Answers) {
    if !line.is_empty() && answer(line, buffers, answers).is_none() {
        answers.print('?');
    }
    answers.end_line();
}

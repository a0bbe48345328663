// Answers cases, a line each (docs/REPLAY.md): reads them from standard input and writes an answer
// line to each to standard output. It decides nothing itself: every answer is that of a library.
#![tactic(auto)]

mod answers;
mod buffers;
mod cases;
mod header_cases;
mod journal_cases;
mod judging_cases;
mod leaf_cases;
mod mac_cases;
mod numbers;
mod older_header_cases;
mod reading_cases;
mod reference_id_cases;
mod to_write;
mod words;
mod writing_cases;

use answers::Answers;
use buffers::{Buffer, Buffers, LONGEST_LINE, Lists};
use std::io::Read;

// One byte more than a case has: a line that fills the buffer is too long.
const LINE: usize = LONGEST_LINE + 1;

// How much is read at once.
const CHUNK: usize = 65536;

// A proved loop has to end, and nothing says that the input does: no run reads so often.
const MOST_READS: u64 = 1 << 40;

// Answers each line that ends within what was read, and keeps the start of a line that does not. So a line may
// stretch over any number of reads. What does not fit into the buffer is dropped.
fn answer_lines(
    read: &[u8],
    line: &mut Buffer<LINE>,
    buffers: &mut Buffers,
    answers: &mut Answers,
) {
    for byte in read {
        if *byte == b'\n' {
            cases::answer_line(line.as_slice(), buffers, answers);
            line.clear();
        } else {
            let _ = line.push(*byte);
        }
    }
}

fn main(rt: HostRuntime) {
    let mut input = rt.stdin();
    let mut chunk = [0; CHUNK];
    let mut line = Buffer::new();
    let mut buffers = Buffers {
        given: Buffer::new(),
        lent: Buffer::new(),
        lists: Lists::new(),
    };
    let mut answers = Answers::new(rt.stdout());
    for _ in 0..MOST_READS {
        // A read that fails counts as the input's end. There a last line that lacks its line feed gets it.
        let count = input.read(&mut chunk).unwrap_or(0);
        match chunk.get(..count) {
            Some([]) | None if line.is_empty() => break,
            Some([]) | None => answer_lines(b"\n", &mut line, &mut buffers, &mut answers),
            Some(read) => answer_lines(read, &mut line, &mut buffers, &mut answers),
        }
    }
    answers.flush();
}

// Answers each case on standard input with one line of hex: docs/ANSWERS.md has the form of both. A line that is no case is answered `bad`.
#![tactic(auto)]

mod fields; // fields.rt: the fields of a case
mod said; // said.rt: the bytes of an answer
mod connections; // connections.rt: the fields of a Forward Open
mod paths; // paths.rt: operations 01 to 07
mod requests; // requests.rt: operations 10 to 15
mod request_reads; // request_reads.rt: operations 18 to 1B
mod reply_reads; // reply_reads.rt: operations 20 to 22 and 26
mod reply_writes; // reply_writes.rt: operations 23 to 25 and 27
mod bodies; // bodies.rt: operations 30 to 34
mod nests; // nests.rt: operation 40
mod scraps; // scraps.rt: operation 50

use fields::Fields;
use hex_digits::hex_digit;
use lines::{Case, Line};
use said::Answer;
use std::io::{self, Read};

// Bytes of the longest case.
const MAX_CASE: usize = lines::MAX_DIGITS / 2;

// Bytes of the longest answer: the rows of the message that has most. The largest output or buffer, with what stands before it, is shorter.
const MAX_REPLY: usize = nests::MAX_ROWS_REPLY;

// Bytes of its line: two digits each, and the newline.
const MAX_TEXT: usize = 2 * MAX_REPLY + 1;

const NEWLINE: u8 = 10;

// The line of what is no case.
const BAD: &[u8] = b"bad\n";

// Puts the answer of a case, by way of an output that the library's functions are lent; None for what is no case.
fn ask(case: &[u8], out: &mut [u8], answer: &mut Answer<'_>) -> Option<()> {
    let mut case = Fields::new(case);
    let op = case.byte()?;
    match op {
        0x01..=0x07 => paths::ask(op, case, out, answer),
        0x10..=0x15 => requests::ask(op, case, out, answer),
        0x18..=0x1B => request_reads::ask(op, case, answer),
        0x20..=0x22 | 0x26 => reply_reads::ask(op, case, answer),
        0x23..=0x25 | 0x27 => reply_writes::ask(op, case, out, answer),
        0x30..=0x34 => bodies::ask(op, case, out, answer),
        0x40 => nests::ask(case, answer),
        0x50 => scraps::ask(case, out, answer),
        _ => None,
    }
}

// Makes the line of an answer at the front of text; answers how many bytes it has.
fn put_line(answer: &[u8], text: &mut [u8]) -> usize {
    for (pair, b) in text.chunks_exact_mut(2).zip(answer) {
        if let [high, low] = pair {
            *high = hex_digit(*b / 16);
            *low = hex_digit(*b);
        }
    }
    let n = 2 * answer.len();
    wire_write::put_byte(text, n, NEWLINE);
    n + 1
}

// A line that has ended, whose bytes lie at the front of case: its answer is one write. An output that can't be written ends nothing.
// The front of the text's room is lent as an output while the answer is made.
fn finish(
    rt: &impl Print,
    line: Line,
    case: &[u8],
    text: &mut [u8; MAX_TEXT],
    answer: &mut Answer<'_>,
) {
    let len = match lines::line_case(line) {
        Case::Nothing => return,
        Case::Bytes(n) => n,
        // no case has no bytes
        Case::Bad => 0,
    };
    answer.clear();
    let case = wire_read::part_of(case, 0, len);
    let size = match ask(case, &mut text[..fields::MAX_ROOM], answer) {
        Some(()) => put_line(answer.bytes(), text),
        None => {
            wire_write::put_bytes(text, 0, BAD);
            BAD.len()
        }
    };
    let _ = rt.write_all(wire_read::part_of(text, 0, size));
}

// A proved loop has to end, and nothing says that the input does. So the turns are counted, and no run uses them up.
// A last line without a newline is answered too, also where the input ends in an error.
fn run(rt: &HostRuntime, text: &mut [u8; MAX_TEXT], answer: &mut Answer<'_>) -> io::Result<()> {
    let mut chunk = [0; 65536];
    let mut case = [0; MAX_CASE];
    let mut line = lines::blank_line();
    let mut input = rt.stdin();
    let mut end = Ok(());
    for _ in 0..u64::MAX {
        let n = match input.read(&mut chunk) {
            Ok(0) => break,
            Ok(n) => n,
            Err(e) => {
                end = Err(e);
                break;
            }
        };
        for b in wire_read::part_of(&chunk, 0, n) {
            if *b == NEWLINE {
                finish(rt, line, &case, text, answer);
                line = lines::blank_line();
            } else {
                line = line_chars::take_char(line, *b, &mut case);
            }
        }
    }
    finish(rt, line, &case, text, answer);
    end
}

fn main(rt: HostRuntime) -> io::Result<()> {
    let mut reply = [0; MAX_REPLY];
    run(&rt, &mut [0; MAX_TEXT], &mut Answer::new(&mut reply))
}

// What the dump program prints: a line for each message, or the number of the refusal. The text goes into lent bytes.
#![tactic(auto)]

mod words; // words.rt: numbers as text

ghost use Rattle.std.specs.Prelude.{◌≡◌, ◌*◌, ◌≤◌, length, get_or};
ghost use Rattle.wire.specs.Refusals.{number};
ghost use Rattle.wire.specs.Answers.{paper, Put, PutAt, or_zero};
ghost use Rattle.nested.specs.Nested.{max_rows, row_size};
ghost use Rattle.dump_text.specs.Text.{max_text, row_at, line, lines_from, refused_line, text_in, text_answer, text_over};

use wire::Refusal;
use wire_write::put_bytes;
use words::{put_hex, put_word};

// Bytes of the longest text, and more: no message has more than MAX_ROWS rows, no line more than 21 bytes. Its twin is in specs/Text.antt.
pub const MAX_TEXT: usize = 344064;

// Holds the constant to its twin.
fn max_text() -> usize
    ensures { result ≡ max_text }
{
    MAX_TEXT
}

// Numbers of the rows that any message can have.
const MAX_NUMBERS: usize = nested::ROW * nested::MAX_ROWS;

// The number at a place of a run; past its end 0.
fn number_at(rows: &[u16], at: usize) -> u16
    ensures { result ≡ get_or rows.now at 0 }
{
    rows.get(at).copied().unwrap_or(0)
}

// Stores the line of row k from a place on; answers the place behind it.
#[tactic(auto, using(crate::proofs::TextLaws::line_laws))]
fn put_line(rows: &[u16], k: usize, out: &mut [u8], at: usize) -> usize
    requires { (k ≤ max_rows) × (at ≤ max_text) }
    ensures { PutAt at (line (row_at rows.now k)) out.old result out.new }
{
    let first = nested::ROW * k;
    let service = put_word(out, at, number_at(rows, first), words::BLANK);
    let path = put_hex(out, service, number_at(rows, first + 1));
    let data = put_word(out, path, number_at(rows, first + 2), words::BLANK);
    put_word(out, data, number_at(rows, first + 3), words::NEWLINE)
}

// Stores the lines of the first n rows; answers how many bytes they are.
#[tactic(auto, using(crate::proofs::TextLaws::lines_laws))]
fn put_lines(rows: &[u16], n: usize, out: &mut [u8]) -> usize
    requires { n ≤ max_rows }
    ensures { Put (lines_from n rows.now 0) out.old result out.new }
{
    let mut at = 0;
    for k in 0..n {
        at = put_line(rows, k, out, at);
    }
    at
}

// Stores the line of a refusal; answers how many bytes it is.
fn put_refused(e: Refusal, out: &mut [u8]) -> usize
    ensures { Put (refused_line (number e)) out.old result out.new }
{
    put_bytes(out, 0, b"refused ");
    put_word(out, 8, wire::refusal_number(e) as u16, words::NEWLINE)
}

// Stores the text of what a reading answered, with its rows; answers how many bytes it is.
fn put_text(c: Result<usize, Refusal>, rows: &[u16], out: &mut [u8]) -> usize
    requires { or_zero (paper c) ≤ max_rows }
    ensures { Put (text_in (paper c) rows.now) out.old result out.new }
{
    match c {
        Ok(n) => put_lines(rows, n, out),
        Err(e) => put_refused(e, out),
    }
}

// Writes the text of a message, by way of its rows. The first time the text is stored nowhere, so that a refusal leaves every byte as it stood.
#[tactic(auto, using(crate::proofs::TextLaws::dump_laws))]
fn write_by(s: &[u8], rows: &mut [u16], out: &mut [u8]) -> Result<usize, Refusal>
    requires { length rows.old ≡ row_size * max_rows }
    ensures result_value { paper result ≡ text_answer s.now (length out.old) }
    ensures out_after { out.new ≡ text_over s.now out.old }
{
    let c = nested::read_nested(s, rows);
    let size = put_text(c, rows, &mut out[0..0]);
    if out.len() < size {
        return Err(Refusal::Room);
    }
    put_text(c, rows, out);
    Ok(size)
}

// Writes the text of a message; that of a refused one says so.
pub fn write_dump(s: &[u8], out: &mut [u8]) -> Result<usize, Refusal>
    ensures answer { paper result ≡ text_answer s.now (length out.old) }
    ensures bytes { out.new ≡ text_over s.now out.old }
{
    let mut rows = [0u16; MAX_NUMBERS];
    write_by(s, &mut rows, out)
}

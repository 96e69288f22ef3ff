// All replies of a body in one call, for C: the table is judged once, and nothing is answered one by one.
#![tactic(auto)]

ghost use Rattle.std.specs.Prelude.{◌≡◌, ◌+◌, ◌*◌, ◌≤◌, length};
ghost use Rattle.std.proofs.lemmas.List.Edits.{sets};
ghost use Rattle.wire.specs.Answers.{paper, written};
ghost use Rattle.c_answers.specs.Codes.{code};
ghost use Rattle.c_reply_walk.specs.Rows.{reply_row_size, reply_row, rows_from, rows_answer, reply_rows};

use body_read::read_body;
use body_replies::walk_reply;
use c_answers::count_answer;
use c_reply_numbers::reply_numbers;
use reply_header::MessageReply;
use wire::{Refusal, refusal_number};

// Numbers of a row: a refusal's number, 0 if there is none, and the six of a reply's header.
const ROW: usize = 7;

// Stores a row at a place. Not by copy_from_slice, which asks whether the two overlap: all replies would take near a quarter more time.
#[tactic(auto, using(crate::proofs::Laws::row_laws))]
fn put_row(rows: &mut [usize], at: usize, row: &[usize; ROW])
    requires { at + reply_row_size ≤ length rows.old }
    ensures { rows.new ≡ sets rows.old at row.now }
{
    rows[at] = row[0];
    rows[at + 1] = row[1];
    rows[at + 2] = row[2];
    rows[at + 3] = row[3];
    rows[at + 4] = row[4];
    rows[at + 5] = row[5];
    rows[at + 6] = row[6];
}

// Stores what was read of one reply at a place. Each case has a row of its own, since a row that is made first has to be copied.
fn put_reply(rows: &mut [usize], at: usize, w: Result<MessageReply, Refusal>)
    requires { at + reply_row_size ≤ length rows.old }
    ensures { rows.new ≡ sets rows.old at (reply_row (paper w)) }
{
    match w {
        Err(e) => put_row(rows, at, &[refusal_number(e) as usize, 0, 0, 0, 0, 0, 0]),
        Ok(m) => {
            let [service, general, words, word, start, len] = reply_numbers(m);
            put_row(rows, at, &[0, service, general, words, word, start, len]);
        }
    }
}

// Stores the replies of n items, a row each.
#[tactic(auto, using(crate::proofs::Laws::turn_laws))]
fn put_replies(s: &[u8], n: usize, rows: &mut [usize])
    requires { reply_row_size * n ≤ length rows.old }
    ensures { rows.new ≡ sets rows.old 0 (rows_from n s.now n 0) }
{
    for k in 0..n {
        put_reply(rows, ROW * k, walk_reply(s, n, k));
    }
}

// The reply in each item of a body, a row each, a refused one too; how many items there are.
#[tactic(auto, using(crate::proofs::Laws::end_laws))]
fn read_replies(s: &[u8], out: &mut [usize]) -> Result<usize, Refusal>
    ensures answer { paper result ≡ rows_answer s.now (length out.old) }
    ensures rows { out.new ≡ written (rows_answer s.now (length out.old)) (reply_rows s.now) out.old }
{
    let n = read_body(s)?;
    if out.len() / ROW < n {
        return Err(Refusal::Room);
    }
    put_replies(s, n, out);
    Ok(n)
}

// The same as numbers.
#[unsafe(no_mangle)]
pub extern "C" fn bark_read_replies(s: &[u8], rows: &mut [usize]) -> usize
    ensures answer { result ≡ code (rows_answer s.now (length rows.old)) }
    ensures rows { rows.new ≡ written (rows_answer s.now (length rows.old)) (reply_rows s.now) rows.old }
{
    count_answer(read_replies(s, rows))
}

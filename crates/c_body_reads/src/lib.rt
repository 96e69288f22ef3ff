// Bodies, for C: read, and their items one by one.
#![tactic(auto)]

ghost use Rattle.std.specs.Prelude.{◌≡◌};
ghost use Rattle.wire.specs.Answers.{paper};
ghost use Rattle.body_read.specs.Reads.{read_body};
ghost use Rattle.body_items.specs.Items.{walk_item, body_item};
ghost use Rattle.c_answers.specs.Codes.{code, run_answer, run_left};
ghost use Rattle.c_body_reads.specs.Fields.{item_run};

use body_items::{Item, body_item, walk_item};
use body_read::read_body;
use c_answers::{count_answer, fill, refusal_answer};
use wire::Refusal;

// How many items a body has.
#[unsafe(no_mangle)]
pub extern "C" fn bark_read_body(s: &[u8]) -> usize
    ensures { result ≡ code (read_body s.now) }
{
    count_answer(read_body(s))
}

// What was read of an item, as two numbers. `fill_reply` of c_body_replies has the same two arms over another type and run; a function for both would
// take the numbers by a closure, for no line less.
fn fill_item(w: Result<Item, Refusal>, fields: &mut [usize]) -> usize
    ensures answer { result ≡ code (run_answer (item_run (paper w)) fields.old) }
    ensures numbers { fields.new ≡ run_left (item_run (paper w)) fields.old }
{
    match w {
        Err(e) => refusal_answer(e), // C interface: one number
        Ok(i) => fill(fields, &[i.start, i.len]),
    }
}

// Where an item of a body starts, and its length.
#[unsafe(no_mangle)]
pub extern "C" fn bark_body_item(s: &[u8], index: usize, fields: &mut [usize]) -> usize
    ensures answer { result ≡ code (run_answer (item_run (body_item s.now index)) fields.old) }
    ensures numbers { fields.new ≡ run_left (item_run (body_item s.now index)) fields.old }
{
    fill_item(body_item(s, index), fields)
}

// The same for a walk: the caller says how many items there are, and the table is not judged again.
#[unsafe(no_mangle)]
pub extern "C" fn bark_walk_item(
    s: &[u8],
    items: usize,
    index: usize,
    fields: &mut [usize],
) -> usize
    ensures answer { result ≡ code (run_answer (item_run (walk_item s.now items index)) fields.old) }
    ensures numbers { fields.new ≡ run_left (item_run (walk_item s.now items index)) fields.old }
{
    fill_item(walk_item(s, items, index), fields)
}

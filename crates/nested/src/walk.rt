// The reader of a message and the reader of a body, which call each other. What is left to read falls by a level at each message that another holds.
ghost use Rattle.std.specs.Prelude.{◌≡◌, ◌+◌, ◌*◌, ◌≤◌, ◌<◌, length};
ghost use Rattle.wire.specs.Answers.{done, paper};
ghost use Rattle.connection.specs.Limits.{max_record};
ghost use Rattle.body_read.specs.Reads.{read_body};
ghost use Rattle.body_items.specs.Items.{item_at, bytes_in};
ghost use Rattle.nested.specs.declared.kinds.Kind.TheVariants.{Packet, Send};
ghost use Rattle.nested.specs.Nested.{max_depth, levels, row_bytes, listed, held_rows, Walked, nested, counted, stored_rows};

use crate::kinds::{Kind, opens};
use crate::rows::put_row;
use body_items::walk_item;
use body_read::read_body;
use message_read::read_message;
use send_read::read_unconnected_send;
use wire::Refusal;
use wire_read::part_of;

// The outermost message's own, and those below it.
const LEVELS: usize = crate::MAX_DEPTH + 1;

// The bytes of an item of a body that has n.
#[tactic(auto, using(crate::proofs::WalkLaws::item_laws))]
fn item_of<'a>(s: &'a [u8], n: usize, k: usize) -> &'a [u8]
    requires { (read_body s.now ≡ done n) × (k < n) }
    ensures { result.now ≡ bytes_in s.now (item_at s.now n k) }
{
    let Ok(i) = walk_item(s, n, k) else {
        unreachable!()
    };
    part_of(s, i.start, i.len)
}

// The rows of a message and of what it holds, from row `at` on, as far as they fit. Answers the row behind them.
// Left counts the levels that may still be read, the message's own with them: what it holds has one less, at most 3.
#[cycle(walk_body_walk_message_walk_send)]
fn walk_message(s: &[u8], left: usize, rows: &mut [u16], at: usize) -> Result<usize, Refusal>
    requires { (left ≤ levels) × (row_bytes * at + length s.now ≤ max_record) }
    ensures { Walked (listed left s.now) at result rows.old rows.new }
{
    if left == 0 {
        return Err(Refusal::Depth);
    }
    let m = read_message(s)?;
    put_row(rows, at, LEVELS - left, m);
    let data = part_of(s, m.data_start, m.data_len);
    match opens(s, m) {
        Kind::Packet => walk_body(data, left - 1, rows, at + 1),
        Kind::Send => walk_send(data, left - 1, rows, at + 1),
        Kind::Plain => Ok(at + 1),
    }
}

// The same of what a body holds: the body is judged whole, then each item in order.
#[cycle(walk_body_walk_message_walk_send)]
fn walk_body(s: &[u8], left: usize, rows: &mut [u16], at: usize) -> Result<usize, Refusal>
    requires { (left ≤ max_depth) × (row_bytes * at + length s.now ≤ max_record + 2) }
    ensures { Walked (held_rows Packet left s.now) at result rows.old rows.new }
{
    let n = read_body(s)?;
    let mut next = at;
    for k in 0..n {
        next = walk_message(item_of(s, n, k), left, rows, next)?;
    }
    Ok(next)
}

// The same of what an Unconnected Send holds: it is judged whole, then its message.
#[cycle(walk_body_walk_message_walk_send)]
fn walk_send(s: &[u8], left: usize, rows: &mut [u16], at: usize) -> Result<usize, Refusal>
    requires { (left ≤ max_depth) × (row_bytes * at + length s.now ≤ max_record + 2) }
    ensures { Walked (held_rows Send left s.now) at result rows.old rows.new }
{
    let send = read_unconnected_send(s)?;
    let message = part_of(s, send.message_start, send.message_len);
    walk_message(message, left, rows, at)
}

// Reads a message and all that it holds: how many messages there are, and their rows, each followed at once by those of the messages that it holds.
// The first walk is lent no place to store, so that a refusal leaves every row as it stood.
#[tactic(auto, using(crate::proofs::WalkLaws::nested_laws))]
pub fn read_nested(s: &[u8], rows: &mut [u16]) -> Result<usize, Refusal>
    ensures result_value { paper result ≡ counted (nested s.now) (length rows.old) }
    ensures rows_after { rows.new ≡ stored_rows (nested s.now) rows.old }
{
    if connection::MAX_RECORD < s.len() {
        return Err(Refusal::Limit);
    }
    let n = walk_message(s, LEVELS, &mut rows[0..0], 0)?;
    if rows.len() / crate::ROW < n {
        return Err(Refusal::Room);
    }
    walk_message(s, LEVELS, rows, 0)
}

// Bodies, the replies in them, and nested messages. Each calls the function of its name, whose clauses are repeated here word for word.
ghost use Rattle.std.specs.Prelude.{length, ◌≡◌};
ghost use Rattle.wire.specs.Answers.{with_room, written};
ghost use Rattle.body_sizes.specs.Bodies.{body_of, body_size, cut};
ghost use Rattle.c_answers.specs.Codes.{code, run_answer, run_left};
ghost use Rattle.body_join.specs.Joins.{join_of, join_size};
ghost use Rattle.body_read.specs.Reads.{read_body};
ghost use Rattle.body_items.specs.Items.{body_item, walk_item};
ghost use Rattle.c_body_reads.specs.Fields.{item_run};
ghost use Rattle.body_replies.specs.Replies.{body_reply, walk_reply};
ghost use Rattle.c_reply_numbers.specs.Numbers.{reply_run};
ghost use Rattle.c_reply_walk.specs.Rows.{reply_rows, rows_answer};
ghost use Rattle.nested.specs.Nested.{counted, nested, stored_rows};

// The body of messages that lie end to end.
#[unsafe(no_mangle)]
pub extern "C" fn bark_write_body(items: &[u8], lengths: &[usize], out: &mut [u8]) -> usize
    ensures answer { result ≡ code (with_room (body_size (length items.now) lengths.now) (length out.old)) }
    ensures bytes { out.new ≡ written (with_room (body_size (length items.now) lengths.now) (length out.old)) (body_of (cut lengths.now items.now)) out.old }
{
    c_bodies::bark_write_body(items, lengths, out)
}

// The body of the first's items and then the second's.
#[unsafe(no_mangle)]
pub extern "C" fn bark_join_bodies(first: &[u8], second: &[u8], out: &mut [u8]) -> usize
    ensures answer { result ≡ code (with_room (join_size first.now second.now) (length out.old)) }
    ensures bytes { out.new ≡ written (with_room (join_size first.now second.now) (length out.old)) (join_of first.now second.now) out.old }
{
    c_bodies::bark_join_bodies(first, second, out)
}

// How many items a body has.
#[unsafe(no_mangle)]
pub extern "C" fn bark_read_body(s: &[u8]) -> usize
    ensures { result ≡ code (read_body s.now) }
{
    c_body_reads::bark_read_body(s)
}

// Where an item of a body starts, and its length.
#[unsafe(no_mangle)]
pub extern "C" fn bark_body_item(s: &[u8], index: usize, fields: &mut [usize]) -> usize
    ensures answer { result ≡ code (run_answer (item_run (body_item s.now index)) fields.old) }
    ensures numbers { fields.new ≡ run_left (item_run (body_item s.now index)) fields.old }
{
    c_body_reads::bark_body_item(s, index, fields)
}

// The same for a walk: the caller says how many items there are, and the table is not judged again.
#[unsafe(no_mangle)]
pub extern "C" fn bark_walk_item(
    s: &[u8],
    items: usize,
    index: usize,
    fields: &mut [usize],
) -> usize
    ensures answer { result ≡ code (run_answer (item_run (walk_item s.now items index)) fields.old) }
    ensures numbers { fields.new ≡ run_left (item_run (walk_item s.now items index)) fields.old }
{
    c_body_reads::bark_walk_item(s, items, index, fields)
}

// The reply in an item of a body.
#[unsafe(no_mangle)]
pub extern "C" fn bark_reply_item(s: &[u8], index: usize, fields: &mut [usize]) -> usize
    ensures answer { result ≡ code (run_answer (reply_run (body_reply s.now index)) fields.old) }
    ensures numbers { fields.new ≡ run_left (reply_run (body_reply s.now index)) fields.old }
{
    c_body_replies::bark_reply_item(s, index, fields)
}

// The same for a walk: the caller says how many items there are, and the table is not judged again.
#[unsafe(no_mangle)]
pub extern "C" fn bark_walk_reply(
    s: &[u8],
    items: usize,
    index: usize,
    fields: &mut [usize],
) -> usize
    ensures answer { result ≡ code (run_answer (reply_run (walk_reply s.now items index)) fields.old) }
    ensures numbers { fields.new ≡ run_left (reply_run (walk_reply s.now items index)) fields.old }
{
    c_body_replies::bark_walk_reply(s, items, index, fields)
}

// The reply in each item of a body, a row of numbers each, a refused one too; how many items there are.
#[unsafe(no_mangle)]
pub extern "C" fn bark_read_replies(s: &[u8], rows: &mut [usize]) -> usize
    ensures answer { result ≡ code (rows_answer s.now (length rows.old)) }
    ensures rows { rows.new ≡ written (rows_answer s.now (length rows.old)) (reply_rows s.now) rows.old }
{
    c_reply_walk::bark_read_replies(s, rows)
}

// A message and all that it holds, a row of numbers each; how many rows there are.
#[unsafe(no_mangle)]
pub extern "C" fn bark_read_nested(s: &[u8], rows: &mut [u16]) -> usize
    ensures answer { result ≡ code (counted (nested s.now) (length rows.old)) }
    ensures rows { rows.new ≡ stored_rows (nested s.now) rows.old }
{
    c_nested::bark_read_nested(s, rows)
}

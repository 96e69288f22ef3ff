// The replies in a body, for C.
#![tactic(auto)]

ghost use Rattle.std.specs.Prelude.{◌≡◌};
ghost use Rattle.wire.specs.Answers.{paper};
ghost use Rattle.body_replies.specs.Replies.{walk_reply, body_reply};
ghost use Rattle.c_answers.specs.Codes.{code, run_answer, run_left};
ghost use Rattle.c_reply_numbers.specs.Numbers.{reply_run};

use body_replies::{reply_item, walk_reply};
use c_answers::{fill, refusal_answer};
use c_reply_numbers::reply_numbers;
use reply_header::MessageReply;
use wire::Refusal;

// What was read of a reply's header, as its six numbers.
fn fill_reply(w: Result<MessageReply, Refusal>, fields: &mut [usize]) -> usize
    ensures answer { result ≡ code (run_answer (reply_run (paper w)) fields.old) }
    ensures numbers { fields.new ≡ run_left (reply_run (paper w)) fields.old }
{
    match w {
        Err(e) => refusal_answer(e), // C interface: one number
        Ok(m) => fill(fields, &reply_numbers(m)),
    }
}

// The reply in an item of a body.
#[unsafe(no_mangle)]
pub extern "C" fn bark_reply_item(s: &[u8], index: usize, fields: &mut [usize]) -> usize
    ensures answer { result ≡ code (run_answer (reply_run (body_reply s.now index)) fields.old) }
    ensures numbers { fields.new ≡ run_left (reply_run (body_reply s.now index)) fields.old }
{
    fill_reply(reply_item(s, index), fields)
}

// The same for a walk: the caller says how many items there are, and the table is not judged again.
#[unsafe(no_mangle)]
pub extern "C" fn bark_walk_reply(
    s: &[u8],
    items: usize,
    index: usize,
    fields: &mut [usize],
) -> usize
    ensures answer { result ≡ code (run_answer (reply_run (walk_reply s.now items index)) fields.old) }
    ensures numbers { fields.new ≡ run_left (reply_run (walk_reply s.now items index)) fields.old }
{
    fill_reply(walk_reply(s, items, index), fields)
}

// The reply to a Forward Close, for C: read. include/barkcushion.h says what it answers.
#![tactic(auto)]

ghost use Rattle.std.specs.Prelude.{◌≡◌};
ghost use Rattle.c_answers.specs.Codes.{code, run_answer, run_left};
ghost use Rattle.c_close_replies.specs.CloseReplies.{close_success_numbers, close_reply_run};

use c_answers::{fill, refusal_answer};
use c_failure_numbers::failure_numbers;
use c_reply_numbers::reply_numbers;
use connection::ForwardCloseSuccess;
use reply_header::MessageReply;
use reply_read::{Reply, read_forward_close_reply};

// One that was served, as numbers.
fn served_numbers(m: MessageReply, c: ForwardCloseSuccess, start: usize, len: usize) -> [usize; 12]
    ensures { result ≡ close_success_numbers m c start len }
{
    let mut numbers = [0; 12];
    numbers[..6].copy_from_slice(&reply_numbers(m));
    numbers[6..].copy_from_slice(&[
        1,
        c.connection_serial_number as usize,
        c.originator_vendor_id as usize,
        c.originator_serial_number as usize,
        start,
        len,
    ]);
    numbers
}

// Reads a Forward Close reply; the caller says whether a failure is a routing error.
#[unsafe(no_mangle)]
pub extern "C" fn bark_read_forward_close_reply(
    routing: bool,
    s: &[u8],
    fields: &mut [usize],
) -> usize
    ensures answer { result ≡ code (run_answer (close_reply_run routing s.now) fields.old) }
    ensures numbers { fields.new ≡ run_left (close_reply_run routing s.now) fields.old }
{
    match read_forward_close_reply(routing, s) {
        Err(e) => refusal_answer(e), // C interface: one number
        Ok(Reply::Failure(m, f)) => fill(fields, &failure_numbers(m, f)),
        Ok(Reply::Success(m, c, start, len)) => fill(fields, &served_numbers(m, c, start, len)),
    }
}

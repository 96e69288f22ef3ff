// The reply to a Forward Open, for C: read. include/barkcushion.h says what it answers.
#![tactic(auto)]

ghost use Rattle.std.specs.Prelude.{◌≡◌};
ghost use Rattle.c_answers.specs.Codes.{code, run_answer, run_left};
ghost use Rattle.c_open_replies.specs.OpenReplies.{open_success_numbers, open_reply_run};

use c_answers::{fill, refusal_answer};
use c_failure_numbers::failure_numbers;
use c_reply_numbers::reply_numbers;
use connection::ForwardOpenSuccess;
use reply_header::MessageReply;
use reply_read::{Reply, read_forward_open_reply};

// One that was served, as numbers.
fn served_numbers(m: MessageReply, o: ForwardOpenSuccess, start: usize, len: usize) -> [usize; 16]
    ensures { result ≡ open_success_numbers m o start len }
{
    let mut numbers = [0; 16];
    numbers[..6].copy_from_slice(&reply_numbers(m));
    numbers[6..].copy_from_slice(&[
        1,
        o.connection_serial_number as usize,
        o.originator_vendor_id as usize,
        o.originator_serial_number as usize,
        o.o_t_connection_id as usize,
        o.t_o_connection_id as usize,
        o.o_t_api as usize,
        o.t_o_api as usize,
        start,
        len,
    ]);
    numbers
}

// Reads a Forward Open reply; the caller says whether a failure is a routing error.
#[unsafe(no_mangle)]
pub extern "C" fn bark_read_forward_open_reply(
    routing: bool,
    s: &[u8],
    fields: &mut [usize],
) -> usize
    ensures answer { result ≡ code (run_answer (open_reply_run routing s.now) fields.old) }
    ensures numbers { fields.new ≡ run_left (open_reply_run routing s.now) fields.old }
{
    match read_forward_open_reply(routing, s) {
        Err(e) => refusal_answer(e), // C interface: one number
        Ok(Reply::Failure(m, f)) => fill(fields, &failure_numbers(m, f)),
        Ok(Reply::Success(m, o, start, len)) => fill(fields, &served_numbers(m, o, start, len)),
    }
}

// A reply's header, for C: read. include/barkcushion.h says what it answers.
#![tactic(auto)]

ghost use Rattle.std.specs.Prelude.{◌≡◌};
ghost use Rattle.reply_header.specs.Headers.{read_header};
ghost use Rattle.c_answers.specs.Codes.{code, run_answer, run_left};
ghost use Rattle.c_reply_numbers.specs.Numbers.{reply_run};

use c_answers::{fill, refusal_answer};
use c_reply_numbers::reply_numbers;
use reply_header::read_reply_header;

// Reads a reply's header.
#[unsafe(no_mangle)]
pub extern "C" fn bark_read_reply(s: &[u8], fields: &mut [usize]) -> usize
    ensures answer { result ≡ code (run_answer (reply_run (read_header s.now)) fields.old) }
    ensures numbers { fields.new ≡ run_left (reply_run (read_header s.now)) fields.old }
{
    match read_reply_header(s) {
        Err(e) => refusal_answer(e), // C interface: one number
        Ok(m) => fill(fields, &reply_numbers(m)),
    }
}

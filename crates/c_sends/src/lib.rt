// Unconnected Send, for C: written over a path's bytes, and read. include/barkcushion.h says what each answers.
#![tactic(auto)]

ghost use Rattle.std.specs.Prelude.{◌≡◌, length};
ghost use Rattle.wire.specs.Answers.{with_room, written};
ghost use Rattle.connection_words.specs.Requests.{send_bytes};
ghost use Rattle.send_over.specs.Over.{send_over_size};
ghost use Rattle.c_answers.specs.Codes.{code, run_answer, run_left};
ghost use Rattle.c_sends.specs.Fields.{send_of, send_run};

use c_answers::{fill, refusal_answer, size_answer};
use connection::UnconnectedSend;
use send_over::write_unconnected_send_over;
use send_read::read_unconnected_send;

// Writes the data of an Unconnected Send over a path's bytes.
#[unsafe(no_mangle)]
pub extern "C" fn bark_write_unconnected_send(
    priority_ticks: u8,
    timeout_ticks: u8,
    message: &[u8],
    path: &[u8],
    out: &mut [u8],
) -> usize
    ensures answer { result ≡ code (with_room (send_over_size path.now (length message.now)) (length out.old)) }
    ensures bytes { out.new ≡ written (with_room (send_over_size path.now (length message.now)) (length out.old)) (send_bytes (send_of priority_ticks timeout_ticks) message.now path.now) out.old }
{
    let u = UnconnectedSend {
        priority_ticks,
        timeout_ticks,
    };
    size_answer(write_unconnected_send_over(u, message, path, out))
}

// Reads the data of an Unconnected Send.
#[unsafe(no_mangle)]
pub extern "C" fn bark_read_unconnected_send(s: &[u8], fields: &mut [usize]) -> usize
    ensures answer { result ≡ code (run_answer (send_run s.now) fields.old) }
    ensures numbers { fields.new ≡ run_left (send_run s.now) fields.old }
{
    match read_unconnected_send(s) {
        Err(e) => refusal_answer(e), // C interface: one number
        Ok(r) => {
            let numbers = [
                r.send.priority_ticks as usize,
                r.send.timeout_ticks as usize,
                r.message_start,
                r.message_len,
                r.path_start,
                r.path_len,
            ];
            fill(fields, &numbers)
        }
    }
}

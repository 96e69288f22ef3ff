// Messages, for C: written over a path's bytes, and read. include/barkcushion.h says what each answers.
#![tactic(auto)]

ghost use Rattle.std.specs.Prelude.{◌≡◌, length};
ghost use Rattle.wire.specs.Answers.{with_room, written};
ghost use Rattle.connection_words.specs.Requests.{message_bytes};
ghost use Rattle.message_over.specs.Over.{message_over_size};
ghost use Rattle.c_answers.specs.Codes.{code, run_answer, run_left};
ghost use Rattle.c_messages.specs.Fields.{message_run};

use c_answers::{fill, refusal_answer, size_answer};
use message_over::write_message_over;
use message_read::read_message;

// Writes a message over a path's bytes.
#[unsafe(no_mangle)]
pub extern "C" fn bark_write_message(service: u8, path: &[u8], data: &[u8], out: &mut [u8]) -> usize
    ensures answer { result ≡ code (with_room (message_over_size path.now (length «data».now)) (length out.old)) }
    ensures bytes { out.new ≡ written (with_room (message_over_size path.now (length «data».now)) (length out.old)) (message_bytes service path.now «data».now) out.old }
{
    size_answer(write_message_over(service, path, data, out))
}

// Reads a message.
#[unsafe(no_mangle)]
pub extern "C" fn bark_read_message(s: &[u8], fields: &mut [usize]) -> usize
    ensures answer { result ≡ code (run_answer (message_run s.now) fields.old) }
    ensures numbers { fields.new ≡ run_left (message_run s.now) fields.old }
{
    match read_message(s) {
        Err(e) => refusal_answer(e), // C interface: one number
        Ok(m) => {
            let service = m.service_code as usize;
            fill(
                fields,
                &[service, m.path_start, m.path_len, m.data_start, m.data_len],
            )
        }
    }
}

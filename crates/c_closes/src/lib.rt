// Forward Close for C: read as a run of numbers, and written over a path that was written before. include/barkcushion.h has what C sees.
#![tactic(auto)]

ghost use Rattle.std.specs.Prelude.{◌≡◌, length};
ghost use Rattle.wire.specs.Answers.{with_room, written};
ghost use Rattle.connection_words.specs.Requests.{close_bytes};
ghost use Rattle.close_over.specs.Over.{close_over_size};
ghost use Rattle.c_answers.specs.Codes.{code, run_answer, run_left};
ghost use Rattle.c_closes.specs.Closes.{close_run, close_of};

use c_answers::{fill, refusal_answer, size_answer};
use close_over::write_forward_close_over;
use close_read::read_forward_close;
use connection::ForwardCloseRequest;

// Reads a Forward Close.
#[unsafe(no_mangle)]
pub extern "C" fn bark_read_forward_close(s: &[u8], fields: &mut [usize]) -> usize
    ensures answer { result ≡ code (run_answer (close_run s.now) fields.old) }
    ensures numbers { fields.new ≡ run_left (close_run s.now) fields.old }
{
    match read_forward_close(s) {
        Err(e) => refusal_answer(e), // C interface: one number
        Ok(r) => {
            let numbers = [
                r.request.priority_time_ticks as usize,
                r.request.timeout_ticks as usize,
                r.request.connection_serial_number as usize,
                r.request.originator_vendor_id as usize,
                r.request.originator_serial_number as usize,
                r.path_start,
                r.path_len,
            ];
            fill(fields, &numbers)
        }
    }
}

// Writes a Forward Close.
#[unsafe(no_mangle)]
pub extern "C" fn bark_write_forward_close(
    priority_ticks: u8,
    timeout_ticks: u8,
    connection_serial_number: u16,
    vendor_id: u16,
    originator_serial_number: u32,
    path: &[u8],
    out: &mut [u8],
) -> usize
    ensures answer { result ≡ code (with_room (close_over_size path.now) (length out.old)) }
    ensures bytes { out.new ≡ written (with_room (close_over_size path.now) (length out.old)) (close_bytes (close_of priority_ticks timeout_ticks connection_serial_number vendor_id originator_serial_number) path.now) out.old }
{
    let c = ForwardCloseRequest {
        priority_time_ticks: priority_ticks,
        timeout_ticks,
        connection_serial_number,
        originator_vendor_id: vendor_id,
        originator_serial_number,
    };
    size_answer(write_forward_close_over(c, path, out))
}

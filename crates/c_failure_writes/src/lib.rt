// The reply to a Forward Open or a Forward Close that failed, for C: written. include/barkcushion.h says what it answers.
#![tactic(auto)]

ghost use Rattle.std.specs.Prelude.{◌≡◌, length};
ghost use Rattle.wire.specs.Answers.{with_room, written};
ghost use Rattle.failure_encode.specs.Failures.{failure_bytes};
ghost use Rattle.failure_encode.specs.Sizes.{failure_size};
ghost use Rattle.c_answers.specs.Codes.{code};
ghost use Rattle.c_statuses.specs.Statuses.{status_of};
ghost use Rattle.c_failure_writes.specs.Failures.{fail_of};

use c_answers::size_answer;
use c_statuses::status_of;
use connection::ForwardRequestFail;
use failure_encode::write_forward_failure;

// Writes the reply to either that failed.
#[unsafe(no_mangle)]
pub extern "C" fn bark_write_forward_failure(
    service: u8,
    general: u8,
    has_word: bool,
    word: u16,
    connection_serial_number: u16,
    vendor_id: u16,
    originator_serial_number: u32,
    has_remaining: bool,
    remaining: u8,
    out: &mut [u8],
) -> usize
    ensures answer { result ≡ code (with_room (failure_size (status_of general has_word word) (fail_of connection_serial_number vendor_id originator_serial_number has_remaining remaining)) (length out.old)) }
    ensures bytes { out.new ≡ written (with_room (failure_size (status_of general has_word word) (fail_of connection_serial_number vendor_id originator_serial_number has_remaining remaining)) (length out.old)) (failure_bytes service (status_of general has_word word) (fail_of connection_serial_number vendor_id originator_serial_number has_remaining remaining)) out.old }
{
    let status = status_of(general, has_word, word);
    let f = ForwardRequestFail {
        connection_serial_number,
        originator_vendor_id: vendor_id,
        originator_serial_number,
        remaining_path_size: has_remaining.then_some(remaining),
    };
    size_answer(write_forward_failure(service, status, f, out))
}

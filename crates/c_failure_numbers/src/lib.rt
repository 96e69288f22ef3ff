// A reply to a Forward Open or a Forward Close that failed, as the numbers that the functions for C fill.
#![tactic(auto)]

ghost use Rattle.std.specs.Prelude.{◌≡◌};
ghost use Rattle.c_failure_numbers.specs.Failures.{failure_numbers};

use c_reply_numbers::reply_numbers;
use connection::ForwardRequestFail;
use reply_header::MessageReply;

// The header's six, 0, what names the connection, whether the size of the path that was left is told, and that size or 0.
pub fn failure_numbers(m: MessageReply, f: ForwardRequestFail) -> [usize; 12]
    ensures { result ≡ failure_numbers m f }
{
    let size = f.remaining_path_size;
    let mut numbers = [0; 12];
    numbers[..6].copy_from_slice(&reply_numbers(m));
    numbers[6..].copy_from_slice(&[
        0,
        f.connection_serial_number as usize,
        f.originator_vendor_id as usize,
        f.originator_serial_number as usize,
        size.map_or(0, |_| 1),
        size.map_or(0, |words| words as usize),
    ]);
    numbers
}

// The Forward Close reply. Beside it in rseip-cip: `ForwardCloseReply` and `decode_forward_close_success`.
ghost use Rattle.std.specs.Prelude.{◌≡◌};
ghost use Rattle.wire.specs.Answers.{paper};
ghost use Rattle.reply_read.specs.Reads.{close_success_at, read_close_reply};

use crate::Reply;
use crate::record::{Served, read_reply};
use connection::ForwardCloseSuccess;
use wire::Refusal;
use wire_read::{u16_at, u32_at};

impl Served for ForwardCloseSuccess {
    ghost WIDTH = { 8 };

    const WIDTH: usize = 8;

    ghost fields = { close_success_at };

    fn read_at(s: &[u8], at: usize) -> ForwardCloseSuccess {
        ForwardCloseSuccess {
            connection_serial_number: u16_at(s, at),
            originator_vendor_id: u16_at(s, at + 2),
            originator_serial_number: u32_at(s, at + 4),
        }
    }
}

// Reads a Forward Close reply; the caller says whether a failure is a routing error.
pub fn read_forward_close_reply(
    routing: bool,
    s: &[u8],
) -> Result<Reply<ForwardCloseSuccess>, Refusal>
    ensures { paper result ≡ read_close_reply routing s.now }
{
    read_reply(routing, s)
}

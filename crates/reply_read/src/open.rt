// The Forward Open reply. Beside it in rseip-cip: `ForwardOpenReply` and `decode_forward_open_success`.
ghost use Rattle.std.specs.Prelude.{◌≡◌};
ghost use Rattle.wire.specs.Answers.{paper};
ghost use Rattle.reply_read.specs.Reads.{open_success_at, read_open_reply};

use crate::Reply;
use crate::record::{Served, read_reply};
use connection::ForwardOpenSuccess;
use wire::Refusal;
use wire_read::{u16_at, u32_at};

impl Served for ForwardOpenSuccess {
    ghost WIDTH = { 24 };

    const WIDTH: usize = 24;

    ghost fields = { open_success_at };

    fn read_at(s: &[u8], at: usize) -> ForwardOpenSuccess {
        ForwardOpenSuccess {
            o_t_connection_id: u32_at(s, at),
            t_o_connection_id: u32_at(s, at + 4),
            connection_serial_number: u16_at(s, at + 8),
            originator_vendor_id: u16_at(s, at + 10),
            originator_serial_number: u32_at(s, at + 12),
            o_t_api: u32_at(s, at + 16),
            t_o_api: u32_at(s, at + 20),
        }
    }
}

// Reads a Forward Open reply; the caller says whether a failure is a routing error.
pub fn read_forward_open_reply(
    routing: bool,
    s: &[u8],
) -> Result<Reply<ForwardOpenSuccess>, Refusal>
    ensures { paper result ≡ read_open_reply routing s.now }
{
    read_reply(routing, s)
}

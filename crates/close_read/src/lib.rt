// Forward Close, read: ten bytes, path size, a reserved byte, path. rseip-cip has no such reader: it is added.
// The reader answers the record, and start and length of its path in the input; the path is judged and its segments are read from that part.
#![tactic(auto)]

ghost use Rattle.std.specs.Prelude.{◌≡◌};
ghost use Rattle.close_read.specs.Reads.{close_at, paper_close, read_close};

use connection::ForwardCloseRequest;
use message_read::padded_route_at;
use request_first::first_byte;
use wire::Refusal;
use wire_read::{byte_at, u16_at, u32_at};

// The record, and start and length of its path in the input.
#[derive(Clone, Copy)]
pub struct CloseRead {
    pub request: ForwardCloseRequest,
    pub path_start: usize,
    pub path_len: usize,
}

fn close_at(s: &[u8]) -> ForwardCloseRequest
    ensures { result ≡ close_at s.now }
{
    ForwardCloseRequest {
        priority_time_ticks: byte_at(s, 0),
        timeout_ticks: byte_at(s, 1),
        connection_serial_number: u16_at(s, 2),
        originator_vendor_id: u16_at(s, 4),
        originator_serial_number: u32_at(s, 6),
    }
}

// Reads a Forward Close.
#[tactic(auto, using(crate::proofs::ReadLaws::close_laws))]
pub fn read_forward_close(s: &[u8]) -> Result<CloseRead, Refusal>
    ensures { paper_close result ≡ read_close s.now }
{
    first_byte(s)?;
    let path_len = padded_route_at(s, 10)?;
    Ok(CloseRead {
        request: close_at(s),
        path_start: 12,
        path_len,
    })
}

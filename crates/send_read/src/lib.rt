// Unconnected Send, read: two bytes, the message's size, the message, a zero where it is odd, path size, a reserved byte, path. rseip-cip has no
// such reader: it is added.
// The reader answers the record, and its parts as starts and lengths in the input; the path is judged and its segments are read from that part.
#![tactic(auto)]

ghost use Rattle.std.specs.Prelude.{◌≡◌};
ghost use Rattle.wire.specs.Answers.{paper};
ghost use Rattle.request_first.specs.Firsts.{verdict};
ghost use Rattle.send_read.specs.Reads.{message_rules, paper_send, send_behind, read_send};

use connection::UnconnectedSend;
use message_read::padded_route_at;
use request_first::first_byte;
use wire::Refusal;
use wire_read::{byte_at, u16_at};

// The record, start and length of the message in the input, and of the path.
#[derive(Clone, Copy)]
pub struct SendRead {
    pub send: UnconnectedSend,
    pub message_start: usize,
    pub message_len: usize,
    pub path_start: usize,
    pub path_len: usize,
}

// A message of m bytes, and the zero behind it where m is odd.
#[tactic(auto, using(crate::proofs::ReadLaws::send_laws))]
fn judge_message(s: &[u8], m: u16) -> Result<(), Refusal>
    ensures { paper result ≡ verdict (message_rules s.now m) }
{
    let end = 4 + m as usize;
    if s.len() < end {
        return Err(Refusal::Short);
    }
    if m % 2 == 0 {
        return Ok(());
    }
    match s.get(end) {
        None => Err(Refusal::Short),
        Some(0) => Ok(()),
        Some(_) => Err(Refusal::Form),
    }
}

// What follows the message's size m.
#[tactic(auto, using(crate::proofs::ReadLaws::send_laws))]
fn send_behind(s: &[u8], m: u16) -> Result<SendRead, Refusal>
    ensures { paper_send result ≡ send_behind s.now m }
{
    judge_message(s, m)?;
    let message_len = m as usize;
    let end = 4 + message_len + message_len % 2;
    let path_len = padded_route_at(s, end)?;
    Ok(SendRead {
        send: UnconnectedSend {
            priority_ticks: byte_at(s, 0),
            timeout_ticks: byte_at(s, 1),
        },
        message_start: 4,
        message_len,
        path_start: end + 2,
        path_len,
    })
}

// Reads an Unconnected Send; its message is plain bytes here.
#[tactic(auto, using(crate::proofs::ReadLaws::send_laws))]
pub fn read_unconnected_send(s: &[u8]) -> Result<SendRead, Refusal>
    ensures { paper_send result ≡ read_send s.now }
{
    first_byte(s)?;
    if s.len() < 4 {
        return Err(Refusal::Short);
    }
    let m = u16_at(s, 2);
    send_behind(s, m)
}

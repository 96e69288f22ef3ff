// A reply's header: service, a reserved byte, general status, word count, extended words. Beside it in rseip-cip: `MessageReply` in src/message.rs,
// and `decode_service_and_status` in src/codec/decode/message_reply.rs.
#![tactic(auto)]

ghost use Rattle.std.specs.Prelude.{◌≡◌};
ghost use Rattle.wire.specs.Answers.{paper};
ghost use Rattle.reply_header.specs.Headers.{status_at, read_header};

use statuses::Status;
use wire::Refusal;
use wire_read::{byte_at, u16_at};

// Words of extended status; its twin stands in specs/Headers.antt.
const MOST_WORDS: u8 = 1;

// Service and status, and the part of the reply that is data.
#[derive(Clone, Copy)]
pub struct MessageReply {
    pub reply_service: u8,
    pub status: Status,
    pub data_start: usize,
    pub data_len: usize,
}

// The status in a header that was judged.
fn status_at(s: &[u8]) -> Status
    ensures { result ≡ status_at s.now }
{
    Status {
        general: byte_at(s, 2),
        extended: match byte_at(s, 3) {
            0 => None,
            _ => Some(u16_at(s, 4)),
        },
    }
}

// Reads a reply's header; what follows it is data.
#[tactic(auto, using(crate::proofs::HeaderLaws::header_laws))]
pub fn read_reply_header(s: &[u8]) -> Result<MessageReply, Refusal>
    ensures { paper result ≡ read_header s.now }
{
    if connection::MAX_RECORD < s.len() {
        return Err(Refusal::Limit);
    }
    if s.len() < 4 {
        return Err(Refusal::Short);
    }
    // in a usize: 128 words are 256 bytes
    let words = byte_at(s, 3);
    let data_start = 4 + 2 * (words as usize);
    if s.len() < data_start {
        return Err(Refusal::Short);
    }
    if MOST_WORDS < words {
        return Err(Refusal::Words);
    }
    Ok(MessageReply {
        reply_service: byte_at(s, 0),
        status: status_at(s),
        data_start,
        data_len: s.len() - data_start,
    })
}

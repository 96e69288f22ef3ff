// The message request: service, path size, path, data.
ghost use Rattle.std.specs.Prelude.{◌≡◌, ◌+◌, ◌≤◌, length};
ghost use Rattle.wire.specs.Answers.{paper};
ghost use Rattle.connection.specs.Limits.{max_path};
ghost use Rattle.message_read.specs.Reads.{message_at, read_message};

use crate::MessageRequest;
use crate::route::{path_at, path_size};
use wire::Refusal;

// The message whose path has len bytes.
fn message_at(s: &[u8], len: usize) -> MessageRequest
    requires { (len ≤ max_path) × (2 + len ≤ length s.now) }
    ensures { result ≡ message_at s.now len }
{
    let data_start = 2 + len;
    MessageRequest {
        service_code: s[0],
        path_start: 2,
        path_len: len,
        data_start,
        data_len: s.len() - data_start,
    }
}

// Reads a message; what follows the path is data.
#[tactic(auto, using(crate::proofs::ReadLaws::message_laws))]
pub fn read_message(s: &[u8]) -> Result<MessageRequest, Refusal>
    ensures { paper result ≡ read_message s.now }
{
    if connection::MAX_RECORD < s.len() {
        return Err(Refusal::Limit);
    }
    let len = path_size(s, 1)?;
    path_at(s, 2, len)?;
    Ok(message_at(s, len))
}

// The message request: its size. Beside it in rseip-cip: src/codec/encode/message.rs.
ghost use Rattle.std.specs.Prelude.{◌≡◌, length};
ghost use Rattle.wire.specs.Answers.{paper};
ghost use Rattle.request_sizes.specs.Sizes.{message_size};

use crate::record::record_size;
use epath_sizes::Path;
use route::route_size;
use wire::Refusal;

// How many bytes a message takes.
#[tactic(auto, using(crate::proofs::SizeLaws::size_laws))]
pub fn message_size(p: Path, pool: &[u8], data: &[u8]) -> Result<usize, Refusal>
    ensures { paper result ≡ message_size pool.now p (length «data».now) }
{
    let n = route_size(p, pool)?;
    record_size(2 + n, data.len())
}

// Unconnected Send: its size. Beside it in rseip-cip: `UnconnectedSend` in src/codec/encode.rs and src/service/request.rs.
ghost use Rattle.std.specs.Prelude.{◌≡◌, length};
ghost use Rattle.wire.specs.Answers.{paper};
ghost use Rattle.request_sizes.specs.Sizes.{send_size};

use crate::record::record_size;
use epath_sizes::Path;
use route::route_size;
use wire::Refusal;

// How many bytes an Unconnected Send takes.
#[tactic(auto, using(crate::proofs::SizeLaws::size_laws))]
pub fn unconnected_send_size(message: &[u8], p: Path, pool: &[u8]) -> Result<usize, Refusal>
    ensures { paper result ≡ send_size pool.now p (length message.now) }
{
    let n = route_size(p, pool)?;
    let m = message.len();
    record_size(6 + n + m % 2, m)
}

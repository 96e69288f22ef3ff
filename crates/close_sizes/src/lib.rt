// Forward Close: its size. Beside it in rseip-cip: `ForwardCloseRequest` in src/codec/encode.rs.
#![tactic(auto)]

ghost use Rattle.std.specs.Prelude.{◌≡◌};
ghost use Rattle.wire.specs.Answers.{paper};
ghost use Rattle.close_sizes.specs.Sizes.{close_size};

use epath_sizes::Path;
use route::route_size;
use wire::Refusal;

// How many bytes a Forward Close takes.
#[tactic(auto, using(crate::proofs::SizeLaws::size_laws))]
pub fn forward_close_size(p: Path, pool: &[u8]) -> Result<usize, Refusal>
    ensures { paper result ≡ close_size pool.now p }
{
    let n = route_size(p, pool)?;
    Ok(12 + n)
}

// CIP paths: how many bytes a list of segments takes. Beside it in rseip-cip: `bytes_count` of `EPath`, src/codec/encode/epath.rs.
#![tactic(auto)]

ghost use Rattle.std.specs.Prelude.{◌≡◌};
ghost use Rattle.wire.specs.Answers.{paper};
ghost use Rattle.epath_sizes.specs.Sizes.{path_size};

use epath_sizes::{Path, segment_size};
use wire::Refusal;

// A list's first refusal, or how many bytes it takes.
#[tactic(auto, using(epath_sizes::proofs::PathLaws::summing_laws))]
pub fn path_size(p: Path, pool: &[u8]) -> Result<usize, Refusal>
    ensures { paper result ≡ path_size pool.now p }
{
    if epath_sizes::MAX_SEGMENTS < p.count {
        return Err(Refusal::Limit);
    }
    let mut total = 0;
    for slot in &p.slots[..p.count] {
        total += segment_size(slot.segment, pool)?;
    }
    Ok(total)
}

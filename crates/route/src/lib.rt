// The path behind a size byte.
#![tactic(auto)]

ghost use Rattle.std.specs.Prelude.{◌≡◌};
ghost use Rattle.wire.specs.Answers.{paper};
ghost use Rattle.route.specs.Routes.{route_size};

use epath_sizes::Path;
use path_sizes::path_size;
use wire::Refusal;

// How many bytes a path behind a size byte takes.
#[tactic(auto, using(crate::proofs::RouteLaws::route_laws))]
pub fn route_size(p: Path, pool: &[u8]) -> Result<usize, Refusal>
    ensures { paper result ≡ route_size pool.now p }
{
    let n = path_size(p, pool)?;
    if connection::MAX_PATH < n {
        return Err(Refusal::Limit);
    }
    // the crate's check, which can't fire: every path has an even size
    if n % 2 != 0 {
        return Err(Refusal::Form);
    }
    Ok(n)
}

// The path behind a size byte, given as its bytes already written: judged, and not taken apart.
#![tactic(auto)]

ghost use Rattle.std.specs.Prelude.{◌≡◌};
ghost use Rattle.wire.specs.Answers.{paper};
ghost use Rattle.route_written.specs.Written.{written_route, over_size};

use epath_check::check_path;
use wire::Refusal;

// How many bytes a written path behind a size byte takes.
#[tactic(auto, using(crate::proofs::WrittenLaws::written_laws))]
pub fn written_route(path: &[u8]) -> Result<usize, Refusal>
    ensures { paper result ≡ written_route path.now }
{
    if connection::MAX_PATH < path.len() {
        return Err(Refusal::Limit);
    }
    check_path(path)?;
    Ok(path.len())
}

// How many bytes a record takes that has head bytes and rest of a lent part beside a written path.
#[tactic(auto, using(crate::proofs::RecordLaws::record_laws))]
pub fn written_record(path: &[u8], head: usize, rest: usize) -> Result<usize, Refusal>
    ensures { paper result ≡ over_size path.now head rest }
{
    let n = written_route(path)?;
    let left = connection::MAX_RECORD - n;
    if left < head || left - head < rest {
        return Err(Refusal::Limit);
    }
    Ok(head + n + rest)
}

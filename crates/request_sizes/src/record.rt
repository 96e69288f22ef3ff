// The limit of a record.
ghost use Rattle.std.specs.Prelude.{◌≡◌, ◌+◌, ◌≤◌};
ghost use Rattle.connection.specs.Limits.{max_record};
ghost use Rattle.wire.specs.Answers.{paper, within_limit};

use wire::Refusal;

// The size of a record that has head bytes beside n of a lent part.
#[tactic(auto, using(crate::proofs::SizeLaws::record_laws))]
pub(crate) fn record_size(head: usize, n: usize) -> Result<usize, Refusal>
    requires { head ≤ 1000 }
    ensures { paper result ≡ within_limit max_record (head + n) }
{
    if connection::MAX_RECORD - head < n {
        return Err(Refusal::Limit);
    }
    Ok(head + n)
}

// What the Connection Manager's requests share: the first byte, read. rseip-cip has no readers of requests: they are added.
#![tactic(auto)]

ghost use Rattle.std.specs.Prelude.{◌≡◌};
ghost use Rattle.wire.specs.Answers.{paper};
ghost use Rattle.request_first.specs.Firsts.{verdict, first_rules};

use wire::Refusal;

// The low four bits of the first byte; those above are reserved.
const MOST_TICKS: u8 = 15;

// The whole limit, and the first byte of a Connection Manager's request.
#[tactic(auto, using(crate::proofs::FirstLaws::first_laws))]
pub fn first_byte(s: &[u8]) -> Result<(), Refusal>
    ensures { paper result ≡ verdict (first_rules s.now) }
{
    if connection::MAX_RECORD < s.len() {
        return Err(Refusal::Limit);
    }
    let Some(&ticks) = s.first() else {
        return Err(Refusal::Short);
    };
    if MOST_TICKS < ticks {
        return Err(Refusal::Form);
    }
    Ok(())
}

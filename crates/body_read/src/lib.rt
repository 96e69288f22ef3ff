// The data of a Multiple Service Packet, a body, judged: every offset, before any item is handed out. Beside it in rseip-cip: the front of
// `ReplyIter::next` in src/service/common_services/multiple_packet.rs.
#![tactic(auto)]

ghost use Rattle.std.specs.Prelude.{◌≡◌, ◌-◌, ◌≤◌};
ghost use Rattle.wire.specs.Answers.{done, judged, paper};
ghost use Rattle.connection.specs.Limits.{max_record};
ghost use Rattle.body_read.specs.Reads.{FirstAt, later_rules, table_rules, read_body};

use wire::Refusal;
use wire_read::u16_at;

// The offsets behind the first: each is larger than the one before, and leaves a byte behind it.
#[tactic(auto, using(crate::proofs::ReadLaws::reading_laws))]
fn judge_later(s: &[u8], n: usize, first: usize) -> Result<usize, Refusal>
    requires { FirstAt s.now n first }
    ensures { paper result ≡ judged (later_rules (n - 1) s.now 0) (done n) }
{
    let mut last = first;
    // not a `for` over a range: the tests of `u16_at` would stay in the loop, and all that judges a table would take more than twice the time
    let mut k = 0;
    while k + 1 < n {
        let at = 4 + 2 * k;
        if s.len() < at + 2 {
            return Err(Refusal::Short);
        }
        let offset = u16_at(s, at) as usize;
        if offset <= last {
            return Err(Refusal::Offset);
        }
        if s.len() <= offset {
            return Err(Refusal::Offset);
        }
        last = offset;
        k += 1;
    }
    Ok(n)
}

// The table of n offsets: the first is where the table ends, and leaves a byte behind it.
#[tactic(auto, using(crate::proofs::ReadLaws::table_laws))]
fn judge_table(s: &[u8], n: usize) -> Result<usize, Refusal>
    requires { (1 ≤ n) × (n ≤ max_record) }
    ensures { paper result ≡ judged (table_rules n s.now) (done n) }
{
    if s.len() < 4 {
        return Err(Refusal::Short);
    }
    let first = u16_at(s, 2) as usize;
    if first != 2 + 2 * n {
        return Err(Refusal::Offset);
    }
    if first < s.len() {
        return judge_later(s, n, first);
    }
    Err(Refusal::Offset)
}

// How many items a body has.
#[tactic(auto, using(crate::proofs::ReadLaws::read_laws))]
pub fn read_body(s: &[u8]) -> Result<usize, Refusal>
    ensures { paper result ≡ read_body s.now }
{
    if connection::MAX_RECORD < s.len() {
        return Err(Refusal::Limit);
    }
    if s.len() < 2 {
        return Err(Refusal::Short);
    }
    match u16_at(s, 0) as usize {
        0 if 2 < s.len() => Err(Refusal::Leftover),
        0 => Ok(0),
        n => judge_table(s, n),
    }
}

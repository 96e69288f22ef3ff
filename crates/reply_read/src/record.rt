// Either reply, read by the record that tells of success. What is required of places only keeps their sums from wrapping; a type for such places,
// with that bound as a ghost field, would be longer than the clause.
ghost use Rattle.std.specs.Prelude.{◌≡◌, ◌≤◌, ℕ, List};
ghost use Rattle.wire.specs.Answers.{paper};
ghost use Rattle.reply_read.specs.Reads.{app_data, reply_data, read_reply};

use crate::Reply;
use crate::failure::read_fail;
use reply_header::{MessageReply, read_reply_header};
use statuses::is_ok;
use wire::Refusal;
use wire_read::byte_at;

// A record that tells of success.
pub(crate) trait Served: Copy {
    // bytes of its fields
    ghost WIDTH: { ℕ };

    const WIDTH: usize;

    ghost fields: { List ℕ → ℕ → Self };

    fn read_at(s: &[u8], at: usize) -> Self
        requires { at ≤ 70000 }
        ensures { result ≡ fields s.now at };
}

// How many bytes of application data there are, by the size at a place: both success records end in this size in words, a reserved byte, the data.
#[tactic(auto, using(crate::proofs::ReadLaws::field_laws))]
fn app_data(s: &[u8], at: usize) -> Result<usize, Refusal>
    requires { at ≤ 70000 }
    ensures { paper result ≡ app_data s.now at }
{
    if s.len() < at + 2 {
        return Err(Refusal::Short);
    }
    // the data stands behind the reserved byte, and so does the room it needs
    let len = 2 * (byte_at(s, at) as usize);
    if s.len() < at + 2 + len {
        return Err(Refusal::Short);
    }
    Ok(len)
}

// What follows the header.
#[tactic(auto, unfolding(crate::specs::Reads::reply_data))]
fn reply_data<T: Served>(routing: bool, s: &[u8], m: MessageReply) -> Result<Reply<T>, Refusal>
    requires near { m.data_start ≤ 1000 }
    requires few { T.WIDTH ≤ 1000 }
    ensures { paper result ≡ reply_data T.fields T.WIDTH routing s.now m }
{
    let at = m.data_start;
    if is_ok(m.status) {
        let size_at = at + T::WIDTH;
        let len = app_data(s, size_at)?;
        let x = T::read_at(s, at);
        return Ok(Reply::Success(m, x, size_at + 2, len));
    }
    let f = read_fail(routing, s, at)?;
    Ok(Reply::Failure(m, f))
}

// Reads a reply; the caller says whether a failure is a routing error.
#[tactic(auto, using(crate::proofs::ReadLaws::header_near), unfolding(crate::specs::Reads::read_reply))]
pub(crate) fn read_reply<T: Served>(routing: bool, s: &[u8]) -> Result<Reply<T>, Refusal>
    requires { T.WIDTH ≤ 1000 }
    ensures { paper result ≡ read_reply T.fields T.WIDTH routing s.now }
{
    let m = read_reply_header(s)?;
    reply_data(routing, s, m)
}

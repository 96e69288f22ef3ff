// Two bodies, joined: the first's items and then the second's. The crate rseip-cip has no join.
#![tactic(auto)]

ghost use Rattle.std.specs.Prelude.{◌≡◌, length};
ghost use Rattle.std.proofs.lemmas.List.Edits.{sets};
ghost use Rattle.wire.specs.Answers.{paper, with_room, written};
ghost use Rattle.wire.specs.Folds.{joined};
ghost use Rattle.body_sizes.specs.Bodies.{two_bytes};
ghost use Rattle.body_join.specs.Joins.{join_of, join_size, offsets_from, raised, table_of, Raisable, Joinable};

use body_read::read_body;
use wire::Refusal;
use wire_read::{part_of, u16_at};
use wire_write::{put_bytes, put_u16};

// How many bytes the joined body takes: each body has a count, and one count stays.
#[tactic(auto, using(crate::proofs::JoinLaws::size_laws))]
fn join_size(first: &[u8], second: &[u8]) -> Result<usize, Refusal>
    ensures { paper result ≡ join_size first.now second.now }
{
    read_body(first)?;
    read_body(second)?;
    let total = first.len() + second.len() - 2;
    if connection::MAX_RECORD < total {
        return Err(Refusal::Limit);
    }
    Ok(total)
}

// Stores the n offsets of a body from a place on, each moved on by so many bytes.
#[tactic(auto, using(crate::proofs::JoinLaws::raising_laws))]
fn put_raised(s: &[u8], n: usize, by: usize, out: &mut [u8], at: usize)
    requires { Raisable s.now n by at }
    ensures { out.new ≡ sets out.old at (joined two_bytes (raised by (offsets_from n s.now 0))) }
{
    for i in 0..n {
        let offset = u16_at(s, 2 + 2 * i) as usize + by;
        put_u16(out, at + 2 * i, offset as u16);
    }
}

// The count and the offsets of two bodies that were judged. The second's offsets come behind the first's, so the first's items move on by those, and
// the second's by all that the first has but for its count.
#[tactic(auto, using(crate::proofs::JoinLaws::put_laws))]
fn put_table(first: &[u8], second: &[u8], out: &mut [u8])
    requires { Joinable first.now second.now }
    ensures { out.new ≡ sets out.old 0 (joined two_bytes (table_of first.now second.now)) }
{
    let m = u16_at(first, 0) as usize;
    let n = u16_at(second, 0) as usize;
    put_u16(out, 0, (m + n) as u16);
    put_raised(first, m, 2 * n, out, 2);
    put_raised(second, n, first.len() - 2, out, 2 + 2 * m);
}

// Two bodies that were judged: the table, and the items of both.
#[tactic(auto, using(crate::proofs::JoinLaws::put_laws))]
fn put_joined(first: &[u8], second: &[u8], out: &mut [u8])
    requires { Joinable first.now second.now }
    ensures { out.new ≡ sets out.old 0 (join_of first.now second.now) }
{
    let m = u16_at(first, 0) as usize;
    let n = u16_at(second, 0) as usize;
    put_table(first, second, out);
    put_bytes(out, 2 + 2 * (m + n), part_of(first, 2 + 2 * m, first.len()));
    put_bytes(
        out,
        2 * n + first.len(),
        part_of(second, 2 + 2 * n, second.len()),
    );
}

// Writes the body of the first's items and then the second's at the front of out, or changes nothing.
#[tactic(auto, using(wire::proofs::Answers::writer_laws, crate::proofs::JoinLaws::join_laws))]
pub fn join_bodies(first: &[u8], second: &[u8], out: &mut [u8]) -> Result<usize, Refusal>
    ensures answer { paper result ≡ with_room (join_size first.now second.now) (length out.old) }
    ensures bytes { out.new ≡ written (with_room (join_size first.now second.now) (length out.old)) (join_of first.now second.now) out.old }
{
    // size, room, store, as every writer: one for all would take the store as a closure with its need, for no line less
    let size = join_size(first, second)?;
    if out.len() < size {
        return Err(Refusal::Room);
    }
    put_joined(first, second, out);
    Ok(size)
}

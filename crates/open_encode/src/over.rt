// Forward Open over a path that was written before: it is judged and copied, and no list of segments is needed.
ghost use Rattle.std.specs.Prelude.{◌≡◌, ◌≤◌, length};
ghost use Rattle.std.proofs.lemmas.List.Edits.{sets};
ghost use Rattle.wire.specs.Answers.{paper, with_room, written};
ghost use Rattle.connection.specs.Limits.{max_path};
ghost use Rattle.connection_words.specs.Requests.{open_bytes};
ghost use Rattle.open_encode.specs.Words.{GoodWords};
ghost use Rattle.open_encode.specs.Over.{open_over_size};

use crate::open::{put_open_head, put_open_rest};
use connection::OpenOptions;
use open_sizes::{front_size, open_base};
use route_written::written_route;
use wire::Refusal;
use wire_write::put_bytes;

// How many bytes a Forward Open over this path takes.
#[tactic(auto, using(open_sizes::proofs::SizeLaws::front_laws), unfolding(crate::specs::Over::open_over_size, crate::specs::Over::open_after))]
fn open_over_size(o: OpenOptions, path: &[u8]) -> Result<usize, Refusal>
    ensures { paper result ≡ open_over_size path.now o }
{
    let n = written_route(path)?;
    let front = front_size(o)?;
    Ok(front + n)
}

// A Forward Open that was judged.
#[tactic(auto, using(crate::proofs::WriteLaws::open_laid))]
fn put_open_over(o: OpenOptions, path: &[u8], out: &mut [u8])
    requires { GoodWords o × (length path.now ≤ max_path) }
    ensures { out.new ≡ sets out.old 0 (open_bytes o path.now) }
{
    put_bytes(out, open_base(o.large_open), path);
    put_open_head(o, out);
    put_open_rest(o, (path.len() / 2) as u8, out);
}

// Writes a Forward Open at the front of out, or changes nothing.
#[tactic(auto, using(wire::proofs::Answers::writer_laws, crate::proofs::OverLaws::judged_laws))]
pub fn write_forward_open_over(
    o: OpenOptions,
    path: &[u8],
    out: &mut [u8],
) -> Result<usize, Refusal>
    ensures answer { paper result ≡ with_room (open_over_size path.now o) (length out.old) }
    ensures bytes { out.new ≡ written (with_room (open_over_size path.now o) (length out.old)) (open_bytes o path.now) out.old }
{
    // size, room, store, as every writer: one for all would take the store as a closure with its need, for no line less
    let size = open_over_size(o, path)?;
    if out.len() < size {
        return Err(Refusal::Room);
    }
    put_open_over(o, path, out);
    Ok(size)
}

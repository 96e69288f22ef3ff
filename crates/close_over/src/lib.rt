// Forward Close over a path that was written before: it is judged and copied, and no list of segments is needed.
#![tactic(auto)]

ghost use Rattle.std.specs.Prelude.{◌≡◌, ◌≤◌, length};
ghost use Rattle.std.proofs.lemmas.List.Edits.{sets};
ghost use Rattle.wire.specs.Answers.{paper, with_room, written};
ghost use Rattle.connection.specs.Limits.{max_path};
ghost use Rattle.connection_words.specs.Requests.{close_bytes};
ghost use Rattle.close_over.specs.Over.{close_over_size};

use close_fields::put_close_fields;
use connection::ForwardCloseRequest;
use route_written::written_route;
use wire::Refusal;
use wire_write::put_bytes;

#[tactic(auto, using(crate::proofs::OverLaws::over_laws))]
fn close_over_size(path: &[u8]) -> Result<usize, Refusal>
    ensures { paper result ≡ close_over_size path.now }
{
    let n = written_route(path)?;
    Ok(12 + n)
}

// A Forward Close whose path was judged.
#[tactic(auto, using(close_fields::proofs::Laws::close_laid))]
fn put_close_over(c: ForwardCloseRequest, path: &[u8], out: &mut [u8])
    requires { length path.now ≤ max_path }
    ensures { out.new ≡ sets out.old 0 (close_bytes c path.now) }
{
    put_bytes(out, 12, path);
    put_close_fields(c, (path.len() / 2) as u8, out);
}

// Writes a Forward Close at the front of out, or changes nothing.
#[tactic(auto, using(wire::proofs::Answers::writer_laws, crate::proofs::OverLaws::judged_laws))]
pub fn write_forward_close_over(
    c: ForwardCloseRequest,
    path: &[u8],
    out: &mut [u8],
) -> Result<usize, Refusal>
    ensures answer { paper result ≡ with_room (close_over_size path.now) (length out.old) }
    ensures bytes { out.new ≡ written (with_room (close_over_size path.now) (length out.old)) (close_bytes c path.now) out.old }
{
    let size = close_over_size(path)?;
    if out.len() < size {
        return Err(Refusal::Room);
    }
    put_close_over(c, path, out);
    Ok(size)
}

// Forward Close: the writer over a list of segments. Beside it in rseip-cip: `ForwardCloseRequest` in src/codec/encode.rs.
#![tactic(auto)]

ghost use Rattle.std.specs.Prelude.{◌≡◌, length};
ghost use Rattle.std.proofs.lemmas.List.Edits.{sets};
ghost use Rattle.wire.specs.Answers.{paper, with_room, written};
ghost use Rattle.epath_sizes.specs.Segments.{encode};
ghost use Rattle.epath_sizes.specs.Lists.{segs_of};
ghost use Rattle.connection_words.specs.Requests.{close_bytes};
ghost use Rattle.close_sizes.specs.Sizes.{close_size};
ghost use Rattle.route.specs.Routes.{Ready};

use close_fields::put_close_fields;
use close_sizes::forward_close_size;
use connection::ForwardCloseRequest;
use epath_encode::write_path;
use epath_sizes::Path;
use wire::Refusal;

// A Forward Close that was judged.
#[tactic(auto, using(route::proofs::RouteLaws::put_laws, crate::proofs::WriteLaws::close_put))]
fn put_close(c: ForwardCloseRequest, p: Path, pool: &[u8], out: &mut [u8])
    requires { Ready pool.now p 12 out.old }
    ensures { out.new ≡ sets out.old 0 (close_bytes c (encode (segs_of pool.now p))) }
{
    let n = write_path(p, pool, &mut out[12..]).unwrap();
    put_close_fields(c, (n / 2) as u8, out);
}

// Writes a Forward Close at the front of out, or changes nothing.
#[tactic(auto, using(wire::proofs::Answers::writer_laws, close_sizes::proofs::SizeLaws::ready_laws, close_sizes::proofs::SizeLaws::length_laws))]
pub fn write_forward_close(
    c: ForwardCloseRequest,
    p: Path,
    pool: &[u8],
    out: &mut [u8],
) -> Result<usize, Refusal>
    ensures answer { paper result ≡ with_room (close_size pool.now p) (length out.old) }
    ensures bytes { out.new ≡ written (with_room (close_size pool.now p) (length out.old)) (close_bytes c (encode (segs_of pool.now p))) out.old }
{
    // size, room, store, as every writer: one for all would take the store as a closure with its need, for no line less
    let size = forward_close_size(p, pool)?;
    if out.len() < size {
        return Err(Refusal::Room);
    }
    put_close(c, p, pool, out);
    Ok(size)
}

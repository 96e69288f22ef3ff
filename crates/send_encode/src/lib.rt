// Unconnected Send: the writer over a list of segments. Beside it in rseip-cip: `UnconnectedSend` in src/codec/encode.rs and
// src/service/request.rs.
#![tactic(auto)]

ghost use Rattle.std.specs.Prelude.{◌≡◌, ◌+◌, ◌%◌, ◌≤◌, length};
ghost use Rattle.std.proofs.lemmas.List.Edits.{sets};
ghost use Rattle.wire.specs.Answers.{paper, with_room, written};
ghost use Rattle.epath_sizes.specs.Segments.{encode};
ghost use Rattle.epath_sizes.specs.Lists.{segs_of};
ghost use Rattle.connection.specs.Limits.{max_record};
ghost use Rattle.connection_words.specs.Requests.{send_bytes};
ghost use Rattle.request_sizes.specs.Sizes.{send_size};
ghost use Rattle.route.specs.Routes.{Ready};

use connection::UnconnectedSend;
use epath_encode::write_path;
use epath_sizes::Path;
use request_sizes::unconnected_send_size;
use send_fields::put_send_fields;
use wire::Refusal;
use wire_write::put_bytes;

// An Unconnected Send that was judged.
#[tactic(auto, using(route::proofs::RouteLaws::put_laws, crate::proofs::WriteLaws::send_put))]
fn put_send(u: UnconnectedSend, message: &[u8], p: Path, pool: &[u8], out: &mut [u8])
    requires { (length message.now ≤ max_record) × Ready pool.now p (6 + length message.now % 2 + length message.now) out.old }
    ensures { out.new ≡ sets out.old 0 (send_bytes u message.now (encode (segs_of pool.now p))) }
{
    let m = message.len();
    let at = 6 + m % 2 + m;
    let n = write_path(p, pool, &mut out[at..]).unwrap();
    put_bytes(out, 4, message);
    put_send_fields(u, m as u16, (n / 2) as u8, out);
}

// Writes an Unconnected Send at the front of out, or changes nothing. The message is plain bytes here.
#[tactic(auto, using(wire::proofs::Answers::writer_laws, request_sizes::proofs::SizeLaws::ready_laws, request_sizes::proofs::SizeLaws::length_laws))]
pub fn write_unconnected_send(
    u: UnconnectedSend,
    message: &[u8],
    p: Path,
    pool: &[u8],
    out: &mut [u8],
) -> Result<usize, Refusal>
    ensures answer { paper result ≡ with_room (send_size pool.now p (length message.now)) (length out.old) }
    ensures bytes { out.new ≡ written (with_room (send_size pool.now p (length message.now)) (length out.old)) (send_bytes u message.now (encode (segs_of pool.now p))) out.old }
{
    // size, room, store, as every writer: one for all would take the store as a closure with its need, for no line less
    let size = unconnected_send_size(message, p, pool)?;
    if out.len() < size {
        return Err(Refusal::Room);
    }
    put_send(u, message, p, pool, out);
    Ok(size)
}

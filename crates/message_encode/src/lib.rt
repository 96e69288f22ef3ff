// The message request: its writer over a list of segments. Beside it in rseip-cip: src/codec/encode/message.rs.
#![tactic(auto)]

ghost use Rattle.std.specs.Prelude.{◌≡◌, length};
ghost use Rattle.std.proofs.lemmas.List.Edits.{sets};
ghost use Rattle.wire.specs.Answers.{paper, with_room, written};
ghost use Rattle.epath_sizes.specs.Segments.{encode};
ghost use Rattle.epath_sizes.specs.Lists.{segs_of};
ghost use Rattle.connection_words.specs.Requests.{message_bytes};
ghost use Rattle.request_sizes.specs.Sizes.{message_size};
ghost use Rattle.route.specs.Routes.{Ready};

use epath_encode::write_path;
use epath_sizes::Path;
use request_sizes::message_size;
use wire::Refusal;
use wire_write::{put_byte, put_bytes};

// A message that was judged.
#[tactic(auto, using(route::proofs::RouteLaws::put_laws, crate::proofs::WriteLaws::message_put))]
fn put_message(service_code: u8, p: Path, pool: &[u8], data: &[u8], out: &mut [u8])
    requires { Ready pool.now p 2 out.old }
    ensures { out.new ≡ sets out.old 0 (message_bytes service_code (encode (segs_of pool.now p)) «data».now) }
{
    let n = write_path(p, pool, &mut out[2..]).unwrap();
    put_byte(out, 0, service_code);
    put_byte(out, 1, (n / 2) as u8);
    put_bytes(out, 2 + n, data);
}

// Writes a message at the front of out, or changes nothing: service, path size in words, path, data.
#[tactic(auto, using(wire::proofs::Answers::writer_laws, request_sizes::proofs::SizeLaws::ready_laws, request_sizes::proofs::SizeLaws::length_laws))]
pub fn write_message(
    service_code: u8,
    p: Path,
    pool: &[u8],
    data: &[u8],
    out: &mut [u8],
) -> Result<usize, Refusal>
    ensures answer { paper result ≡ with_room (message_size pool.now p (length «data».now)) (length out.old) }
    ensures bytes { out.new ≡ written (with_room (message_size pool.now p (length «data».now)) (length out.old)) (message_bytes service_code (encode (segs_of pool.now p)) «data».now) out.old }
{
    // size, room, store, as every writer: one for all would take the store as a closure with its need, for no line less
    let size = message_size(p, pool, data)?;
    if out.len() < size {
        return Err(Refusal::Room);
    }
    put_message(service_code, p, pool, data, out);
    Ok(size)
}

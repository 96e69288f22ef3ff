// Unconnected Send over a path that is given as its bytes, already written: judged, then copied. rseip-cip has none: it is added.
#![tactic(auto)]

ghost use Rattle.std.specs.Prelude.{◌≡◌, ◌≤◌, length};
ghost use Rattle.std.proofs.lemmas.List.Edits.{sets};
ghost use Rattle.wire.specs.Answers.{paper, with_room, written};
ghost use Rattle.connection.specs.Limits.{max_path, max_record};
ghost use Rattle.connection_words.specs.Requests.{send_bytes};
ghost use Rattle.send_over.specs.Over.{send_over_size};

use connection::UnconnectedSend;
use route_written::written_record;
use send_fields::put_send_fields;
use wire::Refusal;
use wire_write::put_bytes;

// An Unconnected Send over a path that was judged.
#[tactic(auto, using(send_fields::proofs::Laws::send_around))]
fn put_send_over(u: UnconnectedSend, message: &[u8], path: &[u8], out: &mut [u8])
    requires { (length message.now ≤ max_record) × (length path.now ≤ max_path) }
    ensures { out.new ≡ sets out.old 0 (send_bytes u message.now path.now) }
{
    let m = message.len();
    let n = path.len();
    put_bytes(out, 6 + m % 2 + m, path);
    put_bytes(out, 4, message);
    put_send_fields(u, m as u16, (n / 2) as u8, out);
}

// As write_unconnected_send, over a written path.
#[tactic(auto, using(wire::proofs::Answers::writer_laws, crate::proofs::OverLaws::over_laws))]
pub fn write_unconnected_send_over(
    u: UnconnectedSend,
    message: &[u8],
    path: &[u8],
    out: &mut [u8],
) -> Result<usize, Refusal>
    ensures answer { paper result ≡ with_room (send_over_size path.now (length message.now)) (length out.old) }
    ensures bytes { out.new ≡ written (with_room (send_over_size path.now (length message.now)) (length out.old)) (send_bytes u message.now path.now) out.old }
{
    let m = message.len();
    let size = written_record(path, 6 + m % 2, m)?;
    if out.len() < size {
        return Err(Refusal::Room);
    }
    put_send_over(u, message, path, out);
    Ok(size)
}

// The message request: its writer over a path that is given as its bytes, already written: judged, then copied. rseip-cip has none: it is added.
#![tactic(auto)]

ghost use Rattle.std.specs.Prelude.{◌≡◌, ◌≤◌, length};
ghost use Rattle.std.proofs.lemmas.List.Edits.{sets};
ghost use Rattle.wire.specs.Answers.{paper, with_room, written};
ghost use Rattle.connection.specs.Limits.{max_path};
ghost use Rattle.connection_words.specs.Requests.{message_bytes};
ghost use Rattle.message_over.specs.Over.{message_over_size};

use route_written::written_record;
use wire::Refusal;
use wire_write::{put_byte, put_bytes};

// A message over a path that was judged.
#[tactic(auto, using(connection_words::proofs::MessageStores::message_around))]
fn put_message_over(service_code: u8, path: &[u8], data: &[u8], out: &mut [u8])
    requires { length path.now ≤ max_path }
    ensures { out.new ≡ sets out.old 0 (message_bytes service_code path.now «data».now) }
{
    let n = path.len();
    put_bytes(out, 2, path);
    put_byte(out, 0, service_code);
    put_byte(out, 1, (n / 2) as u8);
    put_bytes(out, 2 + n, data);
}

// As write_message, over a written path.
#[tactic(auto, using(wire::proofs::Answers::writer_laws, crate::proofs::OverLaws::over_laws))]
pub fn write_message_over(
    service_code: u8,
    path: &[u8],
    data: &[u8],
    out: &mut [u8],
) -> Result<usize, Refusal>
    ensures answer { paper result ≡ with_room (message_over_size path.now (length «data».now)) (length out.old) }
    ensures bytes { out.new ≡ written (with_room (message_over_size path.now (length «data».now)) (length out.old)) (message_bytes service_code path.now «data».now) out.old }
{
    let size = written_record(path, 2, data.len())?;
    if out.len() < size {
        return Err(Refusal::Room);
    }
    put_message_over(service_code, path, data, out);
    Ok(size)
}

// The data of a Multiple Service Packet, a body: its writer. Beside it in rseip-cip: `MultipleServicesEncoder` in
// src/service/common_services/multiple_packet.rs.
// The items are lent end to end, and beside them a run of their lengths.
#![tactic(auto)]

ghost use Rattle.std.specs.Prelude.{◌≡◌, ◌+◌, ◌≤◌, length};
ghost use Rattle.std.proofs.lemmas.List.Edits.{sets};
ghost use Rattle.wire.specs.Answers.{paper, with_room, written};
ghost use Rattle.wire.specs.Folds.{joined};
ghost use Rattle.connection.specs.Limits.{max_record};
ghost use Rattle.body_sizes.specs.Bodies.{table_end, starts, sum_of, cut, body_of, two_bytes, body_size};

use body_sizes::body_size;
use wire::Refusal;
use wire_read::part_of;
use wire_write::{put_bytes, put_u16};

// Stores where each item starts.
#[tactic(auto, using(crate::proofs::WriteLaws::placing_laws))]
fn put_offsets(lengths: &[usize], out: &mut [u8])
    requires { table_end (length lengths.now) + sum_of lengths.now ≤ max_record }
    ensures { out.new ≡ sets out.old 2 (joined two_bytes (starts (table_end (length lengths.now)) lengths.now)) }
{
    let mut at = 2 + 2 * lengths.len();
    for (i, &n) in lengths.iter().enumerate() {
        put_u16(out, 2 + 2 * i, at as u16);
        at += n;
    }
}

// Writes the body of these items at the front of out, or changes nothing. Lent bytes past the last item are not used.
#[tactic(auto, using(wire::proofs::Answers::writer_laws, crate::proofs::WriteLaws::body_laws))]
pub fn write_body(items: &[u8], lengths: &[usize], out: &mut [u8]) -> Result<usize, Refusal>
    ensures answer { paper result ≡ with_room (body_size (length items.now) lengths.now) (length out.old) }
    ensures bytes { out.new ≡ written (with_room (body_size (length items.now) lengths.now) (length out.old)) (body_of (cut lengths.now items.now)) out.old }
{
    let size = body_size(items, lengths)?;
    if out.len() < size {
        return Err(Refusal::Room);
    }
    let first = 2 + 2 * lengths.len();
    put_u16(out, 0, lengths.len() as u16);
    put_offsets(lengths, out);
    put_bytes(out, first, part_of(items, 0, size - first));
    Ok(size)
}

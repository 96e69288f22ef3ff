// The reply to a Forward Open or a Forward Close that failed. Beside it in rseip-cip: `decode_forward_fail` in
// src/codec/decode/message_reply.rs; the crate has no such writer: added.
#![tactic(auto)]

ghost use Rattle.std.specs.Prelude.{◌≡◌, length};
ghost use Rattle.std.proofs.lemmas.List.Edits.{sets};
ghost use Rattle.wire.specs.Answers.{paper, with_room, written, Put};
ghost use Rattle.wire.specs.Records.{laid};
ghost use Rattle.statuses.specs.Layouts.{header_fields};
ghost use Rattle.failure_encode.specs.Failures.{failure_bytes};
ghost use Rattle.failure_encode.specs.Sizes.{failure_size};

use connection::ForwardRequestFail;
use statuses::Status;
use triads::put_triad;
use wire::Refusal;
use wire_write::{put_byte, put_bytes, put_u16};

// How many bytes a failure takes: 12, 2 more with an extended word, 1 more with a remaining path size.
#[tactic(auto, using(crate::proofs::SizeLaws::failure_ends))]
fn failure_size(status: Status, f: ForwardRequestFail) -> Result<usize, Refusal>
    ensures { paper result ≡ failure_size status f }
{
    if status.general == 0 {
        return Err(Refusal::Code);
    }
    match (status.extended, f.remaining_path_size) {
        (None, None) => Ok(12),
        (None, Some(_)) => Ok(13),
        (Some(_), None) => Ok(14),
        (Some(_), Some(_)) => Ok(15),
    }
}

// Stores the header, and says how long it is.
fn put_header(service: u8, status: Status, out: &mut [u8]) -> usize
    ensures { Put (laid (header_fields service status)) out.old result out.new }
{
    match status.extended {
        None => {
            put_bytes(out, 0, &[service, 0, status.general, 0]);
            4
        }
        Some(word) => {
            put_bytes(out, 0, &[service, 0, status.general, 1]);
            put_u16(out, 4, word);
            6
        }
    }
}

// A failure that was judged.
#[tactic(auto, using(crate::proofs::WriteLaws::failure_laws), unfolding(crate::specs::Failures::failure_bytes))]
fn put_failure(service: u8, status: Status, f: ForwardRequestFail, out: &mut [u8])
    ensures { out.new ≡ sets out.old 0 (failure_bytes service status f) }
{
    let at = put_header(service, status, out);
    put_triad(
        out,
        at,
        f.connection_serial_number,
        f.originator_vendor_id,
        f.originator_serial_number,
    );
    if let Some(words) = f.remaining_path_size {
        put_byte(out, at + 8, words);
    }
}

// Writes the reply at the front of out, or changes nothing.
#[tactic(auto, using(crate::proofs::Lengths::failure_length, wire::proofs::Stores::sets_overlay), unfolding(crate::specs::Sizes::failure_size, wire::specs::Answers::judged, wire::specs::Answers::breaks))]
pub fn write_forward_failure(
    service: u8,
    status: Status,
    f: ForwardRequestFail,
    out: &mut [u8],
) -> Result<usize, Refusal>
    ensures answer { paper result ≡ with_room (failure_size status f) (length out.old) }
    ensures bytes { out.new ≡ written (with_room (failure_size status f) (length out.old)) (failure_bytes service status f) out.old }
{
    // size, room, store, as every writer: one for all would take the store as a closure with its need, for no line less
    let size = failure_size(status, f)?;
    if out.len() < size {
        return Err(Refusal::Room);
    }
    put_failure(service, status, f, out);
    Ok(size)
}

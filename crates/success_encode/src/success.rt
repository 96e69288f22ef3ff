// What both replies that tell of success have alike: header, a record, application data. Beside it in rseip-cip: `app_data` in
// src/codec/decode/message_reply.rs; the crate has no such writer: added. What is required of places and lengths only keeps their sums from
// wrapping, and a type for that would be longer than the clauses.
ghost use Rattle.std.specs.Prelude.{◌≡◌, ◌+◌, ◌≤◌, length};
ghost use Rattle.std.proofs.lemmas.List.Edits.{sets};
ghost use Rattle.wire.specs.Answers.{paper, with_room, written};
ghost use Rattle.connection.specs.Limits.{max_app_data};
ghost use Rattle.success_encode.specs.Replies.{app_fields, success_bytes, with_fields};
ghost use Rattle.success_encode.specs.Sizes.{success_size};

use wire::Refusal;
use wire_write::put_bytes;

// How many bytes a success takes that has base bytes before its application data.
#[tactic(auto, using(crate::proofs::SizeLaws::app_laws))]
fn success_size(base: usize, app_data: &[u8]) -> Result<usize, Refusal>
    requires { base ≤ 1000 }
    ensures { paper result ≡ success_size base app_data.now }
{
    let n = app_data.len();
    if connection::MAX_APP_DATA < n {
        return Err(Refusal::Limit);
    }
    if n % 2 != 0 {
        return Err(Refusal::Form);
    }
    Ok(base + n)
}

// Application data that was judged: its size in words, a zero, the bytes.
#[tactic(auto, using(crate::proofs::WriteLaws::app_put))]
fn put_app_data(out: &mut [u8], at: usize, app_data: &[u8])
    requires { (at ≤ 1000) × (length app_data.now ≤ max_app_data) }
    ensures { out.new ≡ sets (with_fields out.old at (app_fields app_data.now)) (at + 2) app_data.now }
{
    let words = (app_data.len() / 2) as u8;
    put_bytes(out, at, &[words, 0]);
    put_bytes(out, at + 2, app_data);
}

// Writes the reply with a record's bytes at the front of out, or changes nothing.
#[tactic(auto, using(crate::proofs::WriteLaws::success_put, crate::proofs::Lengths::success_length, wire::proofs::Stores::sets_overlay), unfolding(crate::specs::Sizes::success_size, wire::specs::Answers::judged, wire::specs::Answers::breaks))]
pub(crate) fn write_success(
    service: u8,
    fields: &[u8],
    app_data: &[u8],
    out: &mut [u8],
) -> Result<usize, Refusal>
    requires { length fields.now ≤ 900 }
    ensures answer { paper result ≡ with_room (success_size (length fields.now + 6) app_data.now) (length out.old) }
    ensures bytes { out.new ≡ written (with_room (success_size (length fields.now + 6) app_data.now) (length out.old)) (success_bytes service fields.now app_data.now) out.old }
{
    let size = success_size(fields.len() + 6, app_data)?;
    if out.len() < size {
        return Err(Refusal::Room);
    }
    put_bytes(out, 0, &[service, 0, 0, 0]);
    put_bytes(out, 4, fields);
    put_app_data(out, fields.len() + 4, app_data);
    Ok(size)
}

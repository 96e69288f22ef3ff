// The reply to a Forward Close that was served. Beside it in rseip-cip: `decode_forward_close_success` in
// src/codec/decode/message_reply.rs; the crate has no such writer: added.
ghost use Rattle.std.specs.Prelude.{◌≡◌, length};
ghost use Rattle.wire.specs.Answers.{paper, with_room, written};
ghost use Rattle.success_encode.specs.Replies.{close_record, close_reply_bytes};
ghost use Rattle.success_encode.specs.Sizes.{close_success_base, success_size};

use crate::success::write_success;
use connection::ForwardCloseSuccess;
use triads::put_triad;
use wire::Refusal;

// What stands between the header and the application data.
#[tactic(auto, using(crate::proofs::WriteLaws::close_fields))]
fn close_fields(c: ForwardCloseSuccess) -> [u8; 8]
    ensures { result ≡ close_record c }
{
    let mut fields = [0; 8];
    put_triad(
        &mut fields,
        0,
        c.connection_serial_number,
        c.originator_vendor_id,
        c.originator_serial_number,
    );
    fields
}

// Writes the reply at the front of out, or changes nothing.
#[tactic(auto, using(crate::proofs::WriteLaws::close_laws))]
pub fn write_forward_close_success(
    service: u8,
    c: ForwardCloseSuccess,
    app_data: &[u8],
    out: &mut [u8],
) -> Result<usize, Refusal>
    ensures answer { paper result ≡ with_room (success_size close_success_base app_data.now) (length out.old) }
    ensures bytes { out.new ≡ written (with_room (success_size close_success_base app_data.now) (length out.old)) (close_reply_bytes service c app_data.now) out.old }
{
    write_success(service, &close_fields(c), app_data, out)
}

// The reply to a Forward Open that was served. Beside it in rseip-cip: `decode_forward_open_success` in
// src/codec/decode/message_reply.rs; the crate has no such writer: added.
ghost use Rattle.std.specs.Prelude.{◌≡◌, ◌≤◌, length};
ghost use Rattle.wire.specs.Answers.{paper, with_room, written};
ghost use Rattle.success_encode.specs.Replies.{both_ways, open_record, open_reply_bytes, with_fields};
ghost use Rattle.success_encode.specs.Sizes.{open_success_base, success_size};

use crate::success::write_success;
use connection::ForwardOpenSuccess;
use triads::put_triad;
use wire::Refusal;
use wire_write::put_u32;

// Two numbers, from originator to target and back: ids, or packet intervals.
#[tactic(auto, using(crate::proofs::WriteLaws::pair_put))]
fn put_pair(out: &mut [u8], at: usize, to_target: u32, to_originator: u32)
    requires { at ≤ 1000 }
    ensures { out.new ≡ with_fields out.old at (both_ways to_target to_originator) }
{
    put_u32(out, at, to_target);
    put_u32(out, at + 4, to_originator);
}

// What stands between the header and the application data.
#[tactic(auto, using(crate::proofs::WriteLaws::open_fields))]
fn open_fields(o: ForwardOpenSuccess) -> [u8; 24]
    ensures { result ≡ open_record o }
{
    let mut fields = [0; 24];
    put_pair(&mut fields, 0, o.o_t_connection_id, o.t_o_connection_id);
    put_triad(
        &mut fields,
        8,
        o.connection_serial_number,
        o.originator_vendor_id,
        o.originator_serial_number,
    );
    put_pair(&mut fields, 16, o.o_t_api, o.t_o_api);
    fields
}

// Writes the reply at the front of out, or changes nothing.
#[tactic(auto, using(crate::proofs::WriteLaws::open_laws))]
pub fn write_forward_open_success(
    service: u8,
    o: ForwardOpenSuccess,
    app_data: &[u8],
    out: &mut [u8],
) -> Result<usize, Refusal>
    ensures answer { paper result ≡ with_room (success_size open_success_base app_data.now) (length out.old) }
    ensures bytes { out.new ≡ written (with_room (success_size open_success_base app_data.now) (length out.old)) (open_reply_bytes service o app_data.now) out.old }
{
    write_success(service, &open_fields(o), app_data, out)
}

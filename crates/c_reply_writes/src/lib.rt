// The replies to a Forward Open and a Forward Close that were served, for C: written. include/barkcushion.h says what each answers.
#![tactic(auto)]

ghost use Rattle.std.specs.Prelude.{◌≡◌, length};
ghost use Rattle.wire.specs.Answers.{with_room, written};
ghost use Rattle.success_encode.specs.Replies.{open_reply_bytes, close_reply_bytes};
ghost use Rattle.success_encode.specs.Sizes.{open_success_base, close_success_base, success_size};
ghost use Rattle.c_answers.specs.Codes.{code};
ghost use Rattle.c_reply_writes.specs.Writes.{opened_of, closed_of};

use c_answers::size_answer;
use connection::{ForwardCloseSuccess, ForwardOpenSuccess};
use success_encode::{write_forward_close_success, write_forward_open_success};

// Writes the reply to a Forward Open that was served.
#[unsafe(no_mangle)]
pub extern "C" fn bark_write_forward_open_success(
    service: u8,
    o_t_connection_id: u32,
    t_o_connection_id: u32,
    connection_serial_number: u16,
    vendor_id: u16,
    originator_serial_number: u32,
    o_t_api: u32,
    t_o_api: u32,
    app_data: &[u8],
    out: &mut [u8],
) -> usize
    ensures answer { result ≡ code (with_room (success_size open_success_base app_data.now) (length out.old)) }
    ensures bytes { out.new ≡ written (with_room (success_size open_success_base app_data.now) (length out.old)) (open_reply_bytes service (opened_of o_t_connection_id t_o_connection_id connection_serial_number vendor_id originator_serial_number o_t_api t_o_api) app_data.now) out.old }
{
    let o = ForwardOpenSuccess {
        o_t_connection_id,
        t_o_connection_id,
        connection_serial_number,
        originator_vendor_id: vendor_id,
        originator_serial_number,
        o_t_api,
        t_o_api,
    };
    size_answer(write_forward_open_success(service, o, app_data, out))
}

// Writes the reply to a Forward Close that was served.
#[unsafe(no_mangle)]
pub extern "C" fn bark_write_forward_close_success(
    service: u8,
    connection_serial_number: u16,
    vendor_id: u16,
    originator_serial_number: u32,
    app_data: &[u8],
    out: &mut [u8],
) -> usize
    ensures answer { result ≡ code (with_room (success_size close_success_base app_data.now) (length out.old)) }
    ensures bytes { out.new ≡ written (with_room (success_size close_success_base app_data.now) (length out.old)) (close_reply_bytes service (closed_of connection_serial_number vendor_id originator_serial_number) app_data.now) out.old }
{
    let c = ForwardCloseSuccess {
        connection_serial_number,
        originator_vendor_id: vendor_id,
        originator_serial_number,
    };
    size_answer(write_forward_close_success(service, c, app_data, out))
}

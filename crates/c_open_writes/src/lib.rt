// Forward Open over a path that was written before, for C. Its parameters, and class and trigger, are given as the words that it has.
// include/barkcushion.h has what C sees.
#![tactic(auto)]

ghost use Rattle.std.specs.Prelude.{◌≡◌, length};
ghost use Rattle.wire.specs.Answers.{with_room, written};
ghost use Rattle.connection_words.specs.Requests.{open_bytes};
ghost use Rattle.c_answers.specs.Codes.{code};
ghost use Rattle.c_open_writes.specs.Writes.{paper_words, read_words, open_given, options_of};

use c_answers::{refusal_answer, size_answer};
use connection::{ConnectionParameters, OpenOptions};
use connection_words::{TransportRead, decode_parameters};
use open_encode::write_forward_open_over;
use route_written::written_route;
use transport_words::transport_of;
use wire::Refusal;

// What the words of a Forward Open hold.
#[derive(Clone, Copy)]
struct Words {
    o_t_params: ConnectionParameters,
    t_o_params: ConnectionParameters,
    transport: TransportRead,
}

// What the words hold: the parameters of each direction, then class and trigger.
#[tactic(auto, unfolding(crate::specs::Writes::read_words))]
fn read_words(large: bool, o_t: u32, t_o: u32, transport: u8) -> Result<Words, Refusal>
    ensures { paper_words result ≡ read_words large o_t t_o transport }
{
    let p = decode_parameters(large, o_t)?;
    let q = decode_parameters(large, t_o)?;
    let t = transport_of(transport)?;
    Ok(Words {
        o_t_params: p,
        t_o_params: q,
        transport: t,
    })
}

// Writes a Forward Open. Its path's refusal comes before its words', and the path is judged once: by the writer, where the words are good.
#[tactic(auto, using(crate::proofs::Laws::given_laws))]
#[unsafe(no_mangle)]
pub extern "C" fn bark_write_forward_open(
    large_open: bool,
    priority_tick_time: u8,
    timeout_ticks: u8,
    o_t_connection_id: u32,
    t_o_connection_id: u32,
    connection_serial_number: u16,
    vendor_id: u16,
    originator_serial_number: u32,
    timeout_multiplier: u8,
    o_t_rpi: u32,
    o_t_params: u32,
    t_o_rpi: u32,
    t_o_params: u32,
    transport: u8,
    path: &[u8],
    out: &mut [u8],
) -> usize
    ensures answer { result ≡ code (with_room (open_given path.now large_open o_t_params t_o_params transport) (length out.old)) }
    ensures bytes { out.new ≡ written (with_room (open_given path.now large_open o_t_params t_o_params transport) (length out.old)) (open_bytes (options_of large_open priority_tick_time timeout_ticks o_t_connection_id t_o_connection_id connection_serial_number vendor_id originator_serial_number timeout_multiplier o_t_rpi o_t_params t_o_rpi t_o_params transport) path.now) out.old }
{
    match read_words(large_open, o_t_params, t_o_params, transport) {
        Err(e) => match written_route(path) {
            Err(first) => refusal_answer(first), // C interface: one number
            Ok(_) => refusal_answer(e),
        },
        Ok(w) => {
            let o = OpenOptions {
                o_t_connection_id,
                t_o_connection_id,
                priority_tick_time,
                timeout_ticks,
                connection_serial_number,
                vendor_id,
                originator_serial_number,
                o_t_rpi,
                t_o_rpi,
                timeout_multiplier,
                o_t_params: w.o_t_params,
                t_o_params: w.t_o_params,
                transport_direction: w.transport.direction,
                transport_class: w.transport.class,
                transport_trigger: w.transport.trigger,
                large_open,
            };
            size_answer(write_forward_open_over(o, path, out))
        }
    }
}

// Forward Open as a run of numbers, for C: one that is read, and the default one. include/barkcushion.h has what C sees.
#![tactic(auto)]

ghost use Rattle.std.specs.Prelude.{◌≡◌};
ghost use Rattle.wire.specs.Answers.{done};
ghost use Rattle.open_read.specs.Reads.{opened};
ghost use Rattle.c_answers.specs.Codes.{code, run_answer, run_left};
ghost use Rattle.c_opens.specs.Opens.{word_number, opened_numbers, open_run, default_numbers};

use c_answers::{fill, refusal_answer};
use connection::{ConnectionParameters, default_options};
use connection_words::encode_parameters;
use open_read::{OpenRead, read_forward_open};
use transport_words::transport_class_trigger;

// Parameters as their word; 0 where a word can't hold them, as is so of none that were read.
fn word_number(large: bool, p: ConnectionParameters) -> usize
    ensures { result ≡ word_number large p }
{
    encode_parameters(large, p).unwrap_or(0) as usize
}

// A Forward Open as C has it, in the order of the wire.
fn open_numbers(large: bool, r: OpenRead) -> [usize; 15]
    ensures { result ≡ opened_numbers large (opened r.options r.path_start r.path_len) }
{
    let o = r.options;
    [
        o.priority_tick_time as usize,
        o.timeout_ticks as usize,
        o.o_t_connection_id as usize,
        o.t_o_connection_id as usize,
        o.connection_serial_number as usize,
        o.vendor_id as usize,
        o.originator_serial_number as usize,
        o.timeout_multiplier as usize,
        o.o_t_rpi as usize,
        word_number(large, o.o_t_params),
        o.t_o_rpi as usize,
        word_number(large, o.t_o_params),
        transport_class_trigger(o) as usize,
        r.path_start,
        r.path_len,
    ]
}

// Reads a Forward Open of the form that the caller names.
#[unsafe(no_mangle)]
pub extern "C" fn bark_read_forward_open(large: bool, s: &[u8], fields: &mut [usize]) -> usize
    ensures answer { result ≡ code (run_answer (open_run large s.now) fields.old) }
    ensures numbers { fields.new ≡ run_left (open_run large s.now) fields.old }
{
    match read_forward_open(large, s) {
        Err(e) => refusal_answer(e), // C interface: one number
        Ok(r) => {
            let n = open_numbers(large, r);
            fill(fields, &n)
        }
    }
}

// The default Forward Open with this serial number; it has no path yet.
#[tactic(auto, using(crate::proofs::Laws::default_laws))]
#[unsafe(no_mangle)]
pub extern "C" fn bark_default_forward_open(
    large: bool,
    connection_serial_number: u16,
    fields: &mut [usize],
) -> usize
    ensures answer { result ≡ code (run_answer (done (default_numbers large connection_serial_number)) fields.old) }
    ensures numbers { fields.new ≡ run_left (done (default_numbers large connection_serial_number)) fields.old }
{
    let r = OpenRead {
        options: default_options(connection_serial_number),
        path_start: 0,
        path_len: 0,
    };
    let n = open_numbers(large, r);
    fill(fields, &n[0..13])
}

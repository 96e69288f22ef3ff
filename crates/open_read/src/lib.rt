// Forward Open, small and large, read: 22 bytes, each direction's packet interval and parameters, class and trigger, path size, path. rseip-cip has
// no such reader: it is added.
// The reader answers the record, and start and length of its path in the input; the path is judged and its segments are read from that part.
#![tactic(auto)]

ghost use Rattle.std.specs.Prelude.{◌≡◌, ◌≤◌, drop};
ghost use Rattle.wire.specs.Answers.{paper};
ghost use Rattle.wire.specs.Numbers.{value_of};
ghost use Rattle.connection_words.specs.Fields.{transport, paper_transport};
ghost use Rattle.connection_words.specs.Requests.{parameter_width};
ghost use Rattle.request_first.specs.Firsts.{verdict};
ghost use Rattle.open_read.specs.Reads.{open_rules, parameters_at, transport_at, options_at, paper_open, open_end, open_behind, read_open};

use connection::{ConnectionParameters, OpenOptions};
use connection_words::{TransportRead, decode_parameters, parameter_width};
use message_read::route_at;
use request_first::first_byte;
use transport_words::transport_of;
use wire::Refusal;
use wire_read::{byte_at, u16_at, u32_at};

// The record, and start and length of its path.
#[derive(Clone, Copy)]
pub struct OpenRead {
    pub options: OpenOptions,
    pub path_start: usize,
    pub path_len: usize,
}

// The parameter word at a place.
fn word_at(large: bool, s: &[u8], at: usize) -> u32
    ensures { result ≡ value_of (parameter_width large) (drop at s.now) }
{
    if large {
        u32_at(s, at)
    } else {
        u32::from(u16_at(s, at))
    }
}

// The connection parameters at a place.
#[tactic(auto, using(crate::proofs::ReadLaws::field_laws))]
fn parameters_at(large: bool, s: &[u8], at: usize) -> Result<ConnectionParameters, Refusal>
    requires { at ≤ 1000 }
    ensures { paper result ≡ parameters_at large s.now at }
{
    if s.len() < at + parameter_width(large) {
        return Err(Refusal::Short);
    }
    let word = word_at(large, s, at);
    decode_parameters(large, word)
}

// Class and trigger at a place.
#[tactic(auto, using(crate::proofs::ReadLaws::field_laws))]
fn transport_at(s: &[u8], at: usize) -> Result<TransportRead, Refusal>
    requires { at ≤ 1000 }
    ensures { paper_transport result ≡ transport_at s.now at }
{
    if s.len() < at + 1 {
        return Err(Refusal::Short);
    }
    transport_of(byte_at(s, at))
}

// The first 22 bytes, which end with three reserved ones.
#[tactic(auto, using(crate::proofs::ReadLaws::field_laws))]
fn judge_head(s: &[u8]) -> Result<(), Refusal>
    ensures { paper result ≡ verdict (open_rules s.now) }
{
    if s.len() < 22 {
        return Err(Refusal::Short);
    }
    let low = u16_at(s, 19);
    let high = byte_at(s, 21);
    if low as u32 + 65536 * (high as u32) != 0 {
        return Err(Refusal::Form);
    }
    Ok(())
}

// The record, when what has rules was read.
fn options_at(
    large: bool,
    s: &[u8],
    a: ConnectionParameters,
    b: ConnectionParameters,
    t: TransportRead,
) -> OpenOptions
    ensures { result ≡ options_at large s.now a b (transport t.direction t.trigger t.class) }
{
    let width = parameter_width(large);
    OpenOptions {
        o_t_connection_id: u32_at(s, 2),
        t_o_connection_id: u32_at(s, 6),
        priority_tick_time: byte_at(s, 0),
        timeout_ticks: byte_at(s, 1),
        connection_serial_number: u16_at(s, 10),
        vendor_id: u16_at(s, 12),
        originator_serial_number: u32_at(s, 14),
        o_t_rpi: u32_at(s, 22),
        t_o_rpi: u32_at(s, 26 + width),
        timeout_multiplier: byte_at(s, 18),
        o_t_params: a,
        t_o_params: b,
        transport_direction: t.direction,
        transport_class: t.class,
        transport_trigger: t.trigger,
        large_open: large,
    }
}

// Class and trigger, and the path, behind both directions' parameters.
#[tactic(auto, unfolding(crate::specs::Reads::open_end))]
fn open_end(
    large: bool,
    s: &[u8],
    a: ConnectionParameters,
    b: ConnectionParameters,
) -> Result<OpenRead, Refusal>
    ensures { paper_open result ≡ open_end large s.now a b }
{
    let at = 30 + 2 * parameter_width(large);
    let t = transport_at(s, at)?;
    let path_len = route_at(s, at + 1)?;
    Ok(OpenRead {
        options: options_at(large, s, a, b, t),
        path_start: at + 2,
        path_len,
    })
}

// What follows the first 22 bytes.
#[tactic(auto, unfolding(crate::specs::Reads::open_behind))]
fn open_behind(large: bool, s: &[u8]) -> Result<OpenRead, Refusal>
    ensures { paper_open result ≡ open_behind large s.now }
{
    let a = parameters_at(large, s, 26)?;
    let width = parameter_width(large);
    let b = parameters_at(large, s, 26 + width + 4)?;
    open_end(large, s, a, b)
}

// Reads a Forward Open of the form that the caller names.
#[tactic(auto, using(crate::proofs::ReadLaws::open_laws))]
pub fn read_forward_open(large: bool, s: &[u8]) -> Result<OpenRead, Refusal>
    ensures { paper_open result ≡ read_open large s.now }
{
    first_byte(s)?;
    judge_head(s)?;
    open_behind(large, s)
}

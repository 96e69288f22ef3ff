// Forward Open, small and large. Beside it in rseip-cip: `OpenOptions` in src/codec/encode.rs.
ghost use Rattle.std.specs.Prelude.{◌≡◌, ◌≤◌, length};
ghost use Rattle.std.proofs.lemmas.List.Edits.{sets};
ghost use Rattle.wire.specs.Numbers.{low_first};
ghost use Rattle.wire.specs.Answers.{paper, done, with_room, written};
ghost use Rattle.wire.specs.Records.{laid};
ghost use Rattle.connection_words.specs.Fields.{word_of, parameter_word};
ghost use Rattle.epath_sizes.specs.Segments.{encode};
ghost use Rattle.epath_sizes.specs.Lists.{segs_of};
ghost use Rattle.connection_words.specs.Requests.{parameter_width, direction_fields, open_ids, open_head, open_rest, open_bytes};
ghost use Rattle.open_sizes.specs.Sizes.{open_base, open_size};
ghost use Rattle.open_encode.specs.Words.{GoodWords};
ghost use Rattle.route.specs.Routes.{Ready};

use connection::{ConnectionParameters, OpenOptions};
use connection_words::{encode_parameters, parameter_width};
use epath_encode::write_path;
use epath_sizes::Path;
use open_sizes::{forward_open_size, open_base};
use transport_words::transport_class_trigger;
use triads::put_triad;
use wire::Refusal;
use wire_write::{put_bytes, put_u16, put_u32};

// Stores the word of parameters that were judged.
#[tactic(auto, using(crate::proofs::WriteLaws::open_laws))]
fn put_parameters(large: bool, q: ConnectionParameters, out: &mut [u8], at: usize)
    requires { parameter_word large q ≡ done (word_of large q) }
    ensures { out.new ≡ sets out.old at (low_first (parameter_width large) (word_of large q)) }
{
    let word = encode_parameters(large, q).unwrap();
    if large {
        put_u32(out, at, word);
    } else {
        put_u16(out, at, word as u16);
    }
}

// A direction's requested packet interval and its parameters.
fn put_direction(large: bool, rpi: u32, q: ConnectionParameters, out: &mut [u8], at: usize)
    requires { (at ≤ 100) × (parameter_word large q ≡ done (word_of large q)) }
    ensures { out.new ≡ sets out.old at (laid (direction_fields large rpi q)) }
{
    put_u32(out, at, rpi);
    put_parameters(large, q, out, at + 4);
}

// The first 10 bytes.
fn put_open_ids(priority: u8, ticks: u8, to_target: u32, to_originator: u32, out: &mut [u8])
    ensures { out.new ≡ sets out.old 0 (laid (open_ids priority ticks to_target to_originator)) }
{
    put_bytes(out, 0, &[priority, ticks]);
    put_u32(out, 2, to_target);
    put_u32(out, 6, to_originator);
}

// The first 22 bytes.
pub(crate) fn put_open_head(o: OpenOptions, out: &mut [u8])
    ensures { out.new ≡ sets out.old 0 (laid (open_head o)) }
{
    put_open_ids(
        o.priority_tick_time,
        o.timeout_ticks,
        o.o_t_connection_id,
        o.t_o_connection_id,
        out,
    );
    put_triad(
        out,
        10,
        o.connection_serial_number,
        o.vendor_id,
        o.originator_serial_number,
    );
    put_bytes(out, 18, &[o.timeout_multiplier, 0, 0, 0]);
}

// The rest of what stands before the path. That the parameters were judged is asked by three private functions, each of the record that it is given: a
// type for it would be made and taken apart between them.
pub(crate) fn put_open_rest(o: OpenOptions, words: u8, out: &mut [u8])
    requires { GoodWords o }
    ensures { out.new ≡ sets out.old 22 (laid (open_rest o words)) }
{
    let w = parameter_width(o.large_open);
    put_direction(o.large_open, o.o_t_rpi, o.o_t_params, out, 22);
    put_direction(o.large_open, o.t_o_rpi, o.t_o_params, out, 26 + w);
    put_bytes(out, 30 + w + w, &[transport_class_trigger(o), words]);
}

// A Forward Open that was judged.
#[tactic(auto, using(route::proofs::RouteLaws::put_laws, crate::proofs::WriteLaws::open_laws))]
fn put_open(o: OpenOptions, p: Path, pool: &[u8], out: &mut [u8])
    requires { GoodWords o × Ready pool.now p (open_base o.large_open) out.old }
    ensures { out.new ≡ sets out.old 0 (open_bytes o (encode (segs_of pool.now p))) }
{
    let at = open_base(o.large_open);
    let n = write_path(p, pool, &mut out[at..]).unwrap();
    put_open_head(o, out);
    put_open_rest(o, (n / 2) as u8, out);
}

// Writes a Forward Open at the front of out, or changes nothing.
#[tactic(auto, using(wire::proofs::Answers::writer_laws, open_sizes::proofs::SizeLaws::ready_laws, open_sizes::proofs::SizeLaws::length_laws))]
pub fn write_forward_open(
    o: OpenOptions,
    p: Path,
    pool: &[u8],
    out: &mut [u8],
) -> Result<usize, Refusal>
    ensures answer { paper result ≡ with_room (open_size pool.now p o) (length out.old) }
    ensures bytes { out.new ≡ written (with_room (open_size pool.now p o) (length out.old)) (open_bytes o (encode (segs_of pool.now p))) out.old }
{
    // size, room, store, as every writer: one for all would take the store as a closure with its need, for no line less
    let size = forward_open_size(o, p, pool)?;
    if out.len() < size {
        return Err(Refusal::Room);
    }
    put_open(o, p, pool, out);
    Ok(size)
}

// The writer: segments into bytes. Beside it in rseip-cip: src/codec/encode/epath.rs.
ghost use Rattle.std.specs.Prelude.{◌≡◌, ◌++◌, ◌+◌, ◌<◌, ◌≤◌, length};
ghost use Rattle.std.proofs.lemmas.List.Edits.{sets};
ghost use Rattle.wire.specs.Parts.{part};
ghost use Rattle.wire.specs.Answers.{paper, with_room, written, Put, PutAt};
ghost use Rattle.epath_sizes.specs.Limits.{max_segments, max_symbol, max_link};
ghost use Rattle.epath_sizes.specs.Segments.{Seg, logical, port_head, pad, encode_seg, encode};
ghost use Rattle.epath_sizes.specs.Lists.{meaning, segs_of};
ghost use Rattle.epath_sizes.specs.Sizes.{segment_size, path_size, Good, AllGood};

use epath_sizes::{FAR_PORT, LONG_LINK, NEAR_PORT, Path, Segment, segment_size};
use path_sizes::path_size;
use wire::Refusal;

// ---- the writer's parts: each stores where there is room for all of it, at the front of out or from index at on, and says where it ends

// Stores src as it is. Not by copy_from_slice: the valve group's archive would want memmove from outside.
#[tactic(auto, using(crate::proofs::WriteLaws::run_laws))]
fn put_run(out: &mut [u8], at: usize, src: &[u8]) -> usize
    requires { at + length src.now ≤ length out.old }
    ensures { PutAt at src.now out.old result out.new }
{
    let n = src.len();
    for i in 0..n {
        out[at + i] = src[i];
    }
    at + n
}

// Stores src, with a zero where the end would be odd.
#[tactic(auto, using(crate::proofs::WriteLaws::pad_laws))]
fn put_padded(out: &mut [u8], at: usize, src: &[u8]) -> usize
    requires { (at ≤ 4) × (at + length (src.now ++ pad (at + length src.now)) ≤ length out.old) }
    ensures { PutAt at (src.now ++ pad (at + length src.now)) out.old result out.new }
{
    let end = put_run(out, at, src);
    if end % 2 == 0 {
        return end;
    }
    out[end] = 0;
    end + 1
}

// Stores a code and a value, in the shortest of 8 bits, 16 and 32.
fn encode_logical(code: u8, v: u32, out: &mut [u8]) -> usize
    requires { (code < 254) × (length (logical code v) ≤ length out.old) }
    ensures { Put (logical code v) out.old result out.new }
{
    let [a, b, c, d] = v.to_le_bytes();
    match v {
        0..=255 => put_run(out, 0, &[code, a]),
        256..=65535 => put_run(out, 0, &[code + 1, 0, a, b]),
        _ => put_run(out, 0, &[code + 2, 0, a, b, c, d]),
    }
}

#[tactic(auto, using(crate::proofs::WriteLaws::end_laws))]
fn encode_symbol(symbol: &[u8], out: &mut [u8]) -> usize
    requires { (length symbol.now ≤ max_symbol) × (length (encode_seg (Seg.symbol symbol.now)) ≤ length out.old) }
    ensures { Put (encode_seg (Seg.symbol symbol.now)) out.old result out.new }
{
    let at = put_run(out, 0, &[epath_sizes::SYMBOL, symbol.len() as u8]);
    put_padded(out, at, symbol)
}

// Stores what stands before a link of len bytes. A port that does not fit the first byte follows in two, HIGH byte first.
fn put_head(port: u16, len: u8, out: &mut [u8]) -> usize
    requires { length (port_head port len) ≤ length out.old }
    ensures { Put (port_head port len) out.old result out.new }
{
    let [high, low] = port.to_be_bytes();
    match (port <= NEAR_PORT, len <= 1) {
        (true, true) => put_run(out, 0, &[low]),
        (true, false) => put_run(out, 0, &[low + LONG_LINK, len]),
        (false, true) => put_run(out, 0, &[FAR_PORT, high, low]),
        (false, false) => put_run(out, 0, &[FAR_PORT + LONG_LINK, len, high, low]),
    }
}

#[tactic(auto, using(crate::proofs::WriteLaws::end_laws))]
fn encode_port(port: u16, link: &[u8], out: &mut [u8]) -> usize
    requires { (length link.now ≤ max_link) × (length (encode_seg (Seg.port port link.now)) ≤ length out.old) }
    ensures { Put (encode_seg (Seg.port port link.now)) out.old result out.new }
{
    let at = put_head(port, link.len() as u8, out);
    put_padded(out, at, link)
}

// A part of the pool that was judged to lie in it.
fn piece(pool: &[u8], start: u32, len: u32) -> &[u8]
    requires { start + len ≤ length pool.now }
    ensures { result.now ≡ part pool.now start len }
{
    &pool[start as usize..][..len as usize]
}

// A segment that was judged.
fn encode_segment(s: Segment, pool: &[u8], out: &mut [u8]) -> usize
    requires { Good pool.now s × (length (encode_seg (meaning pool.now s)) ≤ length out.old) }
    ensures { Put (encode_seg (meaning pool.now s)) out.old result out.new }
{
    match s {
        Segment::Symbol(y) => encode_symbol(piece(pool, y.start, y.len), out),
        Segment::Class(v) => encode_logical(epath_sizes::CLASS, u32::from(v), out),
        Segment::Instance(v) => encode_logical(epath_sizes::INSTANCE, u32::from(v), out),
        Segment::Attribute(v) => encode_logical(epath_sizes::ATTRIBUTE, u32::from(v), out),
        Segment::Element(v) => encode_logical(epath_sizes::ELEMENT, v, out),
        Segment::Port(q) => encode_port(q.port, piece(pool, q.start, q.len), out),
    }
}

// A list that was judged: each segment goes into the rest of out, from its middle to its end.
#[tactic(auto, using(crate::proofs::FileLaws::filing_laws))]
fn encode_path(p: Path, pool: &[u8], out: &mut [u8])
    requires { (p.count ≤ max_segments) × AllGood pool.now p × (length (encode (segs_of pool.now p)) ≤ length out.old) }
    ensures { out.new ≡ sets out.old 0 (encode (segs_of pool.now p)) }
{
    let mut at = 0;
    for slot in &p.slots[..p.count] {
        at += encode_segment(slot.segment, pool, &mut out[at..]);
    }
}

// ---- the writers

// Writes one segment at the front of out, or changes nothing.
#[tactic(auto, using(crate::proofs::WriteLaws::ends_laws, crate::proofs::WriteLaws::sized_laws))]
pub fn write_segment(s: Segment, pool: &[u8], out: &mut [u8]) -> Result<usize, Refusal>
    ensures answer { paper result ≡ with_room (segment_size pool.now s) (length out.old) }
    ensures bytes { out.new ≡ written (with_room (segment_size pool.now s) (length out.old)) (encode_seg (meaning pool.now s)) out.old }
{
    // size, room, store, as every writer: one for all would take the store as a closure with its need, for no line less
    let n = segment_size(s, pool)?;
    if out.len() < n {
        return Err(Refusal::Room);
    }
    encode_segment(s, pool, out);
    Ok(n)
}

// Writes a path at the front of out, or changes nothing.
#[tactic(auto, using(crate::proofs::WriteLaws::ends_laws, epath_sizes::proofs::PathLaws::path_laws))]
pub fn write_path(p: Path, pool: &[u8], out: &mut [u8]) -> Result<usize, Refusal>
    ensures answer { paper result ≡ with_room (path_size pool.now p) (length out.old) }
    ensures bytes { out.new ≡ written (with_room (path_size pool.now p) (length out.old)) (encode (segs_of pool.now p)) out.old }
{
    // size, room, store, as every writer: one for all would take the store as a closure with its need, for no line less
    let size = path_size(p, pool)?;
    if out.len() < size {
        return Err(Refusal::Room);
    }
    encode_path(p, pool, out);
    Ok(size)
}

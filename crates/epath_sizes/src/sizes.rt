// How many bytes a segment takes. Beside it in rseip-cip: src/codec/encode/epath.rs.
ghost use Rattle.std.specs.Prelude.{◌≡◌, ◌+◌, ◌<◌, length};
ghost use Rattle.wire.specs.Answers.{paper, done, judged};
ghost use Rattle.epath_sizes.specs.Segments.{logical, port_head, pad};
ghost use Rattle.epath_sizes.specs.Sizes.{part_rules, segment_size};

use crate::{PortSegment, Segment, SymbolSegment};
use wire::Refusal;

// How many bytes a logical segment with this value takes, whatever its code.
fn logical_size(v: u32) -> usize
    ensures { result ≡ length (logical 0 v) }
{
    match v {
        0..=255 => 2,
        256..=65535 => 4,
        _ => 6,
    }
}

// The length of a part of a pool of n bytes, if it lies inside it (11) and has at most limit bytes (3).
#[tactic(auto, using(wire::proofs::Rules::rules))]
fn judge_part(limit: usize, n: usize, start: usize, len: usize) -> Result<usize, Refusal>
    ensures { paper result ≡ judged (part_rules limit n start len) (done len) }
{
    if n < start || n - start < len {
        return Err(Refusal::Outside);
    }
    if limit < len {
        return Err(Refusal::Limit);
    }
    Ok(len)
}

// The next even number.
fn even(n: usize) -> usize
    requires { n < 1000 }
    ensures { result ≡ n + length (pad n) }
{
    n.next_multiple_of(2)
}

#[tactic(auto, using(crate::proofs::SizeLaws::part_laws))]
fn symbol_size(y: SymbolSegment, pool: &[u8]) -> Result<usize, Refusal>
    ensures { paper result ≡ segment_size pool.now (Segment.Symbol y) }
{
    let n = judge_part(
        crate::MAX_SYMBOL,
        pool.len(),
        y.start as usize,
        y.len as usize,
    )?;
    Ok(even(2 + n))
}

// How many bytes stand before a link of len bytes.
fn head_size(port: u16, len: usize) -> usize
    ensures { result ≡ length (port_head port len) }
{
    match (port <= crate::NEAR_PORT, len <= 1) {
        (true, true) => 1,
        (true, false) => 2,
        (false, true) => 3,
        (false, false) => 4,
    }
}

#[tactic(auto, using(crate::proofs::SizeLaws::part_laws))]
fn port_size(q: PortSegment, pool: &[u8]) -> Result<usize, Refusal>
    ensures { paper result ≡ segment_size pool.now (Segment.Port q) }
{
    let n = judge_part(
        crate::MAX_LINK,
        pool.len(),
        q.start as usize,
        q.len as usize,
    )?;
    Ok(even(head_size(q.port, n) + n))
}

// A segment's refusal, or how many bytes it takes.
#[tactic(auto, using(crate::proofs::SizeLaws::segment_laws))]
pub fn segment_size(s: Segment, pool: &[u8]) -> Result<usize, Refusal>
    ensures { paper result ≡ segment_size pool.now s }
{
    match s {
        Segment::Symbol(y) => symbol_size(y, pool),
        Segment::Class(v) | Segment::Instance(v) | Segment::Attribute(v) => Ok(logical_size(
            u32::from(v),
        )),
        Segment::Element(v) => Ok(logical_size(v)),
        Segment::Port(q) => port_size(q, pool),
    }
}

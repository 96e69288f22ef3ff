// The segments of a path, by the strict reader, which accepts exactly what the writer makes. rseip-cip has none: it is added.
#![tactic(auto)]

ghost use Rattle.std.specs.Prelude.{◌≡◌, ◌≤◌};
ghost use Rattle.epath_sizes.specs.Limits.{max_place};
ghost use Rattle.epath_sizes.specs.Lists.{start_of, shifted};
ghost use Rattle.epath_read.specs.Reads.{paper_path, read_path};

use epath_segment::read_segment;
use epath_sizes::{Path, PortSegment, Segment, Slot, SymbolSegment};
use wire::Refusal;

// The same segment, its bytes counted from at places earlier.
fn shift(x: Segment, at: usize) -> Segment
    requires { (start_of x ≤ 4) × (at ≤ max_place) }
    ensures { result ≡ shifted at x }
{
    match x {
        Segment::Symbol(y) => Segment::Symbol(SymbolSegment {
            start: at as u32 + y.start,
            ..y
        }),
        Segment::Port(q) => Segment::Port(PortSegment {
            start: at as u32 + q.start,
            ..q
        }),
        _ => x,
    }
}

// The segments of a path; the bytes of symbols and links are parts of s.
#[tactic(auto, using(crate::proofs::FillLaws::filling_laws))]
pub fn read_path(s: &[u8]) -> Result<Path, Refusal>
    ensures { paper_path result ≡ read_path s.now }
{
    // an array and a count, which a path made at once would copy once more
    let blank = Slot {
        segment: Segment::Class(0),
    };
    let mut slots = [blank; epath_sizes::MAX_SEGMENTS];
    let mut count = 0;
    let mut place: usize = 0;
    // no range: a path may end at each turn, so the end would be asked for in the loop and again behind it
    while place < s.len() {
        if count == epath_sizes::MAX_SEGMENTS {
            return Err(Refusal::Limit);
        }
        let found = read_segment(&s[place..])?;
        slots[count] = Slot {
            segment: shift(found.segment, place),
        };
        count += 1;
        place += found.len;
    }
    Ok(Path { slots, count })
}

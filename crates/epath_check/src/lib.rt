// How many segments a path has, by the strict reader, which accepts exactly what the writer makes. rseip-cip has none: it is added.
#![tactic(auto)]

ghost use Rattle.std.specs.Prelude.{◌≡◌, ◌+◌, ◌≤◌, ◌<◌, length, get_or};
ghost use Rattle.wire.specs.Answers.{paper};
ghost use Rattle.epath_sizes.specs.Limits.{max_place, symbol_code};
ghost use Rattle.epath_check.specs.Paths.{next_in, check_path};

use epath_segment::read_segment;
use epath_sizes::{ATTRIBUTE, CLASS, ELEMENT, FAR_PORT, INSTANCE, SYMBOL};
use wire::Refusal;

// Where the symbol at a place ends, with the zero after an odd length.
#[tactic(auto, using(crate::proofs::Ends::part_laws), unfolding(crate::specs::Paths::next_in, epath_segment::specs::Reads::read_seg, epath_segment::specs::Reads::form_of, epath_segment::specs::Reads::form_in, epath_segment::specs::Reads::read_symbol, epath_segment::specs::Reads::read_part, wire::specs::Answers::judged, wire::specs::Answers::breaks))]
fn symbol_end(s: &[u8], at: usize) -> Result<usize, Refusal>
    requires { (at + 1 < length s.now) × (get_or s.now at 0 ≡ symbol_code) × (at ≤ max_place) }
    ensures { paper result ≡ next_in s.now at }
{
    let len = s[at + 1];
    let end = at + 2 + len as usize;
    if s.len() < end {
        return Err(Refusal::Short);
    }
    if len % 2 == 0 {
        return Ok(end);
    }
    match s.get(end) {
        None => Err(Refusal::Short),
        Some(0) => Ok(end + 1),
        Some(_) => Err(Refusal::Form),
    }
}

// Where the segment at a place ends. The most common forms are told first, with no segment built: those of two bytes, and symbols.
#[tactic(auto, using(crate::proofs::Ends::part_laws, crate::proofs::Ends::end_laws), unfolding(crate::specs::Paths::next_in, epath_segment::specs::Reads::read_seg, epath_segment::specs::Reads::form_of, epath_segment::specs::Reads::form_in, epath_segment::specs::Reads::read_narrow, epath_segment::specs::Reads::read_port, epath_segment::specs::Reads::read_port_number, epath_segment::specs::Reads::read_link, epath_segment::specs::Reads::read_part, wire::specs::Answers::judged, wire::specs::Answers::breaks))]
fn next_at(s: &[u8], at: usize) -> Result<usize, Refusal>
    requires { (at ≤ length s.now) × (at ≤ max_place) }
    ensures { paper result ≡ next_in s.now at }
{
    if at + 1 < s.len() {
        match s[at] {
            ..FAR_PORT | CLASS | INSTANCE | ATTRIBUTE | ELEMENT => return Ok(at + 2),
            SYMBOL => return symbol_end(s, at),
            _ => {}
        }
    }
    let found = read_segment(&s[at..])?;
    Ok(at + found.len)
}

// How many segments a path has; only counts.
#[tactic(auto, using(crate::proofs::Walks::counting_laws))]
pub fn check_path(s: &[u8]) -> Result<usize, Refusal>
    ensures { paper result ≡ check_path s.now }
{
    let mut seen: usize = 0;
    let mut at: usize = 0;
    // no range: a path may end at each turn, so the end would be asked for in the loop and again behind it
    while at < s.len() {
        if seen == epath_sizes::MAX_SEGMENTS {
            return Err(Refusal::Limit);
        }
        at = next_at(s, at)?;
        seen += 1;
    }
    Ok(seen)
}

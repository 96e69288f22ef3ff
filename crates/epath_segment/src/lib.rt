// One segment of a path, read strictly.
#![tactic(auto)]

mod decode; // decode.rt: the reader

pub use decode::read_segment;
use epath_sizes::Segment;

// The segment at the front, and how many bytes it has.
#[derive(Clone, Copy)]
pub struct SegmentRead {
    pub segment: Segment,
    pub len: usize,
}

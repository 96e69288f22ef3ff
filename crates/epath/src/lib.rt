// CIP paths, whole: nothing of its own, all handed on from the crates that have it; proofs/ has the theorems on paths that no function needs.
#![tactic(auto)]

pub use epath_check::check_path;
pub use epath_encode::{write_path, write_segment};
pub use epath_lists::{blank_path, default_port, is_port};
pub use epath_read::read_path;
pub use epath_segment::{SegmentRead, read_segment};
pub use epath_sizes::{
    EPATH_CONNECTION_MANAGER, MAX_LINK, MAX_SEGMENTS, MAX_SYMBOL, Path, PortSegment, Segment, Slot,
    SymbolSegment, segment_size,
};
pub use path_sizes::path_size;

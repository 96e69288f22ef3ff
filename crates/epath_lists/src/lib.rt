// The values of src/epath.rs in rseip-cip: the list that holds nothing, the default port, and whether a segment is a port.
#![tactic(auto)]

ghost use Rattle.std.specs.Prelude.{◌≡◌, []};
ghost use Rattle.epath_sizes.specs.Lists.{path_of, backplane, is_port};

use epath_sizes::{MAX_SEGMENTS, Path, PortSegment, Segment, Slot};

// The list that holds nothing.
pub fn blank_path() -> Path
    ensures { result ≡ path_of [] }
{
    let blank = Slot {
        segment: Segment::Class(0),
    };
    Path {
        slots: [blank; MAX_SEGMENTS],
        count: 0,
    }
}

// The backplane's slot 0: an empty link, which is written as link 0 and lies in every pool.
pub fn default_port() -> PortSegment
    ensures { result ≡ backplane }
{
    PortSegment {
        port: 1,
        start: 0,
        len: 0,
    }
}

pub fn is_port(s: Segment) -> bool
    ensures { result ≡ is_port s }
{
    matches!(s, Segment::Port(_))
}

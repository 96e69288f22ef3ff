// CIP paths: segments, and their sizes. Beside it in rseip-cip: src/epath.rs.
#![tactic(auto)]

mod sizes; // sizes.rt: how many bytes a segment takes

ghost use Rattle.std.specs.Prelude.{◌≡◌, [], ◌∷◌};
ghost use Rattle.epath_sizes.specs.Segments.{class, instance, encode};

pub use sizes::segment_size;

// ---- limits and codes, each beside its twin in specs/Limits.antt; the writer, epath_encode, and the readers, epath_segment and epath_check, use them too

// Segments in a list.
pub const MAX_SEGMENTS: usize = 127;

// Bytes of a symbol.
pub const MAX_SYMBOL: usize = 255;

// Bytes of a link.
pub const MAX_LINK: usize = 254;

// The largest port that a port segment's first byte holds.
pub const NEAR_PORT: u16 = 14;

// In the first byte: the port follows in two bytes.
pub const FAR_PORT: u8 = 15;

// In the first byte: a length byte follows.
pub const LONG_LINK: u8 = 16;

// First bytes below this one are port segments.
pub const PORT_END: u8 = 0x20;

// The first byte of a logical segment with an 8-bit value; 16 bits are the next code, 32 bits the one after.
pub const CLASS: u8 = 0x20;

pub const INSTANCE: u8 = 0x24;

pub const ELEMENT: u8 = 0x28;

pub const ATTRIBUTE: u8 = 0x30;

// The first byte of a symbol.
pub const SYMBOL: u8 = 0x91;

// The path for an Unconnected Send: class 6, instance 1.
pub const EPATH_CONNECTION_MANAGER: [u8; 4] = [0x20, 0x06, 0x24, 0x01];

// Holds the constant to what it means.
fn connection_manager() -> [u8; 4]
    ensures { result ≡ encode (class 6 ∷ instance 1 ∷ []) }
{
    EPATH_CONNECTION_MANAGER
}

// ---- the list

// A port, and its link: len bytes of the pool from start, as document 01 has it in place of a heap.
#[derive(Clone, Copy)]
pub struct PortSegment {
    // to leave the node by; 1 is the backplane
    pub port: u16,
    pub start: u32,
    pub len: u32,
}

// A symbol: len bytes of the pool from start.
#[derive(Clone, Copy)]
pub struct SymbolSegment {
    pub start: u32,
    pub len: u32,
}

#[derive(Clone, Copy)]
pub enum Segment {
    Symbol(SymbolSegment),
    Class(u16),
    Instance(u16),
    Attribute(u16),
    Element(u32),
    Port(PortSegment),
}

#[derive(Clone, Copy)]
pub struct Slot {
    pub segment: Segment,
}

// The first count slots are the list. No heap: document 01 fixes its memory, and a count over the limit is refused (3), so it stands beside.
#[derive(Clone, Copy)]
pub struct Path {
    pub slots: [Slot; MAX_SEGMENTS],
    pub count: usize,
}

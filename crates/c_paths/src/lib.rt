// CIP paths for C: rows of four numbers into bytes; back is c_path_reads. include/barkcushion_path.h says what C sees of it. No list of
// segments is built: the rows are walked where they lie.
#![tactic(auto)]

mod write; // write.rt: rows into bytes

ghost use Rattle.std.specs.Prelude.{◌≡◌, length};
ghost use Rattle.wire.specs.Answers.{with_room, written};
ghost use Rattle.epath_sizes.specs.Segments.{encode};
ghost use Rattle.epath_sizes.specs.Lists.{segs};
ghost use Rattle.c_answers.specs.Codes.{code};
ghost use Rattle.c_paths.specs.Rows.{rows_size, slots_in};

use c_answers::size_answer;
use write::{rows_size, write_rows};

// ---- kinds, each beside its twin in specs/Kinds.antt; the reader, c_path_reads, uses them too. Numbers: the C interface takes rows of u32

pub const SYMBOL: u32 = 0;

pub const CLASS: u32 = 1;

pub const INSTANCE: u32 = 2;

pub const ATTRIBUTE: u32 = 3;

pub const ELEMENT: u32 = 4;

pub const PORT: u32 = 5;

// The largest number of a class, an instance, an attribute or a port.
pub(crate) const SHORT_NUMBER: u32 = 65535;

// The largest number of an element; a symbol's is not used.
pub(crate) const LONG_NUMBER: u32 = 4294967295;

// Numbers of a row.
pub const ROW: usize = 4;

// A segment's four numbers, in the order of the header.
#[derive(Clone, Copy)]
pub struct SegmentRow {
    pub kind: u32,
    pub number: u32,
    pub start: u32,
    pub len: u32,
}

// How many bytes the path of these rows takes.
#[unsafe(no_mangle)]
pub extern "C" fn bark_path_size(segments: &[u32], pool: &[u8]) -> usize
    ensures { result ≡ code (rows_size pool.now segments.now) }
{
    size_answer(rows_size(segments, pool))
}

// Writes the path of these rows at the front of out, or changes nothing.
#[unsafe(no_mangle)]
pub extern "C" fn bark_write_path(segments: &[u32], pool: &[u8], out: &mut [u8]) -> usize
    ensures answer { result ≡ code (with_room (rows_size pool.now segments.now) (length out.old)) }
    ensures bytes { out.new ≡ written (with_room (rows_size pool.now segments.now) (length out.old)) (encode (segs pool.now (slots_in segments.now))) out.old }
{
    size_answer(write_rows(segments, pool, out))
}

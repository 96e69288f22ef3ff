// Rows into bytes: each row is judged and sized, and then stored where the one before it ends.
ghost use Rattle.std.specs.Prelude.{◌≡◌, ◌+◌, ◌*◌, ◌≤◌, length};
ghost use Rattle.std.proofs.lemmas.List.Edits.{sets};
ghost use Rattle.wire.specs.Answers.{paper, with_room, written, Put};
ghost use Rattle.epath_sizes.specs.Segments.{encode_seg, encode};
ghost use Rattle.epath_sizes.specs.Lists.{meaning, segs};
ghost use Rattle.c_paths.specs.Kinds.{row_numbers};
ghost use Rattle.c_paths.specs.Rows.{segment_row_at, most_of, segment_of, segment_row_size, rows_size, slots_in, RowReady, RowsReady};

use crate::SegmentRow;
use epath_encode::write_segment;
use epath_sizes::{PortSegment, Segment, SymbolSegment, segment_size};
use wire::Refusal;

// The row at an index.
fn row_at(segments: &[u32], i: usize) -> SegmentRow
    requires { row_numbers * i + row_numbers ≤ length segments.now }
    ensures { result ≡ segment_row_at segments.now (row_numbers * i) }
{
    let at = crate::ROW * i;
    SegmentRow {
        kind: segments[at],
        number: segments[at + 1],
        start: segments[at + 2],
        len: segments[at + 3],
    }
}

// The largest number that a kind can hold.
fn most_number(kind: u32) -> u32
    ensures { result ≡ most_of kind }
{
    match kind {
        crate::SYMBOL | crate::ELEMENT => crate::LONG_NUMBER,
        _ => crate::SHORT_NUMBER,
    }
}

// The segment of a row that was judged.
#[tactic(auto, using(crate::proofs::RowLaws::kind_laws))]
fn segment_of(row: SegmentRow) -> Segment
    requires { row.number ≤ most_of row.kind }
    ensures { result ≡ segment_of row }
{
    let SegmentRow {
        kind,
        number,
        start,
        len,
    } = row;
    match kind {
        crate::SYMBOL => Segment::Symbol(SymbolSegment { start, len }),
        crate::ELEMENT => Segment::Element(number),
        crate::CLASS => Segment::Class(number as u16),
        crate::INSTANCE => Segment::Instance(number as u16),
        crate::ATTRIBUTE => Segment::Attribute(number as u16),
        _ => Segment::Port(PortSegment {
            port: number as u16,
            start,
            len,
        }),
    }
}

// A row's refusal, or how many bytes its segment takes.
#[tactic(auto, using(crate::proofs::RowLaws::row_laws))]
fn row_size(row: SegmentRow, pool: &[u8]) -> Result<usize, Refusal>
    ensures { paper result ≡ segment_row_size pool.now row }
{
    if crate::PORT < row.kind {
        return Err(Refusal::Code);
    }
    if most_number(row.kind) < row.number {
        return Err(Refusal::Limit);
    }
    segment_size(segment_of(row), pool)
}

// The rows' first refusal, or how many bytes they take.
#[tactic(auto, using(crate::proofs::PathLaws::summing_laws))]
pub(crate) fn rows_size(segments: &[u32], pool: &[u8]) -> Result<usize, Refusal>
    ensures { paper result ≡ rows_size pool.now segments.now }
{
    let count = segments.len() / crate::ROW;
    if epath_sizes::MAX_SEGMENTS < count {
        return Err(Refusal::Limit);
    }
    let mut total = 0;
    for i in 0..count {
        total += row_size(row_at(segments, i), pool)?;
    }
    Ok(total)
}

// Stores the segment of a row that was sized at the front of out, which has room, and says how many bytes.
#[tactic(auto, using(crate::proofs::PathLaws::ready_laws))]
fn put_row(row: SegmentRow, pool: &[u8], out: &mut [u8]) -> usize
    requires { RowReady pool.now row (length out.old) }
    ensures { Put (encode_seg (meaning pool.now (segment_of row))) out.old result out.new }
{
    match write_segment(segment_of(row), pool, out) {
        Ok(n) => n,
        Err(_) => unreachable!("the row was sized"),
    }
}

// Rows that were sized: each goes into the rest of out.
#[tactic(auto, using(crate::proofs::PathLaws::filing_laws))]
fn put_rows(segments: &[u32], pool: &[u8], out: &mut [u8])
    requires { RowsReady pool.now segments.now (length out.old) }
    ensures { out.new ≡ sets out.old 0 (encode (segs pool.now (slots_in segments.now))) }
{
    let mut at = 0;
    for i in 0..segments.len() / crate::ROW {
        at += put_row(row_at(segments, i), pool, &mut out[at..]);
    }
}

// Writes the path of these rows at the front of out, or changes nothing.
#[tactic(auto, using(epath_encode::proofs::WriteLaws::ends_laws, crate::proofs::PathLaws::rows_laws))]
pub(crate) fn write_rows(segments: &[u32], pool: &[u8], out: &mut [u8]) -> Result<usize, Refusal>
    ensures answer { paper result ≡ with_room (rows_size pool.now segments.now) (length out.old) }
    ensures bytes { out.new ≡ written (with_room (rows_size pool.now segments.now) (length out.old)) (encode (segs pool.now (slots_in segments.now))) out.old }
{
    // size, room, store, as every writer: one for all would take the store as a closure with its need, for no line less
    let n = rows_size(segments, pool)?;
    if out.len() < n {
        return Err(Refusal::Room);
    }
    put_rows(segments, pool, out);
    Ok(n)
}

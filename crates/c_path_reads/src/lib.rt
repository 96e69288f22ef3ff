// CIP paths for C: bytes into rows of four numbers; c_paths has the rows and their way into bytes. include/barkcushion_path.h says what C
// sees of it. A path is judged, and then walked again, and each segment's row is stored behind the one before it.
#![tactic(auto)]

ghost use Rattle.std.specs.Prelude.{◌≡◌, ◌≤◌, length};
ghost use Rattle.std.proofs.lemmas.List.Edits.{sets};
ghost use Rattle.wire.specs.Parts.{overlay};
ghost use Rattle.wire.specs.Answers.{paper, written};
ghost use Rattle.epath_sizes.specs.Limits.{max_place};
ghost use Rattle.epath_sizes.specs.Lists.{start_of, shifted};
ghost use Rattle.c_answers.specs.Codes.{code};
ghost use Rattle.c_paths.specs.Kinds.{row_numbers};
ghost use Rattle.c_paths.specs.Rows.{segment_row, numbers_of};
ghost use Rattle.c_path_reads.specs.Reads.{path_rows, path_rows_answer, SegmentHere, RowRead, PathJudged};

use c_answers::size_answer;
use c_paths::SegmentRow;
use epath_check::check_path;
use epath_segment::read_segment;
use epath_sizes::Segment;
use wire::Refusal;

// The row of a segment whose bytes are counted from at places earlier.
fn row_of(x: Segment, at: usize) -> SegmentRow
    requires { (start_of x ≤ 4) × (at ≤ max_place) }
    ensures { result ≡ segment_row (shifted at x) }
{
    let (kind, number, start, len) = match x {
        Segment::Symbol(y) => (c_paths::SYMBOL, 0, at as u32 + y.start, y.len),
        Segment::Class(v) => (c_paths::CLASS, u32::from(v), 0, 0),
        Segment::Instance(v) => (c_paths::INSTANCE, u32::from(v), 0, 0),
        Segment::Attribute(v) => (c_paths::ATTRIBUTE, u32::from(v), 0, 0),
        Segment::Element(v) => (c_paths::ELEMENT, v, 0, 0),
        Segment::Port(q) => (c_paths::PORT, u32::from(q.port), at as u32 + q.start, q.len),
    };
    SegmentRow {
        kind,
        number,
        start,
        len,
    }
}

// Stores a row at the front of a run that has room for it.
fn put_numbers(row: SegmentRow, rows: &mut [u32])
    requires { row_numbers ≤ length rows.old }
    ensures { rows.new ≡ sets rows.old 0 (numbers_of row) }
{
    rows[..c_paths::ROW].copy_from_slice(&[row.kind, row.number, row.start, row.len]);
}

// Stores the row of the segment at a place of a path that was judged, and says where the next begins.
#[tactic(auto, using(crate::proofs::ReadLaws::place_rows, epath_check::proofs::Places::place_laws))]
fn read_row(path: &[u8], at: usize, rows: &mut [u32]) -> usize
    requires { SegmentHere path.now at (length rows.old) }
    ensures { RowRead path.now at rows.old result rows.new }
{
    match read_segment(&path[at..]) {
        Ok(found) => {
            put_numbers(row_of(found.segment, at), rows);
            at + found.len
        }
        // not met: the path was judged
        Err(_) => at,
    }
}

// Stores the rows of a path that was judged to have so many segments, where there is room for them.
#[tactic(auto, using(crate::proofs::ReadLaws::reading_laws))]
fn read_rows(path: &[u8], count: usize, rows: &mut [u32])
    requires { PathJudged path.now count (length rows.old) }
    ensures { rows.new ≡ overlay (path_rows path.now) rows.old }
{
    let mut at = 0;
    for i in 0..count {
        let k = c_paths::ROW * i;
        at = read_row(path, at, &mut rows[k..]);
    }
}

// All of a path into rows, or a refusal and no row: the path is judged before the first is stored.
#[tactic(auto, using(crate::proofs::ReadLaws::path_judged), unfolding(wire::specs::Answers::judged, wire::specs::Answers::breaks))]
fn read_all(path: &[u8], rows: &mut [u32]) -> Result<usize, Refusal>
    ensures answer { paper result ≡ path_rows_answer path.now (length rows.old) }
    ensures rows { rows.new ≡ written (path_rows_answer path.now (length rows.old)) (path_rows path.now) rows.old }
{
    let count = check_path(path)?;
    if rows.len() / c_paths::ROW < count {
        return Err(Refusal::Room);
    }
    read_rows(path, count, rows);
    Ok(count)
}

// Reads a path's segments into rows, with path as their pool, or changes nothing.
#[unsafe(no_mangle)]
pub extern "C" fn bark_read_path(path: &[u8], segments: &mut [u32]) -> usize
    ensures answer { result ≡ code (path_rows_answer path.now (length segments.old)) }
    ensures rows { segments.new ≡ written (path_rows_answer path.now (length segments.old)) (path_rows path.now) segments.old }
{
    size_answer(read_all(path, segments))
}

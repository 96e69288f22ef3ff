// What the valve group links, and nothing else: paths, for C. Each function calls the one of its name in c_paths, c_path_checks or c_path_reads,
// whose clauses are repeated here word for word. include/barkcushion_path.h has what C sees.
#![tactic(auto)]

ghost use Rattle.std.specs.Prelude.{length, ◌≡◌};
ghost use Rattle.c_answers.specs.Codes.{code};
ghost use Rattle.c_paths.specs.Rows.{rows_size, slots_in};
ghost use Rattle.wire.specs.Answers.{with_room, written};
ghost use Rattle.epath_sizes.specs.Segments.{encode};
ghost use Rattle.epath_sizes.specs.Lists.{segs};
ghost use Rattle.epath_check.specs.Paths.{check_path};
ghost use Rattle.c_path_reads.specs.Reads.{path_rows, path_rows_answer};

// How many bytes the path of these rows takes.
#[unsafe(no_mangle)]
pub extern "C" fn bark_path_size(segments: &[u32], pool: &[u8]) -> usize
    ensures { result ≡ code (rows_size pool.now segments.now) }
{
    c_paths::bark_path_size(segments, pool)
}

// Writes the path of these rows at the front of out, or changes nothing.
#[unsafe(no_mangle)]
pub extern "C" fn bark_write_path(segments: &[u32], pool: &[u8], out: &mut [u8]) -> usize
    ensures answer { result ≡ code (with_room (rows_size pool.now segments.now) (length out.old)) }
    ensures bytes { out.new ≡ written (with_room (rows_size pool.now segments.now) (length out.old)) (encode (segs pool.now (slots_in segments.now))) out.old }
{
    c_paths::bark_write_path(segments, pool, out)
}

// How many segments a path has, judged strictly.
#[unsafe(no_mangle)]
pub extern "C" fn bark_check_path(path: &[u8]) -> usize
    ensures { result ≡ code (check_path path.now) }
{
    c_path_checks::bark_check_path(path)
}

// Reads a path's segments into rows, with path as their pool, or changes nothing. The path is judged before the first row is stored.
#[unsafe(no_mangle)]
pub extern "C" fn bark_read_path(path: &[u8], segments: &mut [u32]) -> usize
    ensures answer { result ≡ code (path_rows_answer path.now (length segments.old)) }
    ensures rows { segments.new ≡ written (path_rows_answer path.now (length segments.old)) (path_rows path.now) segments.old }
{
    c_path_reads::bark_read_path(path, segments)
}

// Nested messages, for C.
#![tactic(auto)]

ghost use Rattle.std.specs.Prelude.{◌≡◌, length};
ghost use Rattle.nested.specs.Nested.{nested, counted, stored_rows};
ghost use Rattle.c_answers.specs.Codes.{code};

use c_answers::count_answer;
use nested::read_nested;

// A message and all that it holds, a row of numbers each; how many rows there are.
#[unsafe(no_mangle)]
pub extern "C" fn bark_read_nested(s: &[u8], rows: &mut [u16]) -> usize
    ensures answer { result ≡ code (counted (nested s.now) (length rows.old)) }
    ensures rows { rows.new ≡ stored_rows (nested s.now) rows.old }
{
    count_answer(read_nested(s, rows))
}

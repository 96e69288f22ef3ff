// CIP paths for C: how many segments, judged strictly. include/barkcushion_path.h says what C sees of it.
#![tactic(auto)]

ghost use Rattle.std.specs.Prelude.{◌≡◌};
ghost use Rattle.epath_check.specs.Paths.{check_path};
ghost use Rattle.c_answers.specs.Codes.{code};

use c_answers::count_answer;
use epath_check::check_path;

// How many segments a path has, judged strictly.
#[unsafe(no_mangle)]
pub extern "C" fn bark_check_path(path: &[u8]) -> usize
    ensures { result ≡ code (check_path path.now) }
{
    count_answer(check_path(path))
}

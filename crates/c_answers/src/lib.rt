// What the functions for C share: an answer as one number, and a lent run of numbers that a reader fills.
#![tactic(auto)]

ghost use Rattle.std.specs.Prelude.{◌≡◌, length};
ghost use Rattle.wire.specs.Refusals.{number};
ghost use Rattle.wire.specs.Answers.{done, refused, paper, with_room, written};
ghost use Rattle.c_answers.specs.Codes.{code};

use wire::{Refusal, refusal_number};

// A refusal as a number: the refusal's own with a minus sign, where it is taken for a signed number.
pub fn refusal_answer(e: Refusal) -> usize
    ensures { result ≡ code (refused (number e)) }
{
    usize::from(refusal_number(e)).wrapping_neg()
}

// What a writer or a sizer answers, as a number.
pub fn size_answer(w: Result<usize, Refusal>) -> usize
    ensures { result ≡ code (paper w) }
{
    w.unwrap_or_else(refusal_answer)
}

// What counts answers, as a number; docs/PROMISES.md names it beside the one above.
pub fn count_answer(c: Result<usize, Refusal>) -> usize
    ensures { result ≡ code (paper c) }
{
    size_answer(c)
}

// Fills the front of a lent run with numbers, and says how many; or changes nothing where the run is too short.
#[tactic(auto, using(crate::proofs::Laws::fill_laws))]
pub fn fill(fields: &mut [usize], src: &[usize]) -> usize
    ensures answer { result ≡ code (with_room (done (length src.now)) (length fields.old)) }
    ensures numbers { fields.new ≡ written (with_room (done (length src.now)) (length fields.old)) src.now fields.old }
{
    if fields.len() < src.len() {
        return refusal_answer(Refusal::Room);
    }
    fields[..src.len()].copy_from_slice(src);
    src.len()
}

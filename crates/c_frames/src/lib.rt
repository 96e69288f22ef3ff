// Frames of a stream that comes in scraps, for C. include/barkcushion.h says what a call answers and where a state's numbers stand.
#![tactic(auto)]

ghost use Rattle.std.specs.Prelude.{◌≡◌};
ghost use Rattle.c_answers.specs.Codes.{code};
ghost use Rattle.c_frames.specs.Scraps.{state_numbers, taken_answer, numbers_after, bytes_after, frame_after};

use c_answers::refusal_answer;
use frames::{FrameState, step};
use wire::Refusal;

// A state as C has it.
fn state_numbers(state: FrameState) -> [usize; 3]
    ensures { result ≡ state_numbers state }
{
    [state.held, state.length, usize::from(state.refused)]
}

// Takes a scrap, up to a frame's end.
#[unsafe(no_mangle)]
pub extern "C" fn bark_take_scrap(
    state: &mut [usize; 3],
    buffer: &mut [u8],
    scrap: &[u8],
    frame: &mut usize,
) -> usize
    ensures answer { result ≡ code (taken_answer state.old buffer.old scrap.now) }
    ensures state { state.new ≡ numbers_after state.old buffer.old scrap.now }
    ensures bytes { buffer.new ≡ bytes_after state.old buffer.old scrap.now }
    ensures frame { frame.new ≡ frame_after state.old buffer.old scrap.now frame.old }
{
    let [held, length, flag] = *state;
    if 1 < flag {
        return refusal_answer(Refusal::Outside);
    }
    let stepped = step(
        FrameState {
            held,
            length,
            refused: flag == 1,
        },
        buffer,
        scrap,
    );
    *state = state_numbers(stepped.state);
    match stepped.took {
        Ok(None) => {
            *frame = 0;
            scrap.len()
        }
        Ok(Some(f)) => {
            *frame = f.length;
            f.taken
        }
        Err(e) => refusal_answer(e), // C interface: one number
    }
}

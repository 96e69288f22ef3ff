// Frames of the encapsulation protocol, collected from a stream that comes in scraps: document 02, Wish 1. A driver holds the state and lends it
// with a buffer, the same at each call, in which the frame so far is kept. The crate rseip-cip has nothing like it in its pages.
#![tactic(auto)]

ghost use Rattle.std.specs.Prelude.{◌≡◌, ◌<◌, ◌++◌, false, length, get_or, MatchOption, Ok, None};
ghost use Rattle.wire.specs.Answers.{done, paper, judged};
ghost use Rattle.frames.specs.Frames.{frame_length};
ghost use Rattle.frames.specs.Conditions.{Serves};
ghost use Rattle.frames.specs.Calls.{reset_state, room_rules, admitted, since, length_of, brought, answer_of, state_of, buffer_of, scrap_answer, state_after, buffer_after, paper_took};

use wire::Refusal;
use wire_read::{byte_at, part_of};
use wire_write::put_bytes;

// ---- numbers of Volume 2, each with its twin in specs/Frames.antt

// Bytes of a header.
pub const HEADER: usize = 24;

// Where the length of the data stands in it.
pub const LENGTH_AT: usize = 2;

// The most that the length can say.
pub const MAX_DATA: usize = 65535;

// Bytes of the longest frame: a buffer of so many takes every frame.
pub const MAX_FRAME: usize = HEADER + MAX_DATA;

// A frame that is not whole yet: how many of its bytes the buffer holds, its length once its header is held (before, 0), and whether it was refused
// as too long for the buffer. The fields are the three numbers that C holds (document 02, Wish 1), so a length that is not known is 0.
#[derive(Clone, Copy)]
pub struct FrameState {
    pub held: usize,
    pub length: usize,
    pub refused: bool,
}

// A frame that lies whole at the front of the buffer: its length, and how many bytes of the scrap it took.
#[derive(Clone, Copy)]
pub struct Frame {
    pub length: usize,
    pub taken: usize,
}

// The state and the answer that a call leaves: no frame where all of the scrap was taken; a frame where the scrap brought its last byte, and what
// stands behind that is to be given again.
#[derive(Clone, Copy)]
pub struct Stepped {
    pub state: FrameState,
    pub took: Result<Option<Frame>, Refusal>,
}

// The state before the first byte.
pub fn reset_state() -> FrameState
    ensures { result ≡ reset_state }
{
    FrameState {
        held: 0,
        length: 0,
        refused: false,
    }
}

// Whether a buffer of so many bytes serves a state that calls leave.
#[tactic(auto, using(crate::proofs::CallLaws::room_laws))]
fn serve(state: FrameState, room: usize) -> Result<(), Refusal>
    ensures { paper result ≡ judged (room_rules state room) (done tt) }
{
    if room < HEADER || room < state.held || room < state.length || state.refused {
        return Err(Refusal::Room);
    }
    Ok(())
}

// The same of any state: one that no calls from a reset leave is refused first.
#[tactic(auto, using(crate::proofs::CallLaws::admit_laws))]
fn admit(state: FrameState, room: usize) -> Result<(), Refusal>
    ensures { paper result ≡ admitted state room (done tt) }
{
    let FrameState {
        held,
        length,
        refused,
    } = state;
    if held < HEADER {
        if length != 0 {
            return Err(Refusal::Outside);
        }
    } else if refused || MAX_FRAME < length || length <= held {
        return Err(Refusal::Outside);
    }
    serve(state, room)
}

// The byte at a place of what is kept and then the scrap.
fn since_at(kept: &[u8], scrap: &[u8], at: usize) -> u8
    ensures { result ≡ get_or (kept.now ++ scrap.now) at 0 }
{
    if at < kept.len() {
        return kept[at];
    }
    byte_at(scrap, at - kept.len())
}

// The length of a frame whose header is not held yet, where the scrap brings all of it.
#[tactic(auto, using(crate::proofs::CallLaws::header_laws))]
fn header_length(kept: &[u8], scrap: &[u8]) -> Option<usize>
    ensures { MatchOption result (frame_length (kept.now ++ scrap.now) ≡ 0) (λ n. (n ≡ frame_length (kept.now ++ scrap.now)) × (0 < n)) }
{
    if kept.len() + scrap.len() < HEADER {
        return None;
    }
    let low = since_at(kept, scrap, LENGTH_AT);
    let high = since_at(kept, scrap, LENGTH_AT + 1);
    Some(HEADER + usize::from(u16::from_le_bytes([low, high])))
}

// The length of the frame that is being read: the one that is known, else the one in its header.
fn length_of(state: FrameState, buffer: &[u8], scrap: &[u8]) -> Option<usize>
    requires { Serves state (length buffer.now) }
    ensures { MatchOption result (length_of state.length (since state.held buffer.now scrap.now) ≡ 0) (λ n. (n ≡ length_of state.length (since state.held buffer.now scrap.now)) × (0 < n)) }
{
    match state.length {
        0 => header_length(&buffer[..state.held], scrap),
        known => Some(known),
    }
}

// All of a scrap was taken: so many bytes are held, of a frame of this length.
fn all_taken(held: usize, length: usize) -> Stepped
    ensures state { result.state ≡ record { held = held; length = length; refused = false } }
    ensures took { result.took ≡ Ok None }
{
    Stepped {
        state: FrameState {
            held,
            length,
            refused: false,
        },
        took: Ok(None),
    }
}

// Takes what the frame wants of a scrap, with a state and a buffer that serve.
#[tactic(auto, using(crate::proofs::CallLaws::collect_laws))]
fn collect(state: FrameState, buffer: &mut [u8], scrap: &[u8]) -> Stepped
    requires { Serves state (length buffer.old) }
    ensures answer { paper_took result.took ≡ answer_of (done (brought state buffer.old scrap.now)) state.held }
    ensures state { result.state ≡ state_of (done (brought state buffer.old scrap.now)) state scrap.now }
    ensures bytes { buffer.new ≡ buffer_of (done (brought state buffer.old scrap.now)) state.held buffer.old scrap.now }
{
    let held = state.held;
    let Some(length) = length_of(state, buffer, scrap) else {
        put_bytes(buffer, held, scrap);
        return all_taken(held + scrap.len(), 0);
    };
    if buffer.len() < length {
        return Stepped {
            state: FrameState {
                refused: true,
                ..state
            },
            took: Err(Refusal::Room),
        };
    }
    let taken = length - held;
    if scrap.len() < taken {
        put_bytes(buffer, held, scrap);
        return all_taken(held + scrap.len(), length);
    }
    put_bytes(buffer, held, part_of(scrap, 0, taken));
    Stepped {
        state: reset_state(),
        took: Ok(Some(Frame { length, taken })),
    }
}

// Takes a scrap, up to a frame's end, with the state by value: what the state is afterwards, and the answer.
#[tactic(auto, using(crate::proofs::CallLaws::step_laws))]
pub fn step(state: FrameState, buffer: &mut [u8], scrap: &[u8]) -> Stepped
    ensures answer { paper_took result.took ≡ scrap_answer state buffer.old scrap.now }
    ensures state { result.state ≡ state_after state buffer.old scrap.now }
    ensures bytes { buffer.new ≡ buffer_after state buffer.old scrap.now }
{
    match admit(state, buffer.len()) {
        Err(e) => Stepped {
            state,
            took: Err(e),
        },
        Ok(()) => collect(state, buffer, scrap),
    }
}

// The same with the state lent, as a driver holds it.
pub fn take_scrap(
    state: &mut FrameState,
    buffer: &mut [u8],
    scrap: &[u8],
) -> Result<Option<Frame>, Refusal>
    ensures answer { paper_took result ≡ scrap_answer state.old buffer.old scrap.now }
    ensures state { state.new ≡ state_after state.old buffer.old scrap.now }
    ensures bytes { buffer.new ≡ buffer_after state.old buffer.old scrap.now }
{
    let t = step(*state, buffer, scrap);
    *state = t.state;
    t.took
}

// The state before the first byte again: what was held is dropped, and a refusal forgotten.
pub fn reset(state: &mut FrameState)
    ensures { state.new ≡ reset_state }
{
    *state = reset_state();
}

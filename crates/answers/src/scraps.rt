// Operation 50: the frames of a stream.
use crate::fields::Fields;
use crate::said::Answer;
use frames::FrameState;

fn put_state(state: FrameState, answer: &mut Answer<'_>) {
    answer.number(state.held);
    answer.number(state.length);
    answer.put(&[u8::from(state.refused)]);
}

// Puts the answer of a case; None for what is no case.
pub(crate) fn ask(mut case: Fields<'_>, out: &mut [u8], answer: &mut Answer<'_>) -> Option<()> {
    let state = FrameState {
        held: case.u32()? as usize,
        length: case.u32()? as usize,
        refused: case.flag()?,
    };
    let kept = case.string()?;
    let scrap = case.last_string()?;
    let buffer = out.get_mut(..kept.len())?;
    wire_write::put_bytes(buffer, 0, kept);
    let stepped = frames::step(state, &mut *buffer, scrap);
    if let Some(frame) = answer.judge(stepped.took) {
        // with no frame all of the scrap was taken
        let (taken, length) = frame.map_or((scrap.len(), 0), |f| (f.taken, f.length));
        answer.number(taken);
        answer.number(length);
    }
    put_state(stepped.state, answer);
    answer.put(buffer);
    Some(())
}

// Operation 40: nested reading.
use crate::fields::Fields;
use crate::said::Answer;

// Numbers of the rows that any message can have; and of those that one of FEW_BYTES can have, which most cases need no more than.
const MOST: usize = nested::ROW * nested::MAX_ROWS;

const FEW: usize = 1024;

const FEW_BYTES: usize = 1022;

// Bytes of the longest answer.
pub const MAX_ROWS_REPLY: usize = 5 + 6 * nested::MAX_ROWS;

// The rows, by way of a run of numbers.
fn list(s: &[u8], run: &mut [u16], answer: &mut Answer<'_>) {
    if let Some(n) = answer.judge(nested::read_nested(s, run)) {
        answer.number(n);
        for row in run.chunks_exact(nested::ROW).take(n) {
            if let [depth, service, path, data] = row {
                answer.put(&[(*depth % 256) as u8, (*service % 256) as u8]);
                answer.u16(*path);
                answer.u16(*data);
            }
        }
    }
}

// Puts the answer of a case; None for what is no case. Not inlined, so that only this operation takes the run's stack.
#[inline(never)]
pub(crate) fn ask(case: Fields<'_>, answer: &mut Answer<'_>) -> Option<()> {
    let s = case.last_string()?;
    // a short message is not charged with clearing the longest run
    if s.len() <= FEW_BYTES {
        list(s, &mut [0; FEW], answer);
    } else {
        list(s, &mut [0; MOST], answer);
    }
    Some(())
}

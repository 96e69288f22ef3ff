// Operations 30 to 34: bodies.
use crate::fields::Fields;
use crate::reply_reads;
use crate::said::Answer;

// Lengths of the longest list that can be asked for, and of one that most cases need no more than.
const MAX_ITEMS: usize = 32768;

const FEW_ITEMS: usize = 64;

// A body of items, of which as many lengths as there is room for come next in the case.
fn write_items(
    items: &[u8],
    mut case: Fields<'_>,
    lengths: &mut [usize],
    out: &mut [u8],
    answer: &mut Answer<'_>,
) -> Option<()> {
    for n in lengths.iter_mut() {
        *n = case.long()?;
    }
    let out = out.get_mut(..case.room()?)?;
    answer.written(out, |out| body::write_body(items, lengths, out));
    Some(())
}

// Not inlined, so that only this operation takes the lengths' stack.
#[inline(never)]
fn write(mut case: Fields<'_>, out: &mut [u8], answer: &mut Answer<'_>) -> Option<()> {
    let items = case.string()?;
    let count = case.u32()? as usize;
    // a short list is not charged with clearing the longest one
    if count <= FEW_ITEMS {
        let mut few = [0; FEW_ITEMS];
        return write_items(items, case, few.get_mut(..count)?, out, answer);
    }
    let mut lengths = [0; MAX_ITEMS];
    write_items(items, case, lengths.get_mut(..count)?, out, answer)
}

fn read(case: Fields<'_>, answer: &mut Answer<'_>) -> Option<()> {
    let s = case.last_string()?;
    answer.counted(body::read_body(s));
    Some(())
}

fn item(mut case: Fields<'_>, answer: &mut Answer<'_>) -> Option<()> {
    let s = case.string()?;
    let index = case.long()?;
    case.end()?;
    if let Some(i) = answer.judge(body::body_item(s, index)) {
        answer.part(i.start, i.len);
    }
    Some(())
}

fn reply(mut case: Fields<'_>, answer: &mut Answer<'_>) -> Option<()> {
    let s = case.string()?;
    let index = case.long()?;
    case.end()?;
    reply_reads::header(body::reply_item(s, index), answer);
    Some(())
}

fn join(mut case: Fields<'_>, out: &mut [u8], answer: &mut Answer<'_>) -> Option<()> {
    let first = case.string()?;
    let second = case.string()?;
    let out = out.get_mut(..case.room()?)?;
    answer.written(out, |out| body::join_bodies(first, second, out));
    Some(())
}

// Puts the answer of a case; None for what is no case.
pub(crate) fn ask(op: u8, case: Fields<'_>, out: &mut [u8], answer: &mut Answer<'_>) -> Option<()> {
    match op {
        0x30 => write(case, out, answer),
        0x31 => read(case, answer),
        0x32 => item(case, answer),
        0x33 => reply(case, answer),
        0x34 => join(case, out, answer),
        _ => None,
    }
}

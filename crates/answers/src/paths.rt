// Operations 01 to 07: segments and paths.
use crate::fields::Fields;
use crate::said::Answer;
use epath::Path;

fn size_segment(mut case: Fields<'_>, answer: &mut Answer<'_>) -> Option<()> {
    let pool = case.string()?;
    let x = case.segment()?;
    case.end()?;
    answer.counted(epath::segment_size(x, pool));
    Some(())
}

fn size_path(mut case: Fields<'_>, answer: &mut Answer<'_>) -> Option<()> {
    let pool = case.string()?;
    let path = case.list()?;
    case.end()?;
    answer.counted(epath::path_size(path, pool));
    Some(())
}

fn write_segment(mut case: Fields<'_>, out: &mut [u8], answer: &mut Answer<'_>) -> Option<()> {
    let pool = case.string()?;
    let x = case.segment()?;
    let out = out.get_mut(..case.room()?)?;
    answer.written(out, |out| epath::write_segment(x, pool, out));
    Some(())
}

fn write_path(mut case: Fields<'_>, out: &mut [u8], answer: &mut Answer<'_>) -> Option<()> {
    let pool = case.string()?;
    let path = case.list()?;
    let out = out.get_mut(..case.room()?)?;
    answer.written(out, |out| epath::write_path(path, pool, out));
    Some(())
}

// A list as a case has it.
fn list(path: Path, answer: &mut Answer<'_>) {
    answer.u16((path.count % 65536) as u16);
    for slot in path.slots.iter().take(path.count) {
        answer.segment(slot.segment);
    }
}

fn read_path(s: &[u8], answer: &mut Answer<'_>) {
    if let Some(path) = answer.judge(epath::read_path(s)) {
        list(path, answer);
    }
}

fn read_segment(s: &[u8], answer: &mut Answer<'_>) {
    if let Some(read) = answer.judge(epath::read_segment(s)) {
        answer.segment(read.segment);
        answer.number(read.len);
    }
}

// Puts the answer of a case; None for what is no case.
pub(crate) fn ask(op: u8, case: Fields<'_>, out: &mut [u8], answer: &mut Answer<'_>) -> Option<()> {
    match op {
        0x01 => return size_segment(case, answer),
        0x02 => return size_path(case, answer),
        0x03 => return write_segment(case, out, answer),
        0x04 => return write_path(case, out, answer),
        0x05 => read_path(case.last_string()?, answer),
        0x06 => read_segment(case.last_string()?, answer),
        0x07 => answer.counted(epath::check_path(case.last_string()?)),
        _ => return None,
    }
    Some(())
}

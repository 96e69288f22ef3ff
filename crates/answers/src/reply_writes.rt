// Operations 23 to 25 and 27: replies written, and routing errors.
use crate::fields::Fields;
use crate::said::Answer;
use connection::{ForwardCloseSuccess, ForwardOpenSuccess, ForwardRequestFail};
use statuses::Status;

fn write_open(mut case: Fields<'_>, out: &mut [u8], answer: &mut Answer<'_>) -> Option<()> {
    let service = case.byte()?;
    let o = ForwardOpenSuccess {
        o_t_connection_id: case.u32()?,
        t_o_connection_id: case.u32()?,
        connection_serial_number: case.u16()?,
        originator_vendor_id: case.u16()?,
        originator_serial_number: case.u32()?,
        o_t_api: case.u32()?,
        t_o_api: case.u32()?,
    };
    let data = case.string()?;
    let out = out.get_mut(..case.room()?)?;
    answer.written(
        out,
        |out| reply::write_forward_open_success(service, o, data, out),
    );
    Some(())
}

fn write_close(mut case: Fields<'_>, out: &mut [u8], answer: &mut Answer<'_>) -> Option<()> {
    let service = case.byte()?;
    let c = ForwardCloseSuccess {
        connection_serial_number: case.u16()?,
        originator_vendor_id: case.u16()?,
        originator_serial_number: case.u32()?,
    };
    let data = case.string()?;
    let out = out.get_mut(..case.room()?)?;
    answer.written(
        out,
        |out| reply::write_forward_close_success(service, c, data, out),
    );
    Some(())
}

// A word behind 0 words is read and not used.
fn status(case: &mut Fields<'_>) -> Option<Status> {
    let general = case.byte()?;
    let is_extended = case.flag()?;
    let word = case.u16()?;
    Some(Status {
        general,
        extended: is_extended.then_some(word),
    })
}

fn write_failure(mut case: Fields<'_>, out: &mut [u8], answer: &mut Answer<'_>) -> Option<()> {
    let service = case.byte()?;
    let s = status(&mut case)?;
    let serial = case.u16()?;
    let vendor = case.u16()?;
    let originator = case.u32()?;
    // a size behind a flag 0 is read and not used
    let is_remaining = case.flag()?;
    let words = case.byte()?;
    let f = ForwardRequestFail {
        connection_serial_number: serial,
        originator_vendor_id: vendor,
        originator_serial_number: originator,
        remaining_path_size: is_remaining.then_some(words),
    };
    let out = out.get_mut(..case.room()?)?;
    answer.written(out, |out| reply::write_forward_failure(service, s, f, out));
    Some(())
}

fn is_routing_error(mut case: Fields<'_>, answer: &mut Answer<'_>) -> Option<()> {
    let s = status(&mut case)?;
    case.end()?;
    answer.put(&[0, u8::from(reply::is_routing_error(s))]);
    Some(())
}

// Puts the answer of a case; None for what is no case.
pub(crate) fn ask(op: u8, case: Fields<'_>, out: &mut [u8], answer: &mut Answer<'_>) -> Option<()> {
    match op {
        0x23 => write_open(case, out, answer),
        0x24 => write_close(case, out, answer),
        0x25 => write_failure(case, out, answer),
        0x27 => is_routing_error(case, answer),
        _ => None,
    }
}

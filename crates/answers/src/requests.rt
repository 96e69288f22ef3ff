// Operations 10 to 15: requests written, the default record, the setter.
use crate::connections;
use crate::fields::Fields;
use crate::said::Answer;
use connection::{ForwardCloseRequest, UnconnectedSend};

fn write_message(mut case: Fields<'_>, out: &mut [u8], answer: &mut Answer<'_>) -> Option<()> {
    let service = case.byte()?;
    let pool = case.string()?;
    let path = case.list()?;
    let data = case.string()?;
    let out = out.get_mut(..case.room()?)?;
    answer.written(
        out,
        |out| request::write_message(service, path, pool, data, out),
    );
    Some(())
}

fn write_open(mut case: Fields<'_>, out: &mut [u8], answer: &mut Answer<'_>) -> Option<()> {
    let large = case.flag()?;
    let o = connections::open(large, &mut case)?;
    let pool = case.string()?;
    let path = case.list()?;
    let out = out.get_mut(..case.room()?)?;
    answer.written(out, |out| request::write_forward_open(o, path, pool, out));
    Some(())
}

fn write_close(mut case: Fields<'_>, out: &mut [u8], answer: &mut Answer<'_>) -> Option<()> {
    let c = ForwardCloseRequest {
        priority_time_ticks: case.byte()?,
        timeout_ticks: case.byte()?,
        connection_serial_number: case.u16()?,
        originator_vendor_id: case.u16()?,
        originator_serial_number: case.u32()?,
    };
    let pool = case.string()?;
    let path = case.list()?;
    let out = out.get_mut(..case.room()?)?;
    answer.written(out, |out| request::write_forward_close(c, path, pool, out));
    Some(())
}

fn write_send(mut case: Fields<'_>, out: &mut [u8], answer: &mut Answer<'_>) -> Option<()> {
    let u = UnconnectedSend {
        priority_ticks: case.byte()?,
        timeout_ticks: case.byte()?,
    };
    let message = case.string()?;
    let pool = case.string()?;
    let path = case.list()?;
    let out = out.get_mut(..case.room()?)?;
    answer.written(
        out,
        |out| request::write_unconnected_send(u, message, path, pool, out),
    );
    Some(())
}

fn write_default(mut case: Fields<'_>, out: &mut [u8], answer: &mut Answer<'_>) -> Option<()> {
    let large = case.flag()?;
    let mut o = connection::default_options(case.u16()?);
    o.large_open = large;
    let path = request::default_connection_path();
    let out = out.get_mut(..case.room()?)?;
    answer.written(out, |out| request::write_forward_open(o, path, &[], out));
    Some(())
}

fn mask(mut case: Fields<'_>, answer: &mut Answer<'_>) -> Option<()> {
    let value = case.byte()?;
    case.end()?;
    let o = connection::priority_tick_time(connection::default_options(0), value);
    answer.put(&[0, o.priority_tick_time]);
    Some(())
}

// Puts the answer of a case; None for what is no case.
pub(crate) fn ask(op: u8, case: Fields<'_>, out: &mut [u8], answer: &mut Answer<'_>) -> Option<()> {
    match op {
        0x10 => write_message(case, out, answer),
        0x11 => write_open(case, out, answer),
        0x12 => write_close(case, out, answer),
        0x13 => write_send(case, out, answer),
        0x14 => write_default(case, out, answer),
        0x15 => mask(case, answer),
        _ => None,
    }
}

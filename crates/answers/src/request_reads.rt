// Operations 18 to 1B: requests read.
use crate::connections;
use crate::fields::Fields;
use crate::said::Answer;

fn read_message(s: &[u8], answer: &mut Answer<'_>) {
    if let Some(m) = answer.judge(request::read_message(s)) {
        answer.put(&[m.service_code]);
        answer.part(m.path_start, m.path_len);
        answer.part(m.data_start, m.data_len);
    }
}

fn read_open(large: bool, s: &[u8], answer: &mut Answer<'_>) {
    if let Some(read) = answer.judge(request::read_forward_open(large, s)) {
        connections::put_open(read.options, answer);
        answer.part(read.path_start, read.path_len);
    }
}

fn read_close(s: &[u8], answer: &mut Answer<'_>) {
    if let Some(read) = answer.judge(request::read_forward_close(s)) {
        let c = read.request;
        answer.put(&[c.priority_time_ticks, c.timeout_ticks]);
        answer.u16(c.connection_serial_number);
        answer.u16(c.originator_vendor_id);
        answer.u32(c.originator_serial_number);
        answer.part(read.path_start, read.path_len);
    }
}

fn read_send(s: &[u8], answer: &mut Answer<'_>) {
    if let Some(read) = answer.judge(request::read_unconnected_send(s)) {
        let u = read.send;
        answer.put(&[u.priority_ticks, u.timeout_ticks]);
        answer.part(read.message_start, read.message_len);
        answer.part(read.path_start, read.path_len);
    }
}

// Puts the answer of a case; None for what is no case.
pub(crate) fn ask(op: u8, mut case: Fields<'_>, answer: &mut Answer<'_>) -> Option<()> {
    match op {
        0x18 => read_message(case.last_string()?, answer),
        0x19 => {
            let large = case.flag()?;
            read_open(large, case.last_string()?, answer);
        }
        0x1A => read_close(case.last_string()?, answer),
        0x1B => read_send(case.last_string()?, answer),
        _ => return None,
    }
    Some(())
}

// Operations 20 to 22 and 26: replies and envelopes read.
use crate::fields::Fields;
use crate::said::Answer;
use connection::{ForwardCloseSuccess, ForwardOpenSuccess, ForwardRequestFail};
use envelope::EnvelopeRead;
use reply_header::MessageReply;
use reply_read::Reply;
use wire::Refusal;

// The record that a reply of success has.
trait Record {
    fn put(&self, answer: &mut Answer<'_>);
}

impl Record for ForwardOpenSuccess {
    fn put(&self, answer: &mut Answer<'_>) {
        answer.u32(self.o_t_connection_id);
        answer.u32(self.t_o_connection_id);
        answer.u16(self.connection_serial_number);
        answer.u16(self.originator_vendor_id);
        answer.u32(self.originator_serial_number);
        answer.u32(self.o_t_api);
        answer.u32(self.t_o_api);
    }
}

impl Record for ForwardCloseSuccess {
    fn put(&self, answer: &mut Answer<'_>) {
        answer.u16(self.connection_serial_number);
        answer.u16(self.originator_vendor_id);
        answer.u32(self.originator_serial_number);
    }
}

fn head(m: MessageReply, answer: &mut Answer<'_>) {
    answer.put(&[m.reply_service]);
    answer.status(m.status);
}

// A reply's header, or that of an item of a body.
pub(crate) fn header(r: Result<MessageReply, Refusal>, answer: &mut Answer<'_>) {
    if let Some(m) = answer.judge(r) {
        head(m, answer);
        answer.part(m.data_start, m.data_len);
    }
}

fn failure(f: ForwardRequestFail, answer: &mut Answer<'_>) {
    answer.u16(f.connection_serial_number);
    answer.u16(f.originator_vendor_id);
    answer.u32(f.originator_serial_number);
    match f.remaining_path_size {
        None => answer.put(&[0, 0]),
        Some(words) => answer.put(&[1, words]),
    }
}

// The reply to a Forward Open or a Forward Close.
fn forward<T: Record + Drop>(r: Result<Reply<T>, Refusal>, answer: &mut Answer<'_>) {
    match answer.judge(r) {
        Some(Reply::Success(m, record, start, len)) => {
            head(m, answer);
            answer.put(&[1]);
            record.put(answer);
            answer.part(start, len);
        }
        Some(Reply::Failure(m, f)) => {
            head(m, answer);
            answer.put(&[0]);
            failure(f, answer);
        }
        None => {}
    }
}

fn read_envelope(s: &[u8], answer: &mut Answer<'_>) {
    match answer.judge(envelope::read_envelope(s)) {
        Some(EnvelopeRead::Unconnected(start, len)) => {
            answer.put(&[0, 0, 0]);
            answer.part(start, len);
        }
        Some(EnvelopeRead::Connected(count, start, len)) => {
            answer.put(&[1]);
            answer.u16(count);
            answer.part(start, len);
        }
        None => {}
    }
}

// Puts the answer of a case; None for what is no case.
pub(crate) fn ask(op: u8, mut case: Fields<'_>, answer: &mut Answer<'_>) -> Option<()> {
    match op {
        0x20 => header(reply::read_reply_header(case.last_string()?), answer),
        0x21 => {
            let routing = case.flag()?;
            forward(
                reply::read_forward_open_reply(routing, case.last_string()?),
                answer,
            );
        }
        0x22 => {
            let routing = case.flag()?;
            forward(
                reply::read_forward_close_reply(routing, case.last_string()?),
                answer,
            );
        }
        0x26 => read_envelope(case.last_string()?, answer),
        _ => return None,
    }
    Some(())
}

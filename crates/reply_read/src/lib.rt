// The Forward Open and Forward Close replies: readers. Beside it in rseip-cip: src/codec/decode/message_reply.rs.
// A reader answers the header, the record, and the application data as a start and a length in the input.
#![tactic(auto)]

mod close; // close.rt: the Forward Close reply
mod failure; // failure.rt: what a failed Forward Open or Close carries
mod open; // open.rt: the Forward Open reply
mod record; // record.rt: either reply, by the record that tells of success

pub use close::read_forward_close_reply;
use connection::ForwardRequestFail;
pub use open::read_forward_open_reply;
use reply_header::MessageReply;

// On success the record, and start and length of its application data.
#[derive(Clone, Copy)]
pub enum Reply<T> {
    Success(MessageReply, T, usize, usize),
    Failure(MessageReply, ForwardRequestFail),
}

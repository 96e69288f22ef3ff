// Sizes of the requests that hold more than a path: a message, and Unconnected Send. Beside it in rseip-cip:
// src/codec/encode.rs, src/codec/encode/message.rs.
#![tactic(auto)]

mod message; // message.rt: the message request
mod record; // record.rt: the limit of a record
mod send; // send.rt: Unconnected Send

pub use message::message_size;
pub use send::unconnected_send_size;

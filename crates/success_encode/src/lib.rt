// Replies to a Forward Open and a Forward Close that were served: writers. Beside it in rseip-cip: src/codec/decode/message_reply.rs, which reads
// them; the crate has no such writer: added.
#![tactic(auto)]

mod close; // close.rt: a Forward Close that was served
mod open; // open.rt: a Forward Open that was served
mod success; // success.rt: what both have alike

pub use close::write_forward_close_success;
pub use open::write_forward_open_success;

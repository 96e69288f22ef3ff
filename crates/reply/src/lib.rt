// Replies, whole: what callers use of statuses, reply_header, reply_read, success_encode and failure_encode, handed on. Beside it in rseip-cip:
// src/codec/decode/message_reply.rs.
#![tactic(auto)]

pub use failure_encode::write_forward_failure;
pub use reply_header::read_reply_header;
pub use reply_read::{Reply, read_forward_close_reply, read_forward_open_reply};
pub use statuses::{is_ok, is_routing_error};
pub use success_encode::{write_forward_close_success, write_forward_open_success};

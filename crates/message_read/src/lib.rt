// A message request is read here, and what the readers of requests share, the path behind a size byte. rseip-cip has no such readers: they are
// added. A reader answers the record, and its parts as starts and lengths in the input; the path is judged here and its segments are read from
// that part.
#![tactic(auto)]

mod message; // message.rt: the message request
mod route; // route.rt: what requests share, the path behind a size byte

pub use message::read_message;
pub use route::{padded_route_at, route_at};

#[derive(Clone, Copy)]
pub struct MessageRequest {
    pub service_code: u8,
    pub path_start: usize,
    pub path_len: usize,
    pub data_start: usize,
    pub data_len: usize,
}

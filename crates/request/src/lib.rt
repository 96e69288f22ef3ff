// Requests, whole: sizes, writers and readers handed on from the crates below. A message, Forward Open (small and large), Forward Close and
// Unconnected Send.
// A reader answers the record, and its parts as starts and lengths in the input; the path is judged and its segments are read from that part.
#![tactic(auto)]

pub use close_encode::write_forward_close;
pub use close_read::{CloseRead, read_forward_close};
pub use close_sizes::forward_close_size;
pub use default_path::default_connection_path;
pub use message_encode::write_message;
pub use message_over::write_message_over;
pub use message_read::{MessageRequest, read_message};
pub use open_encode::write_forward_open;
pub use open_read::{OpenRead, read_forward_open};
pub use open_sizes::forward_open_size;
pub use request_sizes::{message_size, unconnected_send_size};
pub use send_encode::write_unconnected_send;
pub use send_over::write_unconnected_send_over;
pub use send_read::{SendRead, read_unconnected_send};

// Bodies, whole: size, writer, reader, items, replies and join, handed on from the crates below.
#![tactic(auto)]

pub use body_encode::write_body;
pub use body_items::{body_item, walk_item};
pub use body_join::join_bodies;
pub use body_read::read_body;
pub use body_replies::{reply_item, walk_reply};
pub use body_sizes::body_size;

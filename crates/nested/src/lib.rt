// Messages that hold messages, read to a depth of 3: a Multiple Service Packet holds those of its body, an Unconnected Send the one that it sends on.
// rseip-cip has no such reader: it is added. What is read of each message is a row of four numbers, in a run of numbers that the caller lends.
#![tactic(auto)]

mod kinds; // kinds.rt: what a message opens
mod rows; // rows.rt: the rows
mod walk; // walk.rt: the reader of a message and the reader of a body, which call each other

pub use walk::read_nested;

// Levels below the outermost message; its twin is in specs/Nested.antt.
pub const MAX_DEPTH: usize = 3;

// Numbers of a row: depth, service, path bytes, data bytes.
pub const ROW: usize = 4;

// Rows of the longest message, as many as it can have: a run of ROW * MAX_ROWS numbers is never too short. Its twin is in specs/Nested.antt.
pub const MAX_ROWS: usize = 16384;

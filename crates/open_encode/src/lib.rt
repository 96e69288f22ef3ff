// Forward Open, small and large: the writers. Beside it in rseip-cip: `OpenOptions` in src/codec/encode.rs.
#![tactic(auto)]

mod open; // open.rt: over a list of segments
mod over; // over.rt: over a path that was written before

pub use open::write_forward_open;
pub use over::write_forward_open_over;

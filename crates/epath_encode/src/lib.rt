// CIP paths: the writer. Beside it in rseip-cip: src/codec/encode/epath.rs.
#![tactic(auto)]

mod encode; // encode.rt: the writer

pub use encode::{write_path, write_segment};

// Class and trigger of a Forward Open: direction, trigger and class in one byte.
#![tactic(auto)]

mod fields; // fields.rt: the byte

pub use fields::{transport_byte, transport_class_trigger, transport_of};

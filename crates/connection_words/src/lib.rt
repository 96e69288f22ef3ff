// The fields of a Connection Manager's record that have several parts in their bits: connection parameters here, class and trigger in
// transport_words, whose answer is declared here beside its definition.
#![tactic(auto)]

mod fields; // fields.rt: connection parameters

use connection::{Direction, TransportClass, TriggerType};
pub use fields::{decode_parameters, encode_parameters, parameter_width};

// What the class-and-trigger byte says.
#[derive(Clone, Copy)]
pub struct TransportRead {
    pub direction: Direction,
    pub trigger: TriggerType,
    pub class: TransportClass,
}

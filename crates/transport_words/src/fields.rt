// Class and trigger, as a sum of its parts: reading it is dividing. Beside it in rseip-cip: `transport_class_trigger` in src/connection.rs.
ghost use Rattle.std.specs.Prelude.{◌≡◌};
ghost use Rattle.connection_words.specs.Fields.{transport_byte, class_trigger, paper_transport, read_transport};

use connection::{Direction, OpenOptions, TransportClass, TriggerType};
use connection_words::TransportRead;
use wire::Refusal;

// Direction, trigger and class in one byte.
#[tactic(auto, using(connection_words::proofs::FieldLaws::field_laws))]
pub fn transport_byte(transport: TransportRead) -> u8
    ensures { result ≡ transport_byte transport.direction transport.trigger transport.class }
{
    let d = transport.direction as u8;
    let t = transport.trigger as u8;
    let c = transport.class as u8;
    128 * d + 16 * t + c
}

// The same of a record.
#[tactic(auto, using(connection_words::proofs::FieldLaws::field_laws))]
pub fn transport_class_trigger(o: OpenOptions) -> u8
    ensures { result ≡ class_trigger o }
{
    transport_byte(TransportRead {
        direction: o.transport_direction,
        trigger: o.transport_trigger,
        class: o.transport_class,
    })
}

// Direction, trigger and class of a byte; trigger 3 to 7 and class 7 to 15 are 4.
#[tactic(auto, using(connection_words::proofs::FieldLaws::field_laws))]
pub fn transport_of(b: u8) -> Result<TransportRead, Refusal>
    ensures { paper_transport result ≡ read_transport b }
{
    let trigger = TriggerType::try_from(b / 16 % 8)?;
    let class = TransportClass::try_from(b % 16)?;
    Ok(TransportRead {
        direction: Direction::from(b / 128 == 1),
        trigger,
        class,
    })
}

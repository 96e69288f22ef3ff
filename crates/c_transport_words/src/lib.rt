// Class and trigger of a Forward Open, for C: a byte, from numbers and to numbers. An enum is the number that stands for it in its field.
// include/barkcushion.h has what C sees.
#![tactic(auto)]

ghost use Rattle.std.specs.Prelude.{◌≡◌};
ghost use Rattle.wire.specs.Answers.{paper};
ghost use Rattle.c_answers.specs.Codes.{code, run_answer, run_left};
ghost use Rattle.c_transport_words.specs.Transports.{encoded_transport, transport_run};

use c_answers::{fill, refusal_answer, size_answer};
use connection::{Direction, TransportClass, TriggerType};
use connection_words::TransportRead;
use transport_words::{transport_byte, transport_of};
use wire::Refusal;

// The byte of what the numbers name; a trigger over 2 and a class over 6 name nothing.
#[tactic(auto, using(crate::proofs::Laws::transport_laws))]
fn encoded(server: bool, trigger: u8, class: u8) -> Result<usize, Refusal>
    ensures { paper result ≡ encoded_transport server trigger class }
{
    let trigger = TriggerType::try_from(trigger)?;
    let class = TransportClass::try_from(class)?;
    let direction = Direction::from(server);
    let byte = transport_byte(TransportRead {
        direction,
        trigger,
        class,
    });
    Ok(byte as usize)
}

// Direction, trigger and class as a byte.
#[tactic(auto, using(c_answers::proofs::Laws::told_laws))]
#[unsafe(no_mangle)]
pub extern "C" fn bark_encode_transport(server: bool, trigger: u8, transport_class: u8) -> usize
    ensures { result ≡ code (encoded_transport server trigger transport_class) }
{
    size_answer(encoded(server, trigger, transport_class))
}

// Direction, trigger and class in a byte.
#[tactic(auto, using(crate::proofs::Laws::byte_laws))]
#[unsafe(no_mangle)]
pub extern "C" fn bark_decode_transport(byte: u8, fields: &mut [usize]) -> usize
    ensures answer { result ≡ code (run_answer (transport_run byte) fields.old) }
    ensures numbers { fields.new ≡ run_left (transport_run byte) fields.old }
{
    match transport_of(byte) {
        Err(e) => refusal_answer(e), // C interface: one number
        Ok(t) => {
            let n = [t.direction as usize, t.trigger as usize, t.class as usize];
            fill(fields, &n)
        }
    }
}

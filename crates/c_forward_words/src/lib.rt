// Connection parameters of a Forward Open, for C: a word, from numbers and to numbers. An enum is the number that stands for it in its field.
// include/barkcushion.h has what C sees.
#![tactic(auto)]

ghost use Rattle.std.specs.Prelude.{◌≡◌};
ghost use Rattle.wire.specs.Answers.{paper};
ghost use Rattle.c_answers.specs.Codes.{code, run_answer, run_left};
ghost use Rattle.c_forward_words.specs.Words.{encoded_parameters, parameter_run};

use c_answers::{fill, refusal_answer, size_answer};
use connection::{ConnectionParameters, ConnectionType, Priority, VariableLength};
use connection_words::{decode_parameters, encode_parameters};
use wire::Refusal;

// The word of what the numbers name; a type over 2 and a priority over 3 name nothing.
#[tactic(auto, using(crate::proofs::Laws::encode_laws))]
fn encoded(
    large: bool,
    redundant_owner: bool,
    connection_type: u8,
    variable_length: bool,
    priority: u8,
    connection_size: u16,
) -> Result<usize, Refusal>
    ensures { paper result ≡ encoded_parameters large redundant_owner connection_type variable_length priority connection_size }
{
    let kind = ConnectionType::try_from(connection_type)?;
    let level = Priority::try_from(priority)?;
    let p = ConnectionParameters {
        redundant_owner,
        connection_type: kind,
        variable_length: VariableLength::from(variable_length),
        priority: level,
        connection_size,
    };
    let word = encode_parameters(large, p)?;
    Ok(word as usize)
}

// The connection parameters as a word of 16 bits, or of 32 where large.
#[tactic(auto, using(c_answers::proofs::Laws::told_laws))]
#[unsafe(no_mangle)]
pub extern "C" fn bark_encode_parameters(
    large: bool,
    redundant_owner: bool,
    connection_type: u8,
    variable_length: bool,
    priority: u8,
    connection_size: u16,
) -> usize
    ensures { result ≡ code (encoded_parameters large redundant_owner connection_type variable_length priority connection_size) }
{
    size_answer(encoded(
        large,
        redundant_owner,
        connection_type,
        variable_length,
        priority,
        connection_size,
    ))
}

// The connection parameters in a word.
#[tactic(auto, using(crate::proofs::Laws::decode_laws))]
#[unsafe(no_mangle)]
pub extern "C" fn bark_decode_parameters(large: bool, word: u32, fields: &mut [usize]) -> usize
    ensures answer { result ≡ code (run_answer (parameter_run large word) fields.old) }
    ensures numbers { fields.new ≡ run_left (parameter_run large word) fields.old }
{
    match decode_parameters(large, word) {
        Err(e) => refusal_answer(e), // C interface: one number
        Ok(p) => {
            let n = [
                p.redundant_owner as usize,
                p.connection_type as usize,
                p.variable_length as usize,
                p.priority as usize,
                p.connection_size as usize,
            ];
            fill(fields, &n)
        }
    }
}

// Connection parameters, as a sum of their parts: reading them is dividing. Beside it in rseip-cip: `encode_parameters` in src/codec/encode.rs.
ghost use Rattle.std.specs.Prelude.{◌≡◌, ◌≤◌, ◌<◌};
ghost use Rattle.wire.specs.Answers.{paper};
ghost use Rattle.connection.specs.Limits.{size_limit};
ghost use Rattle.connection_words.specs.Fields.{unit, flags_of, parameter_word, read_parameters};
ghost use Rattle.connection_words.specs.Requests.{parameter_width};

use connection::{ConnectionParameters, ConnectionType, Priority, VariableLength};
use wire::Refusal;

// How many bytes a parameter word has in a Forward Open.
pub fn parameter_width(large: bool) -> usize
    ensures { (result ≡ parameter_width large) × (result ≤ 4) }
{
    if large { 4 } else { 2 }
}

// What the flags of a parameter word are counted in: what stands below them is the connection size.
fn flag_unit(large: bool) -> u32
    ensures { (result ≡ unit large) × (0 < result) }
{
    if large { 33554432 } else { 512 }
}

fn size_limit(large: bool) -> u16
    ensures { result ≡ size_limit large }
{
    if large {
        connection::MAX_LARGE_SIZE
    } else {
        connection::MAX_SMALL_SIZE
    }
}

#[tactic(auto, using(crate::proofs::FieldLaws::field_laws))]
fn flags(p: ConnectionParameters) -> u32
    ensures { (result ≡ flags_of p) × (result < 128) }
{
    let v = p.variable_length as u32;
    let q = p.priority as u32;
    let t = p.connection_type as u32;
    let o = p.redundant_owner as u32;
    v + 2 * q + 16 * t + 64 * o
}

// The connection parameters as a word of 16 bits, or of 32 where large.
#[tactic(auto, using(crate::proofs::FieldLaws::field_laws))]
pub fn encode_parameters(large: bool, p: ConnectionParameters) -> Result<u32, Refusal>
    ensures { paper result ≡ parameter_word large p }
{
    let size = p.connection_size;
    if size_limit(large) < size {
        return Err(Refusal::Limit);
    }
    Ok(size as u32 + flag_unit(large) * flags(p))
}

// The connection parameters in a word: reserved bits (5), then the connection type (4). The priority's two bits name one each.
#[tactic(auto, using(crate::proofs::FieldLaws::field_laws))]
pub fn decode_parameters(large: bool, word: u32) -> Result<ConnectionParameters, Refusal>
    ensures { paper result ≡ read_parameters large word }
{
    let unit = flag_unit(large);
    let size = word % unit;
    let flags = word / unit;
    if (size_limit(large) as u32) < size || 127 < flags || flags / 8 % 2 != 0 {
        return Err(Refusal::Form);
    }
    let connection_type = ConnectionType::try_from((flags / 16 % 4) as u8)?;
    let priority = Priority::try_from((flags / 2 % 4) as u8).unwrap();
    Ok(ConnectionParameters {
        redundant_owner: flags / 64 % 2 == 1,
        connection_type,
        variable_length: VariableLength::from(flags % 2 == 1),
        priority,
        connection_size: size as u16,
    })
}

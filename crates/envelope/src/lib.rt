// The two-item envelope: an item count of 2, an address item, a data item. Beside it in rseip-cip: `decode_connected_send` and
// `decode_unconnected_send` in src/codec/decode/message_reply.rs; the walk over items that they use is not in the crate's pages.
#![tactic(auto)]

ghost use Rattle.std.specs.Prelude.{◌≡◌, ◌≤◌, IfOk};
ghost use Rattle.wire.specs.Answers.{paper};
ghost use Rattle.envelope.specs.Envelopes.{item_number, item_length, data_at, unconnected_at, connected_at, read_envelope, paper_envelope};

use wire::Refusal;
use wire_read::u16_at;

// An item's type, with its number on the wire; its twin is `item_number`.
#[derive(Clone, Copy)]
enum ItemType {
    NullAddress = 0,
    ConnectedAddress = 0xA1,
    ConnectedData = 0xB1,
    UnconnectedData = 0xB2,
}

// The data as a start and a length in the input; connected data has a 16-bit count before it.
#[derive(Clone, Copy)]
pub enum EnvelopeRead {
    Unconnected(usize, usize),
    Connected(u16, usize, usize),
}

// Where the bytes of the second item start, and how many there are.
#[derive(Clone, Copy)]
struct Data {
    start: usize,
    len: usize,
}

// How many bytes the item at a place has; its type is judged as soon as it is there. What is required only keeps sums from wrapping.
#[tactic(auto, using(crate::proofs::ReadLaws::item_laws))]
fn item_at(kind: ItemType, s: &[u8], at: usize) -> Result<u16, Refusal>
    requires { at ≤ 70000 }
    ensures { paper result ≡ item_length (item_number kind) s.now at }
{
    if s.len() < at + 2 {
        return Err(Refusal::Short);
    }
    if u16_at(s, at) != kind as u16 {
        return Err(Refusal::Envelope);
    }
    if s.len() < at + 4 {
        return Err(Refusal::Short);
    }
    let len = u16_at(s, at + 2);
    if s.len() < at + 4 + usize::from(len) {
        return Err(Refusal::Short);
    }
    Ok(len)
}

// The data behind an address of a type.
#[tactic(auto, using(crate::proofs::ReadLaws::two_laws))]
fn data_at(address: ItemType, kind: ItemType, s: &[u8]) -> Result<Data, Refusal>
    ensures data { paper result ≡ data_at (item_number address) (item_number kind) s.now }
    ensures near { IfOk result (λ d. (d.start ≤ 65545) × (d.len ≤ 65535)) }
{
    let before = usize::from(item_at(address, s, 2)?);
    let len = usize::from(item_at(kind, s, 6 + before)?);
    Ok(Data {
        start: 10 + before,
        len,
    })
}

// A null address, and data.
#[tactic(auto, using(crate::proofs::ReadLaws::held_laws))]
fn unconnected_at(s: &[u8]) -> Result<EnvelopeRead, Refusal>
    ensures { paper_envelope result ≡ unconnected_at s.now }
{
    let Data { start, len } = data_at(ItemType::NullAddress, ItemType::UnconnectedData, s)?;
    if start + len < s.len() {
        return Err(Refusal::Leftover);
    }
    Ok(EnvelopeRead::Unconnected(start, len))
}

// A connected address, and data behind its count.
#[tactic(auto, using(crate::proofs::ReadLaws::held_laws))]
fn connected_at(s: &[u8]) -> Result<EnvelopeRead, Refusal>
    ensures { paper_envelope result ≡ connected_at s.now }
{
    let Data { start, len } = data_at(ItemType::ConnectedAddress, ItemType::ConnectedData, s)?;
    if len < 2 {
        return Err(Refusal::Short);
    }
    if start + len < s.len() {
        return Err(Refusal::Leftover);
    }
    Ok(EnvelopeRead::Connected(u16_at(s, start), start + 2, len - 2))
}

// Reads an envelope of either form; the type of its address item says which.
#[tactic(auto, using(crate::proofs::ReadLaws::envelope_laws))]
pub fn read_envelope(s: &[u8]) -> Result<EnvelopeRead, Refusal>
    ensures { paper_envelope result ≡ read_envelope s.now }
{
    if s.len() < 2 {
        return Err(Refusal::Short);
    }
    if u16_at(s, 0) != 2 {
        return Err(Refusal::Envelope);
    }
    if s.len() < 4 {
        return Err(Refusal::Short);
    }
    if u16_at(s, 2) == ItemType::ConnectedAddress as u16 {
        return connected_at(s);
    }
    unconnected_at(s)
}

// The data of a Multiple Service Packet, a body: a count, that many offsets, and the items; here what a body is, and its size. Beside it in
// rseip-cip: `MultipleServicesEncoder` in src/service/common_services/multiple_packet.rs.
// The items are lent end to end, and beside them a run of their lengths.
#![tactic(auto)]

ghost use Rattle.std.specs.Prelude.{◌≡◌, length};
ghost use Rattle.wire.specs.Answers.{paper};
ghost use Rattle.body_sizes.specs.Bodies.{items_size, body_size};

use wire::Refusal;

// How many of the lent bytes are items: first to last, none ends past the lent end (11) and none is empty (7).
#[tactic(auto, using(crate::proofs::SizeLaws::judging_laws))]
fn items_size(lent: usize, lengths: &[usize]) -> Result<usize, Refusal>
    ensures { paper result ≡ items_size lent lengths.now }
{
    let mut left = lent;
    for &n in lengths {
        if left < n {
            return Err(Refusal::Outside);
        }
        if n == 0 {
            return Err(Refusal::Offset);
        }
        left -= n;
    }
    Ok(lent - left)
}

// How many bytes the body of these items takes.
#[tactic(auto, using(crate::proofs::SizeLaws::size_laws))]
pub fn body_size(items: &[u8], lengths: &[usize]) -> Result<usize, Refusal>
    ensures { paper result ≡ body_size (length items.now) lengths.now }
{
    let n = items_size(items.len(), lengths)?;
    // no item is empty, so there are at most n of them: behind this test the sum does not wrap
    if connection::MAX_RECORD < n {
        return Err(Refusal::Limit);
    }
    let size = 2 + 2 * lengths.len() + n;
    if connection::MAX_RECORD < size {
        return Err(Refusal::Limit);
    }
    Ok(size)
}

// What requests share: the path behind a size byte. What is required of places and lengths only keeps sums
// from wrapping: a type that says so would be made and taken apart in this file alone.
ghost use Rattle.std.specs.Prelude.{◌≡◌, ◌≤◌, length};
ghost use Rattle.wire.specs.Answers.{paper};
ghost use Rattle.connection.specs.Limits.{max_path};
ghost use Rattle.message_read.specs.Reads.{path_bytes, path_at, last_path, route_at, padded_route_at};

use epath_check::check_path;
use wire::Refusal;

// How many bytes the path behind the size byte at a place has.
#[tactic(auto, using(crate::proofs::ReadLaws::path_laws))]
pub(crate) fn path_size(s: &[u8], at: usize) -> Result<usize, Refusal>
    ensures { paper result ≡ path_bytes s.now at }
{
    let Some(&words) = s.get(at) else {
        return Err(Refusal::Short);
    };
    let len = 2 * words as usize;
    if connection::MAX_PATH < len {
        return Err(Refusal::Limit);
    }
    Ok(len)
}

// How many segments the path of len bytes from a place on has.
#[tactic(auto, using(crate::proofs::ReadLaws::path_laws))]
pub(crate) fn path_at(s: &[u8], at: usize, len: usize) -> Result<usize, Refusal>
    requires { (at ≤ length s.now) × (len ≤ max_path) }
    ensures { paper result ≡ path_at s.now at len }
{
    match s.get(at..at + len) {
        Some(path) => check_path(path),
        None => Err(Refusal::Short),
    }
}

// The same as the record's end: how many bytes.
#[tactic(auto, using(crate::proofs::ReadLaws::path_laws))]
fn last_path(s: &[u8], at: usize, len: usize) -> Result<usize, Refusal>
    requires { (at ≤ length s.now) × (len ≤ max_path) }
    ensures { paper result ≡ last_path s.now at len }
{
    path_at(s, at, len)?;
    if at + len < s.len() {
        return Err(Refusal::Leftover);
    }
    Ok(len)
}

// A size byte and the path.
#[tactic(auto, using(crate::proofs::ReadLaws::path_laws))]
pub fn route_at(s: &[u8], at: usize) -> Result<usize, Refusal>
    ensures { paper result ≡ route_at s.now at }
{
    let len = path_size(s, at)?;
    last_path(s, at + 1, len)
}

// A size byte, a reserved one, and the path.
#[tactic(auto, using(crate::proofs::ReadLaws::path_laws))]
pub fn padded_route_at(s: &[u8], at: usize) -> Result<usize, Refusal>
    ensures { paper result ≡ padded_route_at s.now at }
{
    let len = path_size(s, at)?;
    let Some(&reserved) = s.get(at + 1) else {
        return Err(Refusal::Short);
    };
    if reserved != 0 {
        return Err(Refusal::Form);
    }
    last_path(s, at + 2, len)
}

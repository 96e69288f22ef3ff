// What a failed Forward Open or Forward Close carries. Beside it in rseip-cip: `decode_forward_fail`.
ghost use Rattle.std.specs.Prelude.{◌≡◌, ◌≤◌};
ghost use Rattle.wire.specs.Answers.{paper};
ghost use Rattle.reply_read.specs.Reads.{remaining_at, fail_at, fail_size, read_fail};

use connection::ForwardRequestFail;
use wire::Refusal;
use wire_read::{byte_at, u16_at, u32_at};

// The size of the path that was left, which only a routing error has.
fn remaining_at(routing: bool, s: &[u8], at: usize) -> Option<u8>
    requires { at ≤ 70000 }
    ensures { result ≡ remaining_at routing s.now at }
{
    if routing {
        Some(byte_at(s, at + 8))
    } else {
        None
    }
}

fn fail_at(routing: bool, s: &[u8], at: usize) -> ForwardRequestFail
    requires { at ≤ 70000 }
    ensures { result ≡ fail_at routing s.now at }
{
    ForwardRequestFail {
        connection_serial_number: u16_at(s, at),
        originator_vendor_id: u16_at(s, at + 2),
        originator_serial_number: u32_at(s, at + 4),
        remaining_path_size: remaining_at(routing, s, at),
    }
}

fn fail_size(routing: bool) -> usize
    ensures { (result ≡ fail_size routing) × (result ≤ 9) }
{
    if routing { 9 } else { 8 }
}

// The failure record from a place on.
#[tactic(auto, using(crate::proofs::ReadLaws::field_laws))]
pub(crate) fn read_fail(routing: bool, s: &[u8], at: usize) -> Result<ForwardRequestFail, Refusal>
    requires { at ≤ 70000 }
    ensures { paper result ≡ read_fail routing s.now at }
{
    let size = fail_size(routing);
    if s.len() < at + size {
        return Err(Refusal::Short);
    }
    Ok(fail_at(routing, s, at))
}

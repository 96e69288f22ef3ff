// What stands around an Unconnected Send's message, for both writers. Beside it in rseip-cip: `UnconnectedSend` in src/codec/encode.rs and
// src/service/request.rs.
#![tactic(auto)]

ghost use Rattle.std.specs.Prelude.{◌≡◌, ◌+◌};
ghost use Rattle.std.proofs.lemmas.List.Edits.{sets};
ghost use Rattle.wire.specs.Records.{laid};
ghost use Rattle.connection_words.specs.Requests.{send_head, send_rest};

use connection::UnconnectedSend;
use wire_write::{put_bytes, put_u16};

// Stores what stands between a message of m bytes and its route: a zero where m is odd, the route's size in words, a zero.
fn put_rest(out: &mut [u8], at: usize, m: u16, words: u8)
    ensures { out.new ≡ sets out.old at (laid (send_rest m words)) }
{
    if m % 2 == 0 {
        put_bytes(out, at, &[words, 0]);
    } else {
        put_bytes(out, at, &[0, words, 0]);
    }
}

// Stores what stands before a message of m bytes and what stands behind it; past the end nothing changes.
pub fn put_send_fields(u: UnconnectedSend, m: u16, words: u8, out: &mut [u8])
    ensures { out.new ≡ sets (sets out.old 0 (laid (send_head u m))) (4 + m) (laid (send_rest m words)) }
{
    put_bytes(out, 0, &[u.priority_ticks, u.timeout_ticks]);
    put_u16(out, 2, m);
    put_rest(out, 4 + m as usize, m, words);
}

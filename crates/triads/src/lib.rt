// What names a connection: its serial number, and its originator's vendor and serial number. Beside it in rseip-cip: the same three fields in
// src/codec/encode.rs and src/codec/decode/message_reply.rs.
#![tactic(auto)]

ghost use Rattle.std.specs.Prelude.{◌≡◌};
ghost use Rattle.std.proofs.lemmas.List.Edits.{sets};
ghost use Rattle.wire.specs.Records.{laid};
ghost use Rattle.connection_words.specs.Requests.{triad};

use wire_write::{put_u16, put_u32};

// Stores the three from a place on; past the end nothing changes. They stay three arguments: the records name them in two ways, so that a struct of
// them would be filled at each call, field by field.
pub fn put_triad(out: &mut [u8], at: usize, serial: u16, vendor: u16, originator: u32)
    ensures { out.new ≡ sets out.old at (laid (triad serial vendor originator)) }
{
    if out.len() <= at {
        return;
    }
    put_u16(out, at, serial);
    put_u16(out, at + 2, vendor);
    put_u32(out, at + 4, originator);
}

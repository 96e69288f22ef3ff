// What stands before a Forward Close's path, for both writers. Beside it in rseip-cip: `ForwardCloseRequest` in src/codec/encode.rs.
#![tactic(auto)]

ghost use Rattle.std.specs.Prelude.{◌≡◌};
ghost use Rattle.std.proofs.lemmas.List.Edits.{sets};
ghost use Rattle.wire.specs.Records.{laid};
ghost use Rattle.connection_words.specs.Requests.{close_fields};

use connection::ForwardCloseRequest;
use triads::put_triad;
use wire_write::put_bytes;

// Stores the fields at the front, of a path of so many words; past the end nothing changes.
pub fn put_close_fields(c: ForwardCloseRequest, words: u8, out: &mut [u8])
    ensures { out.new ≡ sets out.old 0 (laid (close_fields c words)) }
{
    put_bytes(out, 0, &[c.priority_time_ticks, c.timeout_ticks]);
    put_triad(
        out,
        2,
        c.connection_serial_number,
        c.originator_vendor_id,
        c.originator_serial_number,
    );
    put_bytes(out, 10, &[words, 0]);
}

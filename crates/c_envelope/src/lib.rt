// The two-item envelope, for C: read. include/barkcushion.h says what it answers.
#![tactic(auto)]

ghost use Rattle.std.specs.Prelude.{◌≡◌};
ghost use Rattle.c_answers.specs.Codes.{code, run_answer, run_left};
ghost use Rattle.c_envelope.specs.Envelopes.{envelope_run};

use c_answers::{fill, refusal_answer};
use envelope::{EnvelopeRead, read_envelope};

// Reads the two-item envelope.
#[unsafe(no_mangle)]
pub extern "C" fn bark_read_envelope(s: &[u8], fields: &mut [usize]) -> usize
    ensures answer { result ≡ code (run_answer (envelope_run s.now) fields.old) }
    ensures numbers { fields.new ≡ run_left (envelope_run s.now) fields.old }
{
    match read_envelope(s) {
        Ok(EnvelopeRead::Unconnected(start, len)) => fill(fields, &[0, 0, start, len]),
        Ok(EnvelopeRead::Connected(count, start, len)) => {
            fill(fields, &[1, usize::from(count), start, len])
        }
        Err(e) => refusal_answer(e), // C interface: one number
    }
}

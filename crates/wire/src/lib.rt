// What knows no CIP: why something is refused. What can be refused answers `Result<_, Refusal>`. Bytes and low-byte-first numbers in lent slices are read by
// `wire_read` and stored by `wire_write`; their definitions and laws stand here, in specs/ and proofs/.
#![tactic(auto)]

ghost use Rattle.std.specs.Prelude.{◌≡◌};
ghost use Rattle.wire.specs.Refusals.{number};

// Why an input or a request is refused; document 01's numbers 1 to 11, in order.
#[derive(Clone, Copy, Debug, PartialEq, Eq)]
pub enum Refusal {
    Short = 1,
    Room,
    Limit,
    Code,
    Form,
    Words,
    Offset,
    Leftover,
    Depth,
    Envelope,
    Outside,
}

// Document 01's number of a refusal.
pub fn refusal_number(e: Refusal) -> u8
    ensures { result ≡ number e }
{
    e as u8
}

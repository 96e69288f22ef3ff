// What a status says. Beside it in rseip-cip: src/status.rs.
#![tactic(auto)]

ghost use Rattle.std.specs.Prelude.{◌≡◌};
ghost use Rattle.statuses.specs.Statuses.{is_ok, routing_word, is_routing_error};

#[derive(Clone, Copy)]
pub struct Status {
    pub general: u8,
    // one word, or none
    pub extended: Option<u16>,
}

// Whether the request was served.
pub fn is_ok(status: Status) -> bool
    ensures { result ≡ is_ok status }
{
    status.general == 0
}

// The words that, behind general status 1, tell of the way and not of the target.
fn is_routing_word(word: u16) -> bool
    ensures { result ≡ routing_word word }
{
    matches!(word, 0x0204 | 0x0311 | 0x0312 | 0x0315)
}

// Whether a Connection Manager's request failed on its way: its failure record then has the size of the path that was left.
pub fn is_routing_error(status: Status) -> bool
    ensures { result ≡ is_routing_error status }
{
    match status.general {
        1 => status.extended.is_some_and(is_routing_word),
        2 | 4 => true,
        _ => false,
    }
}

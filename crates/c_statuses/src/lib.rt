// Statuses, for C: one of numbers, and what it says. include/barkcushion.h says what each answers.
#![tactic(auto)]

ghost use Rattle.std.specs.Prelude.{◌≡◌};
ghost use Rattle.statuses.specs.Statuses.{is_routing_error};
ghost use Rattle.c_statuses.specs.Statuses.{status_of};

use statuses::{Status, is_routing_error};

// A status of numbers: general status, and an extended word if there is one, by a flag beside it, as the C interface has it.
pub fn status_of(general: u8, has_word: bool, word: u16) -> Status
    ensures { result ≡ status_of general has_word word }
{
    Status {
        general,
        extended: has_word.then_some(word),
    }
}

// Whether a status tells of a request that failed on its way.
#[unsafe(no_mangle)]
pub extern "C" fn bark_is_routing_error(general: u8, has_word: bool, word: u16) -> bool
    ensures { result ≡ is_routing_error (status_of general has_word word) }
{
    is_routing_error(status_of(general, has_word, word))
}

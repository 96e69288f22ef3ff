// The six numbers of a reply's header, as every function for C that reads a reply fills them.
#![tactic(auto)]

ghost use Rattle.std.specs.Prelude.{◌≡◌};
ghost use Rattle.c_reply_numbers.specs.Numbers.{reply_numbers};

use reply_header::MessageReply;

// Service, general status, words of extended status and that word or 0, start and length of the data.
pub fn reply_numbers(m: MessageReply) -> [usize; 6]
    ensures { result ≡ reply_numbers m }
{
    let extended = m.status.extended;
    [
        m.reply_service as usize,
        m.status.general as usize,
        extended.map_or(0, |_| 1),
        extended.map_or(0, |word| word as usize),
        m.data_start,
        m.data_len,
    ]
}

// Runs document 01's bench cards. A line for each: what is asked, document 01's answer, ours, and what the crate rseip-cip answered, which stands
// on standard input, recorded by oracle/, a line of hex for each card in this order. The marked cards are proved too, in the crate card_table.
#![tactic(auto)]

mod show; // show.rt: an answer as text
mod recorded; // recorded.rt: the cards' lines, with the crate's answers
mod paths; // paths.rt: the cards on paths
mod requests; // requests.rt: the cards on requests
mod replies; // replies.rt: the cards on replies and bodies
mod rest; // rest.rt: the functions that the program answers has no operation for

use recorded::Cards;
use std::fmt::Display;
use std::io::Read;

// Bytes of the crate's answers, and more.
const ROOM: usize = 65536;

// What an output holds before it is lent, so that what is not written shows.
const BLANK: u8 = 0xA5;

// Prints what it is given. What can't be written is passed over, and the status doesn't tell of it.
fn say<D: Display + Drop>(rt: &impl Print, what: D) {
    let _ = rt.print(what);
}

// Reads until room is full or the input ends; answers how many bytes that were. A read that fails ends the input.
// Each read but the last gives a byte at least, so there are no more reads than bytes.
fn read_full(input: &mut impl Read, room: &mut [u8]) -> usize {
    let mut done = 0;
    for _ in 0..room.len() {
        if room.len() <= done {
            break;
        }
        match input.read(&mut room[done..]) {
            Ok(0) | Err(_) => break,
            Ok(n) => done += n,
        }
    }
    done
}

fn main(rt: HostRuntime) {
    let mut room = [0; ROOM];
    let n = read_full(&mut rt.stdin(), &mut room);
    let mut cards = Cards::new(&rt, wire_read::part_of(&room, 0, n));
    paths::ports(&mut cards);
    paths::elements(&mut cards);
    paths::others(&mut cards);
    requests::defaults(&mut cards);
    requests::sizes(&mut cards);
    replies::headers(&mut cards);
    replies::bodies(&mut cards);
    cards.none_left();
    rest::functions(&rt);
    rest::refusals(&rt);
}

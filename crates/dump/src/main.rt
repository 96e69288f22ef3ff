// Reads one raw message from standard input and prints a line for each message in it, or only `refused N`.
#![tactic(auto)]

use std::io::Read;

// One byte more than a message may have is enough to see that it has too many.
const ROOM: usize = 65536;

// Reads until room is full or the input ends; answers how many bytes that were. A read that fails ends the input.
// Each read but the last gives a byte at least, so there are no more reads than bytes.
fn read_full(input: &mut impl Read, room: &mut [u8]) -> usize {
    let mut done = 0;
    for _ in 0..room.len() {
        if room.len() <= done {
            break;
        }
        match input.read(&mut room[done..]) {
            Ok(0) | Err(_) => break,
            Ok(n) => done += n,
        }
    }
    done
}

// MAX_TEXT is room for every text (theorem `dump_most`), so none is refused. The status doesn't tell of a text that can't be written.
fn dump(rt: &impl Print, message: &[u8]) {
    let mut text = [0; dump_text::MAX_TEXT];
    if let Ok(n) = dump_text::write_dump(message, &mut text) {
        let _ = rt.write_all(wire_read::part_of(&text, 0, n));
    }
}

fn main(rt: HostRuntime) {
    let mut room = [0; ROOM];
    let n = read_full(&mut rt.stdin(), &mut room);
    dump(&rt, wire_read::part_of(&room, 0, n));
}

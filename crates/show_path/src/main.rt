// Reads the raw bytes of a path from standard input and prints one line a segment, or only `refused N`.
#![tactic(auto)]

mod show; // show.rt: a segment as text

use show::Shown;
use std::fmt::Display;
use std::io::Read;

// Input past this can't change the answer: 127 segments take at most 32,766 bytes, and one more is 3.
const ROOM: usize = 65536;

// Prints a line. What can't be written is passed over, and the status doesn't tell of it.
fn say<D: Display + Drop>(rt: &impl Print, line: D) {
    let _ = rt.println(line);
}

// What the path s holds.
fn show_path(rt: &impl Print, s: &[u8]) {
    match epath::read_path(s) {
        Ok(path) => {
            for slot in path.slots.iter().take(path.count) {
                say(
                    rt,
                    Shown {
                        segment: slot.segment,
                        path: s,
                    },
                );
            }
        }
        Err(e) => say(rt, format_args!("refused {}", wire::refusal_number(e))),
    }
}

// Reads until room is full or the input ends; answers how many bytes that were. A read that fails ends the input.
// Each read but the last gives a byte at least, so there are no more reads than bytes.
fn read_full(input: &mut impl Read, room: &mut [u8]) -> usize {
    let mut done = 0;
    for _ in 0..room.len() {
        if room.len() <= done {
            break;
        }
        match input.read(&mut room[done..]) {
            Ok(0) | Err(_) => break,
            Ok(n) => done += n,
        }
    }
    done
}

fn main(rt: HostRuntime) {
    let mut room = [0; ROOM];
    let n = read_full(&mut rt.stdin(), &mut room);
    show_path(&rt, wire_read::part_of(&room, 0, n));
}

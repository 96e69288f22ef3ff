// Bodies of many items: for each number on a line of standard input a body of so many items is written, read, walked in one judgement, and joined
// again from its two halves. Its cost goes by the length (docs/DECISIONS.md, 70).
#![tactic(auto)]

mod make; // make.rt: the items, and their lengths
mod walk; // walk.rt: a walk over a body

use std::fmt::Display;
use std::io::Read;

// Items of the longest body that is asked for, and its bytes.
const MOST: usize = 20000;

const LONGEST: usize = 65535;

// Bytes of the input that are read.
const INPUT: usize = 4096;

// Prints what it is given. What can't be written is passed over, and the status doesn't tell of it.
fn say<D: Display + Drop>(rt: &impl Print, what: D) {
    let _ = rt.print(what);
}

// The body once, and a walk over it.
fn read(rt: &impl Print, s: &[u8], items: &[u8]) {
    let n = body::read_body(s).unwrap_or(0);
    let w = walk::walk(s, n, items);
    say(
        rt,
        format_args!(": read {n}, walked {} of {} bytes", w.items, w.bytes),
    );
    say(
        rt,
        format_args!(
            ", each as written in {}, replies read {}",
            w.same, w.replies
        ),
    );
}

// The two halves, joined, against the whole.
fn join(rt: &impl Print, whole: &[u8], first: &[u8], second: &[u8]) {
    let mut out = [0; LONGEST];
    let n = body::join_bodies(first, second, &mut out).unwrap_or(0);
    let is_same = wire_read::part_of(&out, 0, n) == whole;
    let word = if is_same { "the same" } else { "another" };
    say(rt, format_args!(", joined {n}: {word}\n"));
}

// The body of these items, at the front of out; nothing where it is refused.
fn body_of<'a>(items: &[u8], lengths: &[usize], out: &'a mut [u8]) -> &'a [u8] {
    let n = body::write_body(items, lengths, &mut *out).unwrap_or(0);
    wire_read::part_of(out, 0, n)
}

// A body of items of these lengths, and the same from its two halves.
fn try_body(rt: &impl Print, items: &[u8], lengths: &[usize]) {
    let mut whole = [0; LONGEST];
    let mut first = [0; LONGEST];
    let mut second = [0; LONGEST];
    let half = lengths.len() / 2;
    let (front, back) = lengths.split_at(half);
    let s = body_of(items, lengths, &mut whole);
    let a = body_of(items, front, &mut first);
    // every item of the front half has one byte
    let b = body_of(
        wire_read::part_of(items, half, items.len()),
        back,
        &mut second,
    );
    say(rt, format_args!(", bytes {}", s.len()));
    read(rt, s, items);
    join(rt, s, a, b);
}

// Room for the items of a body, and for their lengths.
#[derive(Drop)]
struct Room<'a> {
    items: &'a mut [u8],
    lengths: &'a mut [usize],
}

impl Room<'_> {
    // A body of n items that takes as large a part of the longest as n is of the most. Of no items, or of more than there is room for, there is none.
    fn run(&mut self, rt: &impl Print, n: usize) {
        let total = make::share(n);
        let Some(items) = self.items.get_mut(..total) else {
            return;
        };
        let Some(lengths) = self.lengths.get_mut(..n) else {
            return;
        };
        if n == 0 {
            return;
        }
        say(rt, format_args!("items {n}"));
        make::items(items, n - 1);
        make::lengths(lengths, total);
        try_body(rt, items, lengths);
    }

    // Digits make a number, and anything else ends it.
    fn numbers(&mut self, rt: &impl Print, text: &[u8]) {
        let mut n = 0;
        for b in text {
            if b.is_ascii_digit() {
                n = n % 100000 * 10 + usize::from(*b % 48);
            } else {
                self.run(rt, n);
                n = 0;
            }
        }
    }
}

// Reads until room is full or the input ends; answers how many bytes that were. A read that fails ends the input.
// Each read but the last gives a byte at least, so there are no more reads than bytes.
fn read_full(input: &mut impl Read, room: &mut [u8]) -> usize {
    let mut done = 0;
    for _ in 0..room.len() {
        if room.len() <= done {
            break;
        }
        match input.read(&mut room[done..]) {
            Ok(0) | Err(_) => break,
            Ok(n) => done += n,
        }
    }
    done
}

fn main(rt: HostRuntime) {
    let mut text = [0; INPUT];
    let n = read_full(&mut rt.stdin(), &mut text);
    let mut room = Room {
        items: &mut [0; LONGEST],
        lengths: &mut [0; MOST],
    };
    room.numbers(&rt, wire_read::part_of(&text, 0, n));
}

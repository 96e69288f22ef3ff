// Nested reading at its limits: the longest packet with the most messages that fit, one byte more, and lent rows and lent text of every kind of room.
#![tactic(auto)]

mod rows; // rows.rt: a run of numbers, counted

use rows::Row;
use std::fmt::Display;
use wire::Refusal;

const LONGEST: usize = 65535;

// Items of two bytes, with an offset of two each, behind six bytes of message and a count of two.
const MOST_ITEMS: usize = 16381;

// What lent numbers and lent text hold before, so that what is not stored shows.
const BLANK: u16 = 0xA5A5;

const BLANK_BYTE: u8 = 0xA5;

// Document 01's example.
const EXAMPLE: [u8; 28] = [
    0x0A, 2, 0x20, 2, 0x24, 1, 2, 0, 6, 0, 14, 0, 14, 3, 0x20, 1, 0x24, 1, 0x30, 7, 14, 3, 0x20, 1,
    0x24, 1, 0x30, 6,
];

// A packet of the most items over zeros, each `0E 00`: service 0E to no path, with no data; what is lent past them is the last one's data.
fn put_packet(out: &mut [u8]) {
    wire_write::put_bytes(out, 0, &[0x0A, 2, 0x20, 2, 0x24, 1]);
    wire_write::put_u16(out, 6, MOST_ITEMS as u16);
    for i in 0..MOST_ITEMS {
        let start = 2 + 2 * MOST_ITEMS + 2 * i;
        wire_write::put_u16(out, 8 + 2 * i, (start % 65536) as u16);
        wire_write::put_byte(out, 6 + start, 0x0E);
    }
}

// Prints what it is given. What can't be written is passed over, and the status doesn't tell of it.
fn say<D: Display + Drop>(rt: &impl Print, what: D) {
    let _ = rt.print(what);
}

// What was answered, with a word for an answer that is no refusal.
fn tell(rt: &impl Print, word: &str, answer: Result<usize, Refusal>) {
    match answer {
        Ok(n) => say(rt, format_args!("{word} {n}")),
        Err(e) => say(rt, format_args!("refused {}", wire::refusal_number(e))),
    }
}

// Reads s with so much room for its rows.
fn read(rt: &impl Print, s: &[u8], run: &mut [u16], room: usize) {
    run.fill(BLANK);
    say(
        rt,
        format_args!("of {} bytes, room for {room} numbers: ", s.len()),
    );
    if let Some(lent) = run.get_mut(..room) {
        tell(rt, "messages", nested::read_nested(s, lent));
    }
    let blanks = run.iter().filter(|n| **n == BLANK).count();
    let small = rows::small(run);
    say(
        rt,
        format_args!(", as they stood {blanks} of {}", run.len()),
    );
    say(
        rt,
        format_args!(
            ", rows 1 0E 0 0: {small}, the first row {}\n",
            Row::at(run, 0)
        ),
    );
}

// The same of its text.
fn write(rt: &impl Print, s: &[u8], text: &mut [u8], room: usize) {
    text.fill(BLANK_BYTE);
    say(
        rt,
        format_args!("of {} bytes, room for {room} bytes of text: ", s.len()),
    );
    if let Some(lent) = text.get_mut(..room) {
        tell(rt, "bytes", dump_text::write_dump(s, lent));
    }
    let blanks = text.iter().filter(|b| **b == BLANK_BYTE).count();
    say(
        rt,
        format_args!(", as they stood {blanks} of {}\n", text.len()),
    );
}

// The example, with room for fewer numbers and for less text than it has, for as many, and for more.
fn few(rt: &impl Print, run: &mut [u16], text: &mut [u8]) {
    for room in [0, 11, 12, 13] {
        read(rt, &EXAMPLE, run, room);
    }
    for room in [0, 27, 28, 29] {
        write(rt, &EXAMPLE, text, room);
    }
}

// The longest packet, and one byte more.
fn longest(rt: &impl Print, run: &mut [u16], text: &mut [u8]) {
    let mut s = [0; LONGEST + 1];
    put_packet(&mut s);
    let n = s.get(..LONGEST).unwrap_or_default();
    read(rt, n, run, 65527);
    read(rt, n, run, 65528);
    say(rt, format_args!("its last row {}\n", Row::at(run, 65524)));
    write(rt, n, text, 147441);
    write(rt, n, text, 147442);
    read(rt, &s, run, 65536);
    write(rt, &s, text, 10);
}

fn main(rt: HostRuntime) {
    let mut run = [0; 65536];
    let mut text = [0; 200000];
    few(&rt, &mut run, &mut text);
    longest(&rt, &mut run, &mut text);
}

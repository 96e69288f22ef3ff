// Streams of frames, given to `take_scrap` in cuts of many sizes over one buffer: every cut gives the same frames, each with the call that brings its
// last byte; and a frame that is too long for the buffer, which is refused until a reset.
#![tactic(auto)]

mod make; // make.rt: the stream
mod run; // run.rt: a driver, which holds the state

use run::Driver;
use std::fmt::Display;

// Frames of the stream, of which the first bytes of one more are the end; and its bytes.
const FRAMES: usize = 100;

const BYTES: usize = 89305;

// Its first four frames, and ten bytes of the fifth.
const FEW: usize = 392;

// Where the third frame begins, which has 54 bytes; the fourth has 279.
const THIRD_AT: usize = 49;

const THIRD: usize = 54;

// Room for the third and not for the fourth.
const ROOM: usize = 100;

// Prints what it is given. What can't be written is passed over, and the status doesn't tell of it.
fn say<D: Display + Drop>(rt: &impl Print, what: D) {
    let _ = rt.print(what);
}

// Each frame of a short stream, on a line of its own; then what became of all.
fn aloud(rt: &impl Print, driver: &mut Driver<'_>, stream: &[u8], cut: usize) {
    say(
        rt,
        format_args!("{} bytes in cuts of {cut}\n", stream.len()),
    );
    let run = driver.drive(rt, stream, cut, true);
    say(rt, format_args!("  {run}\n"));
}

// All frames of a long stream, on one line.
fn all_at_once(rt: &impl Print, driver: &mut Driver<'_>, stream: &[u8], cut: usize) {
    driver.reset();
    let run = driver.drive(rt, stream, cut, false);
    say(
        rt,
        format_args!(
            "{} bytes in cuts of {cut}: {run}, sum {}\n",
            stream.len(),
            run.sum
        ),
    );
}

fn all_cuts(rt: &impl Print, driver: &mut Driver<'_>, stream: &[u8]) {
    let few = wire_read::part_of(stream, 0, FEW);
    for cut in [1, 2, 3, 7, 24, 25, 97, FEW] {
        driver.reset();
        aloud(rt, driver, few, cut);
    }
    for cut in [1, 2, 3, 7, 24, 25, 97, 1009, 65535, BYTES] {
        all_at_once(rt, driver, stream, cut);
    }
}

// The third frame fits and the fourth does not; then the third again, with a state that was refused, and after a reset.
fn too_long(rt: &impl Print, driver: &mut Driver<'_>, stream: &[u8]) {
    say(rt, format_args!("room for {} bytes\n", driver.buffer.len()));
    let third = wire_read::part_of(stream, THIRD_AT, THIRD);
    driver.reset();
    aloud(rt, driver, wire_read::part_of(stream, THIRD_AT, 100), 10);
    aloud(rt, driver, third, 27);
    say(rt, "reset\n");
    driver.reset();
    aloud(rt, driver, third, 27);
}

fn main(rt: HostRuntime) {
    let mut stream = [0; BYTES];
    let mut buffer = [0; frames::MAX_FRAME];
    let mut short = [0; ROOM];
    make::stream(&mut stream);
    all_cuts(&rt, &mut Driver::new(&mut buffer), &stream);
    too_long(&rt, &mut Driver::new(&mut short), &stream);
}

// A driver: it holds the state, lends it with the buffer at each call, and gives what a frame left of a scrap again.
use crate::say;
use frames::{Frame, FrameState};
use std::fmt;
use wire::Refusal;

const PRIME: usize = 1000003;

// How much of a stream was taken, and how much given; the frames, their bytes, a sum over them; the calls; and what is held in the end.
#[derive(Clone, Copy, Default)]
pub struct Run {
    pub at: usize,
    pub given: usize,
    pub frames: usize,
    pub bytes: usize,
    pub sum: usize,
    pub calls: usize,
    pub held: usize,
}

impl fmt::Display for Run {
    fn fmt<W: fmt::Write>(&self, f: &mut fmt::Formatter<W>) -> fmt::Result {
        write!(
            f,
            "frames {} of {} bytes, calls {}",
            self.frames, self.bytes, self.calls
        )?;
        write!(f, ", held {}", self.held)
    }
}

fn mix(sum: usize, n: usize) -> usize {
    (sum % PRIME * 31 + n % PRIME) % PRIME
}

fn sum_of(s: &[u8], from: usize) -> usize {
    s.iter().fold(from, |sum, b| mix(sum, usize::from(*b)))
}

// No place and no count comes near its type's end; the sums wrap so that nothing has to be shown of it.
impl Run {
    // Where the cut ends that the next byte stands in.
    fn cut_end(&self, cut: usize, end: usize) -> usize {
        if self.at < self.given {
            return self.given;
        }
        self.at.saturating_add(cut).min(end)
    }

    // A frame that lies at the front of the buffer: what it left of the scrap is given again.
    fn framed(&mut self, f: Frame, frame: &[u8]) {
        self.at = self.at.wrapping_add(f.taken);
        self.frames = self.frames.wrapping_add(1);
        self.bytes = self.bytes.wrapping_add(f.length);
        self.sum = sum_of(frame, mix(self.sum, f.length));
    }

    fn tell_frame(&self, rt: &impl Print, f: Frame, frame: &[u8]) {
        let sum = sum_of(frame, 0);
        say(
            rt,
            format_args!("  a frame of {} bytes, sum {sum}", f.length),
        );
        say(
            rt,
            format_args!(
                ": ends at {}, out when {} were given",
                self.bytes, self.given
            ),
        );
        say(rt, format_args!(", {} taken\n", self.at));
    }

    fn tell_refusal(&self, rt: &impl Print, e: Refusal) {
        let number = wire::refusal_number(e);
        say(
            rt,
            format_args!("  refused {number} when {} were given", self.given),
        );
        say(rt, format_args!(", held {}\n", self.held));
    }
}

#[derive(Drop)]
pub struct Driver<'a> {
    pub buffer: &'a mut [u8],
    state: FrameState,
}

impl<'a> Driver<'a> {
    pub(crate) fn new(buffer: &'a mut [u8]) -> Driver<'a> {
        let state = frames::reset_state();
        Driver { buffer, state }
    }

    pub(crate) fn reset(&mut self) {
        frames::reset(&mut self.state);
    }

    // One call. A scrap that is refused is passed over. Aloud only prints: a closure that prints or does not is no plainer than the flag.
    fn turn(&mut self, rt: &impl Print, run: &mut Run, scrap: &[u8], aloud: bool) {
        let took = frames::take_scrap(&mut self.state, self.buffer, scrap);
        run.calls = run.calls.wrapping_add(1);
        run.held = self.state.held;
        match took {
            Ok(Some(f)) => {
                let frame = wire_read::part_of(self.buffer, 0, f.length);
                run.framed(f, frame);
                if aloud {
                    run.tell_frame(rt, f, frame);
                }
            }
            Ok(None) => run.at = run.given,
            Err(e) => {
                run.at = run.given;
                if aloud {
                    run.tell_refusal(rt, e);
                }
            }
        }
    }

    // Each call takes a byte at least, or passes its scrap over: so there are no more calls than bytes.
    pub(crate) fn drive(&mut self, rt: &impl Print, stream: &[u8], cut: usize, aloud: bool) -> Run {
        let mut run = Run::default();
        for _ in 0..stream.len() {
            run.given = run.cut_end(cut, stream.len());
            let scrap = wire_read::part_of(stream, run.at, run.given.saturating_sub(run.at));
            if scrap.is_empty() {
                break;
            }
            self.turn(rt, &mut run, scrap, aloud);
        }
        run
    }
}

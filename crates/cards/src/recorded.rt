// The cards' lines. The crate's answers come from oracle/: a line of hex each; a line that is none where the crate gave an error or has no such
// function.
use crate::say;
use crate::show::Said;
use lines::Case;

const NEWLINE: u8 = 10;

// No line has more bytes: a link of 255 with what stands around it.
const MOST: usize = 300;

// The recorded answers that are left.
#[derive(Clone, Copy)]
pub struct Cards<'a> {
    rt: &'a HostRuntime,
    recorded: &'a [u8],
}

impl<'a> Cards<'a> {
    pub(crate) fn new(rt: &'a HostRuntime, recorded: &'a [u8]) -> Cards<'a> {
        Cards { rt, recorded }
    }

    // The next recorded answer; its bytes go to the front of out.
    fn next(&mut self, out: &mut [u8]) -> Case {
        let mut rest = self.recorded.splitn(2, |b| *b == NEWLINE);
        let text = rest.next().unwrap_or_default();
        self.recorded = rest.next().unwrap_or_default();
        let mut line = lines::blank_line();
        for b in text {
            line = line_chars::take_char(line, *b, out);
        }
        lines::line_case(line)
    }

    // A card's line: its name, document 01's answer, our own, and what the crate answered.
    pub(crate) fn card(&mut self, name: &str, want: Said<'_>, ours: Said<'_>) {
        say(self.rt, format_args!("{name}:{want}; we:"));
        if ours == want {
            say(self.rt, " the same; the crate:");
        } else {
            say(self.rt, format_args!("{ours}; the crate:"));
        }
        let mut out = [0; MOST];
        match self.next(&mut out) {
            Case::Nothing => say(self.rt, " NOT RECORDED\n"),
            Case::Bad => say(self.rt, " none\n"),
            Case::Bytes(n) => {
                let theirs = Said::Bytes(wire_read::part_of(&out, 0, n));
                if theirs == want {
                    say(self.rt, " the same\n");
                } else {
                    say(self.rt, format_args!("{theirs}\n"));
                }
            }
        }
    }

    // Each recorded answer belongs to a card.
    pub(crate) fn none_left(&mut self) {
        match self.next(&mut [0; MOST]) {
            Case::Nothing => {}
            Case::Bytes(_) | Case::Bad => say(self.rt, "RECORDED ANSWERS LEFT OVER\n"),
        }
    }
}

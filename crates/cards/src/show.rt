// An answer as text.
use hex_digits::hex_digit;
use std::fmt;
use wire::Refusal;

// Of a longer run of bytes only both ends are shown.
const LINE: usize = 48;

// What was answered: bytes, or document 01's refusal number.
#[derive(Clone, Copy, PartialEq, Eq)]
pub enum Said<'a> {
    Bytes(&'a [u8]),
    Refused(u8),
}

impl<'a> Said<'a> {
    pub(crate) fn refused(e: Refusal) -> Said<'a> {
        Said::Refused(wire::refusal_number(e))
    }

    // A writer's answer, whose bytes lie at the front of out.
    pub(crate) fn wrote(w: Result<usize, Refusal>, out: &'a [u8]) -> Said<'a> {
        match w {
            Ok(n) => Said::Bytes(wire_read::part_of(out, 0, n)),
            Err(e) => Said::refused(e),
        }
    }
}

// Of a long run its length, the first four and the last two.
impl fmt::Display for Said<'_> {
    fn fmt<W: fmt::Write>(&self, f: &mut fmt::Formatter<W>) -> fmt::Result {
        match *self {
            Said::Refused(n) => write!(f, " refused {n}"),
            Said::Bytes(s) if s.len() <= LINE => write!(f, "{}", Hex(s)),
            Said::Bytes(s) => {
                let n = s.len();
                let first = Hex(wire_read::part_of(s, 0, 4));
                let last = Hex(wire_read::part_of(s, n.saturating_sub(2), 2));
                write!(f, " {n} bytes{first} ..{last}")
            }
        }
    }
}

// Bytes in hex, each with a space before it.
#[derive(Clone, Copy)]
struct Hex<'a>(&'a [u8]);

impl fmt::Display for Hex<'_> {
    fn fmt<W: fmt::Write>(&self, f: &mut fmt::Formatter<W>) -> fmt::Result {
        for b in self.0 {
            f.write_char(' ')?;
            f.write_char(char::from(hex_digit(*b / 16)))?;
            f.write_char(char::from(hex_digit(*b)))?;
        }
        Ok(())
    }
}

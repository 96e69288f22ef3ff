// A line of hex digits: before its first character, and what it is when it has ended. line_chars takes the characters.
// Each function takes every argument.
#![tactic(auto)]

ghost use Rattle.std.specs.Prelude.{◌≡◌};
ghost use Rattle.lines.specs.Lines.{start, case_of, case_line};

// Digits of a line; its twin is in specs/Lines.antt.
pub const MAX_DIGITS: usize = 600000;

// A line so far: how many digits, and the value of the last one; how many before a comment; or no case, whatever follows.
#[derive(Clone, Copy)]
pub enum Line {
    Digits(usize, u8),
    Comment(usize),
    Bad,
}

// A whole line: nothing on it, so many bytes, or no case. (No `Result<Option<usize>, ..>`: each of the three is an answer, which no `?` hands on.)
#[derive(Clone, Copy)]
pub enum Case {
    Nothing,
    Bytes(usize),
    Bad,
}

// A line before its first character.
pub fn blank_line() -> Line
    ensures { result ≡ start }
{
    Line::Digits(0, 0)
}

#[tactic(auto, using(crate::proofs::LineLaws::case_laws))]
fn case_of(n: usize) -> Case
    ensures { result ≡ case_of n }
{
    match n {
        0 => Case::Nothing,
        n if n % 2 == 0 => Case::Bytes(n / 2),
        _ => Case::Bad,
    }
}

// What a line is, once its last character was taken.
pub fn line_case(l: Line) -> Case
    ensures { result ≡ case_line l }
{
    match l {
        Line::Digits(n, _) | Line::Comment(n) => case_of(n),
        Line::Bad => Case::Bad,
    }
}

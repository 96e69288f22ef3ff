// A line of hex digits, taken a character at a time into lent bytes, so that a line may come in pieces and hold any run of blanks.
#![tactic(auto)]

ghost use Rattle.std.specs.Prelude.{◌≡◌};
ghost use Rattle.lines.specs.Lines.{digit_of, byte_of, next, kept, next_digit, kept_digit, next_char, kept_char};

use lines::{Line, MAX_DIGITS};

// The value of a hex digit in either case.
#[tactic(auto, using(lines::proofs::LineLaws::value_laws))]
fn digit_value(b: u8) -> Option<u8>
    ensures { result ≡ digit_of b }
{
    match b {
        b'0'..=b'9' => Some(b - b'0'),
        b'A'..=b'F' => Some(b - b'A' + 10),
        b'a'..=b'f' => Some(b - b'a' + 10),
        _ => None,
    }
}

// The byte of two digits.
fn byte_of(high: u8, low: u8) -> u8
    ensures { result ≡ byte_of high low }
{
    16 * (high % 16) + low % 16
}

// A digit: every second one makes a byte with the one before it.
#[tactic(auto, using(lines::proofs::LineLaws::take_laws))]
fn take_digit(n: usize, high: u8, v: u8, out: &mut [u8]) -> Line
    ensures value { result ≡ next_digit n v }
    ensures out_after { out.new ≡ kept_digit n high v out.old }
{
    if MAX_DIGITS <= n {
        return Line::Bad;
    }
    if n % 2 != 0 {
        wire_write::put_byte(out, n / 2, byte_of(high, v));
    }
    Line::Digits(n + 1, v)
}

// A character of a line that still takes digits.
#[tactic(auto, using(lines::proofs::LineLaws::char_laws))]
fn take_one(n: usize, high: u8, b: u8, out: &mut [u8]) -> Line
    ensures value { result ≡ next_char n high b }
    ensures out_after { out.new ≡ kept_char n high b out.old }
{
    match b {
        b' ' | b'\t' => Line::Digits(n, high),
        b'#' => Line::Comment(n),
        _ => match digit_value(b) {
            Some(v) => take_digit(n, high, v, out),
            None => Line::Bad,
        },
    }
}

// The line with one more character, which is no newline; the byte that it completes goes to its place in out.
pub fn take_char(l: Line, b: u8, out: &mut [u8]) -> Line
    ensures value { result ≡ next l b }
    ensures out_after { out.new ≡ kept l b out.old }
{
    match l {
        Line::Digits(n, high) => take_one(n, high, b, out),
        Line::Comment(_) | Line::Bad => l,
    }
}

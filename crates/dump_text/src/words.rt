// Numbers as text, into lent bytes: not by Display, since no heap is used and the clauses name each byte. Each function stores from a place on, and
// answers the place behind what it stored; what lies past the end is not stored. A place has a bound so that what follows it does not wrap: a type
// of such places would be longer than the three clauses.
ghost use Rattle.std.specs.Prelude.{◌≤◌};
ghost use Rattle.wire.specs.Answers.{PutAt};
ghost use Rattle.dump_text.specs.Text.{decimal, word, hex_word, roomy};

use wire_write::put_byte;

pub const BLANK: u8 = 32;

pub const NEWLINE: u8 = 10;

const ZERO: u8 = 48;

// The decimal digits of a number, the highest first.
fn put_decimal(out: &mut [u8], at: usize, v: u16) -> usize
    requires { at ≤ roomy }
    ensures { PutAt at (decimal v) out.old result out.new }
{
    if v < 10 {
        put_byte(out, at, ZERO + v as u8);
        return at + 1;
    }
    let last = put_decimal(out, at, v / 10);
    put_byte(out, last, ZERO + (v % 10) as u8);
    last + 1
}

// A number, and a character behind it.
#[tactic(auto, using(crate::proofs::WordLaws::word_laws))]
pub(crate) fn put_word(out: &mut [u8], at: usize, v: u16, end: u8) -> usize
    requires { at ≤ roomy }
    ensures { PutAt at (word v end) out.old result out.new }
{
    let last = put_decimal(out, at, v);
    put_byte(out, last, end);
    last + 1
}

// A byte in two hex digits, and a blank behind it.
#[tactic(auto, using(crate::proofs::WordLaws::hex_placed))]
pub(crate) fn put_hex(out: &mut [u8], at: usize, v: u16) -> usize
    requires { at ≤ roomy }
    ensures { PutAt at (hex_word v) out.old result out.new }
{
    put_byte(out, at, hex_digits::hex_digit((v / 16 % 16) as u8));
    put_byte(out, at + 1, hex_digits::hex_digit((v % 16) as u8));
    put_byte(out, at + 2, BLANK);
    at + 3
}

// A hex digit of a value. It takes every argument.
#![tactic(auto)]

ghost use Rattle.std.specs.Prelude.{◌≡◌};
ghost use Rattle.hex_digits.specs.Hex.{hex_digit};

// The hex digit of a value's low four bits, with capital letters.
#[tactic(auto, using(crate::proofs::HexLaws::digit_laws))]
pub fn hex_digit(v: u8) -> u8
    ensures { result ≡ hex_digit v }
{
    match v % 16 {
        low @ 0..=9 => b'0' + low,
        low => b'A' + (low - 10),
    }
}

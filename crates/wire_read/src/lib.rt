// Bytes and low-byte-first numbers in lent slices, read. Each function takes every argument: what lies past the end of a slice reads as 0.
#![tactic(auto)]

ghost use Rattle.std.specs.Prelude.{◌≡◌, get_or, drop};
ghost use Rattle.wire.specs.Numbers.{value_of};
ghost use Rattle.wire.specs.Parts.{part};

// The byte at a place.
pub fn byte_at(s: &[u8], at: usize) -> u8
    ensures { result ≡ get_or s.now at 0 }
{
    s.get(at).copied().unwrap_or(0)
}

// The 16-bit number at a place, low byte first.
#[tactic(auto, using(wire::proofs::Numbers::number_laws))]
pub fn u16_at(s: &[u8], at: usize) -> u16
    ensures { result ≡ value_of 2 (drop at s.now) }
{
    if s.len() <= at {
        return 0;
    }
    u16::from_le_bytes([byte_at(s, at), byte_at(s, at + 1)])
}

// The 32-bit number at a place, low byte first. (Not one generic with the above: std has no trait of `from_le_bytes`, and each is one expression.)
#[tactic(auto, using(wire::proofs::Numbers::number_laws))]
pub fn u32_at(s: &[u8], at: usize) -> u32
    ensures { result ≡ value_of 4 (drop at s.now) }
{
    if s.len() <= at {
        return 0;
    }
    u32::from_le_bytes([
        byte_at(s, at),
        byte_at(s, at + 1),
        byte_at(s, at + 2),
        byte_at(s, at + 3),
    ])
}

// The part of a slice from a start on, so many bytes of it as there are.
pub fn part_of<'a>(s: &'a [u8], start: usize, len: usize) -> &'a [u8]
    ensures { result.now ≡ part s.now start len }
{
    let from = start.min(s.len());
    let to = from + len.min(s.len() - from);
    &s[from..to]
}

// Bytes and low-byte-first numbers in lent slices, stored. Each public function takes every argument: a store past the end changes nothing.
#![tactic(auto)]

ghost use Rattle.std.specs.Prelude.{◌≡◌, ◌+◌, ◌≤◌, length, set, take};
ghost use Rattle.std.proofs.lemmas.List.Edits.{sets};
ghost use Rattle.wire.specs.Numbers.{low_first};

// Stores a byte.
pub fn put_byte(out: &mut [u8], at: usize, b: u8)
    ensures { out.new ≡ set out.old at b }
{
    // not by get_mut: std says nothing of what a slice holds after it
    if at < out.len() {
        out[at] = b;
    }
}

// Stores a 16-bit number, low byte first.
#[tactic(auto, using(crate::proofs::Runs::low_laws))]
pub fn put_u16(out: &mut [u8], at: usize, v: u16)
    ensures { out.new ≡ sets out.old at (low_first 2 v) }
{
    let two = v.to_le_bytes();
    put_bytes(out, at, &two);
}

// Stores a 32-bit number, low byte first. (Not one generic with the above: std has no trait of `to_le_bytes`; the store is one, put_bytes.)
#[tactic(auto, using(crate::proofs::Runs::low_laws))]
pub fn put_u32(out: &mut [u8], at: usize, v: u32)
    ensures { out.new ≡ sets out.old at (low_first 4 v) }
{
    let four = v.to_le_bytes();
    put_bytes(out, at, &four);
}

// Stores the first n bytes of src from a place on. Not by copy_from_slice: where n is not known the archives would want memmove from outside.
#[tactic(auto, using(wire::proofs::Stores::copy_laws))]
fn copy(out: &mut [u8], at: usize, src: &[u8], n: usize)
    requires { (n ≤ length src.now) × (at + n ≤ length out.old) }
    ensures { out.new ≡ sets out.old at (take n src.now) }
{
    for i in 0..n {
        out[at + i] = src[i];
    }
}

// Stores a run of bytes from a place on.
#[tactic(auto, using(wire::proofs::Stores::run_laws))]
pub fn put_bytes(out: &mut [u8], at: usize, src: &[u8])
    ensures { out.new ≡ sets out.old at src.now }
{
    if out.len() <= at {
        return;
    }
    let room = out.len() - at;
    let n = src.len();
    if n <= room {
        copy(out, at, src, n);
        return;
    }
    copy(out, at, src, room);
}

// The stream: frames end to end, whose bytes tell where they stand.

// The frame that has the most data.
const LONG: usize = 50;

// Bytes of data of frame k.
fn data_of(k: usize) -> usize {
    match k % 6 {
        _ if k == LONG => frames::MAX_DATA,
        0 => 0,
        1 => 1,
        2 => 30,
        3 => 255,
        4 => 256,
        _ => 777,
    }
}

// No place comes near its type's end; the sums wrap so that nothing has to be shown of it.
pub(crate) fn stream(out: &mut [u8]) {
    for (i, b) in out.iter_mut().enumerate() {
        *b = (i % 251) as u8;
    }
    let mut at = 0usize;
    for k in 0..=crate::FRAMES {
        let n = data_of(k);
        wire_write::put_u16(out, at, 0x6F);
        wire_write::put_u16(out, at.wrapping_add(frames::LENGTH_AT), (n % 65536) as u16);
        at = at.wrapping_add(frames::HEADER).wrapping_add(n);
    }
}

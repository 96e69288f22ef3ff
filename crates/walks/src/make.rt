// The items, and their lengths.

// Bytes that tell where they stand; those of the last item are zero, so that it is a reply where it is long enough.
pub(crate) fn items(out: &mut [u8], last: usize) {
    for (i, b) in out.iter_mut().enumerate() {
        *b = if i < last { (i % 251) as u8 } else { 0 };
    }
}

// As large a part of the longest body as n is of the most items.
pub(crate) fn share(n: usize) -> usize {
    n % 100000 * crate::LONGEST / crate::MOST
}

// The lengths of the items of a body: the last brings it to a total, where that leaves it any; the others have a byte each.
pub(crate) fn lengths(lengths: &mut [usize], total: usize) {
    let others = lengths.len().saturating_mul(3).saturating_add(1);
    lengths.fill(1);
    if let Some(last) = lengths.last_mut() {
        *last = total.saturating_sub(others).max(1);
    }
}

// A walk over a body: the count was read once, and each item is asked for by its index.

// Items, their bytes, those that begin as they were written, and those that hold a reply.
#[derive(Clone, Copy, Default)]
pub struct Walked {
    pub items: usize,
    pub bytes: usize,
    pub same: usize,
    pub replies: usize,
}

// No sum comes near its type's end; the sums wrap so that nothing has to be shown of it.
pub(crate) fn walk(s: &[u8], n: usize, items: &[u8]) -> Walked {
    let mut w = Walked::default();
    for k in 0..n {
        let Ok(item) = body::walk_item(s, n, k) else {
            continue;
        };
        // the items were lent end to end
        let is_same = s.get(item.start) == items.get(w.bytes);
        let is_reply = body::walk_reply(s, n, k).is_ok();
        w.items = w.items.wrapping_add(1);
        w.bytes = w.bytes.wrapping_add(item.len);
        w.same = w.same.wrapping_add(usize::from(is_same));
        w.replies = w.replies.wrapping_add(usize::from(is_reply));
    }
    w
}

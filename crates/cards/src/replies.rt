// The cards on replies and bodies.
use crate::BLANK;
use crate::recorded::Cards;
use crate::show::Said;

// A reply's extended status, low byte first.
fn header(cards: &mut Cards<'_>, name: &str, s: &[u8], want: Said<'_>) {
    match reply::read_reply_header(s) {
        Err(e) => cards.card(name, want, Said::refused(e)),
        Ok(m) => match m.status.extended {
            None => cards.card(name, want, Said::Bytes(b"")),
            Some(word) => cards.card(name, want, Said::Bytes(&word.to_le_bytes())),
        },
    }
}

pub(crate) fn headers(cards: &mut Cards<'_>) {
    let s = b"\x8E\x00\x08\x01\x03\x00";
    let want = Said::Bytes(b"\x03\x00");
    header(cards, "* reply 8E 00 08 01 03 00, extended", s, want);
    header(cards, "* without its last byte", &s[..5], Said::Refused(1));
}

// The data of a body's reply.
fn item(cards: &mut Cards<'_>, name: &str, s: &[u8], index: usize, want: Said<'_>) {
    let ours = match body::reply_item(s, index) {
        Ok(m) => Said::Bytes(wire_read::part_of(s, m.data_start, m.data_len)),
        Err(e) => Said::refused(e),
    };
    cards.card(name, want, ours);
}

pub(crate) fn bodies(cards: &mut Cards<'_>) {
    let two =
        b"\x02\x00\x06\x00\x0E\x00\x8E\x00\x01\x02\x00\x00\x00\x00\x8E\x00\x00\x00\x00\x00\x48\x42";
    let want = Said::Bytes(b"\x00\x00\x48\x42");
    item(
        cards,
        "body with a two-word item, item 0",
        two,
        0,
        Said::Refused(6),
    );
    item(cards, "the same body, data of item 1", two, 1, want);
    let mut out = [BLANK; 32];
    let w = body::join_bodies(
        b"\x01\x00\x04\x00\xAA",
        b"\x01\x00\x04\x00\xBB\xCC",
        &mut out,
    );
    let want = Said::Bytes(b"\x02\x00\x06\x00\x07\x00\xAA\xBB\xCC");
    let name = "* join of 01 00 04 00 AA and 01 00 04 00 BB CC";
    cards.card(name, want, Said::wrote(w, &out));
}

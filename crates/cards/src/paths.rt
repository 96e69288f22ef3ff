// The cards on paths.
use crate::BLANK;
use crate::recorded::Cards;
use crate::show::Said;
use epath::{PortSegment, Segment, SymbolSegment};

// A segment, written.
fn write(cards: &mut Cards<'_>, name: &str, x: Segment, pool: &[u8], want: Said<'_>) {
    let mut out = [BLANK; 300];
    let w = epath::write_segment(x, pool, &mut out);
    cards.card(name, want, Said::wrote(w, &out));
}

// A port whose link is the whole pool.
fn port(cards: &mut Cards<'_>, name: &str, port: u16, link: &[u8], want: Said<'_>) {
    let len = (link.len() % 65536) as u32;
    let x = Segment::Port(PortSegment {
        port,
        start: 0,
        len,
    });
    write(cards, name, x, link, want);
}

fn element(cards: &mut Cards<'_>, name: &str, v: u32, want: &[u8]) {
    write(cards, name, Segment::Element(v), b"", Said::Bytes(want));
}

pub(crate) fn ports(cards: &mut Cards<'_>) {
    let far = Said::Bytes(b"\x0F\x00\x0F\x05");
    let address = Said::Bytes(b"\x12\x0810.0.0.7");
    port(
        cards,
        "* port 14 link [5]",
        14,
        b"\x05",
        Said::Bytes(b"\x0E\x05"),
    );
    port(cards, "* port 15 link [5]", 15, b"\x05", far);
    port(
        cards,
        "* port 1 empty link",
        1,
        b"",
        Said::Bytes(b"\x01\x00"),
    );
    port(
        cards,
        "* port 1 link [0]",
        1,
        b"\x00",
        Said::Bytes(b"\x01\x00"),
    );
    port(cards, "* port 2 link 10.0.0.7", 2, b"10.0.0.7", address);
}

pub(crate) fn elements(cards: &mut Cards<'_>) {
    element(cards, "* element 255", 255, b"\x28\xFF");
    element(cards, "* element 256", 256, b"\x29\x00\x00\x01");
    element(cards, "* element 65535", 65535, b"\x29\x00\xFF\xFF");
    element(cards, "* element 65536", 65536, b"\x2A\x00\x00\x00\x01\x00");
}

// A path, read.
fn read(cards: &mut Cards<'_>, name: &str, s: &[u8], want: Said<'_>) {
    let ours = match epath::check_path(s) {
        Ok(_) => Said::Bytes(b""),
        Err(e) => Said::refused(e),
    };
    cards.card(name, want, ours);
}

// Links of 254 and 255 letters: port 3 with bit 4 set, the length, the link.
fn links(cards: &mut Cards<'_>) {
    let mut want = [b'A'; 256];
    want[0] = 0x13;
    want[1] = 0xFE;
    let pool = [b'A'; 255];
    port(
        cards,
        "port 3 link of 254",
        3,
        &pool[..254],
        Said::Bytes(&want),
    );
    port(cards, "port 3 link of 255", 3, &pool, Said::Refused(3));
}

pub(crate) fn others(cards: &mut Cards<'_>) {
    let x = Segment::Symbol(SymbolSegment { start: 0, len: 5 });
    let want = Said::Bytes(b"\x91\x05Flow1\x00");
    write(cards, "* symbol Flow1", x, b"Flow1", want);
    read(
        cards,
        "* read 21 00 05 00",
        b"\x21\x00\x05\x00",
        Said::Refused(5),
    );
    links(cards);
}

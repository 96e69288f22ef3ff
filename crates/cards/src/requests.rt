// The cards on requests: the default Forward Open, and both sides of the small connection size's limit.
use crate::BLANK;
use crate::recorded::Cards;
use crate::show::Said;
use connection::OpenOptions;
use wire::Refusal;

// Any serial number: the cards have none of its bytes.
const SERIAL: u16 = 0x1234;

// A record with its default path.
fn write(o: OpenOptions, out: &mut [u8]) -> Result<usize, Refusal> {
    request::write_forward_open(o, request::default_connection_path(), b"", out)
}

// A part of it, from a place on, as long as document 01's; or its refusal.
fn part(cards: &mut Cards<'_>, name: &str, o: OpenOptions, start: usize, want: &[u8]) {
    let mut out = [BLANK; 64];
    let ours = match write(o, &mut out) {
        Ok(_) => Said::Bytes(wire_read::part_of(&out, start, want.len())),
        Err(e) => Said::refused(e),
    };
    cards.card(name, Said::Bytes(want), ours);
}

fn large() -> OpenOptions {
    let mut o = connection::default_options(SERIAL);
    o.large_open = true;
    o
}

// Both directions with a connection size.
fn sized(size: u16) -> OpenOptions {
    let mut o = connection::default_options(SERIAL);
    let mut q = connection::default_parameters();
    q.connection_size = size;
    o.o_t_params = q;
    o.t_o_params = q;
    o
}

pub(crate) fn defaults(cards: &mut Cards<'_>) {
    let small = connection::default_options(SERIAL);
    part(
        cards,
        "default Forward Open, class and trigger",
        small,
        34,
        b"\xA3",
    );
    part(
        cards,
        "default Forward Open, parameters",
        small,
        26,
        b"\xF8\x45",
    );
    part(cards, "large, parameters", large(), 26, b"\xF8\x01\x00\x44");
    let n = write(small, &mut [BLANK; 64]).unwrap_or(0);
    let total = [(n % 256) as u8];
    let want = Said::Bytes(b"\x2A");
    cards.card(
        "small, how many bytes (2A is 42)",
        want,
        Said::Bytes(&total),
    );
}

pub(crate) fn sizes(cards: &mut Cards<'_>) {
    part(
        cards,
        "small connection size 511, parameters",
        sized(511),
        26,
        b"\xFF\x45",
    );
    let mut out = [BLANK; 64];
    let w = write(sized(512), &mut out);
    let name = "small connection size 512";
    cards.card(name, Said::Refused(3), Said::wrote(w, &out));
}

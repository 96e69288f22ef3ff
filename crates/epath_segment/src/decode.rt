// The strict reader of one segment. It accepts exactly what the writer makes. rseip-cip has none: it is added.
ghost use Rattle.std.specs.Prelude.{◌≡◌, ◌+◌, ◌≤◌, ◌<◌, ◌⊎◌, get_or, drop};
ghost use Rattle.wire.specs.Numbers.{value_of};
ghost use Rattle.epath_sizes.specs.Segments.{far_value};
ghost use Rattle.epath_segment.specs.declared.decode.Kind.TheVariants.{Element as kElement};
ghost use Rattle.epath_segment.specs.Reads.{paper_front, form_of, made, read_narrow, read_wide, read_part, read_link, read_port_number, read_port, read_symbol, read_seg};

use crate::SegmentRead;
use epath_sizes::{
    ATTRIBUTE, CLASS, ELEMENT, INSTANCE, PORT_END, PortSegment, SYMBOL, Segment, SymbolSegment,
};
use wire::Refusal;
use wire_read::{byte_at, u16_at, u32_at};

// Which number a logical segment holds.
#[derive(Clone, Copy)]
enum Kind {
    Class,
    Instance,
    Attribute,
    Element,
}

// What a segment's first byte says of the rest.
#[derive(Clone, Copy)]
enum Form {
    Port,
    Symbol,
    Narrow(Kind),
    Wide(Kind),
    Widest,
    Unknown,
}

// The codes of numbers in two bytes, and of an element in four.
const WIDE_CLASS: u8 = CLASS + 1;

const WIDE_INSTANCE: u8 = INSTANCE + 1;

const WIDE_ATTRIBUTE: u8 = ATTRIBUTE + 1;

const WIDE_ELEMENT: u8 = ELEMENT + 1;

const WIDEST_ELEMENT: u8 = ELEMENT + 2;

#[tactic(auto, unfolding(crate::specs::Reads::form_of, crate::specs::Reads::form_in))]
fn form_of(b: u8) -> Form
    ensures { result ≡ form_of b }
{
    match b {
        ..PORT_END => Form::Port,
        SYMBOL => Form::Symbol,
        CLASS => Form::Narrow(Kind::Class),
        WIDE_CLASS => Form::Wide(Kind::Class),
        INSTANCE => Form::Narrow(Kind::Instance),
        WIDE_INSTANCE => Form::Wide(Kind::Instance),
        ATTRIBUTE => Form::Narrow(Kind::Attribute),
        WIDE_ATTRIBUTE => Form::Wide(Kind::Attribute),
        ELEMENT => Form::Narrow(Kind::Element),
        WIDE_ELEMENT => Form::Wide(Kind::Element),
        WIDEST_ELEMENT => Form::Widest,
        _ => Form::Unknown,
    }
}

fn make(kind: Kind, v: u32) -> Segment
    requires { (v < 65536) ⊎ (kind ≡ kElement) }
    ensures { result ≡ made kind v }
{
    match kind {
        Kind::Class => Segment::Class(v as u16),
        Kind::Instance => Segment::Instance(v as u16),
        Kind::Attribute => Segment::Attribute(v as u16),
        Kind::Element => Segment::Element(v),
    }
}

// A number in one byte.
#[tactic(auto, unfolding(crate::specs::Reads::read_narrow, wire::specs::Answers::judged, wire::specs::Answers::breaks))]
fn read_narrow(t: &[u8], kind: Kind) -> Result<SegmentRead, Refusal>
    ensures { paper_front result ≡ read_narrow (made kind) t.now }
{
    let &v = t.get(1).ok_or(Refusal::Short)?;
    let segment = make(kind, v as u32);
    Ok(SegmentRead { segment, len: 2 })
}

// The number behind the first two bytes, in two bytes or in four.
fn number_at(t: &[u8], width: usize) -> u32
    requires { (width ≡ 2) ⊎ (width ≡ 4) }
    ensures value { result ≡ value_of width (drop 2 t.now) }
    ensures small { (width ≡ 2) → result < 65536 }
{
    match width {
        2 => u16_at(t, 2) as u32,
        _ => u32_at(t, 2),
    }
}

// A number in so many bytes behind a zero; it is least at least, or a narrower form would do.
#[tactic(auto, unfolding(crate::specs::Reads::read_wide, wire::specs::Answers::judged, wire::specs::Answers::breaks))]
fn read_wide(t: &[u8], kind: Kind, width: usize, least: u32) -> Result<SegmentRead, Refusal>
    requires { (width ≡ 2) ⊎ ((width ≡ 4) × (kind ≡ kElement)) }
    ensures { paper_front result ≡ read_wide (made kind) width least t.now }
{
    let &pad = t.get(1).ok_or(Refusal::Short)?;
    if pad != 0 {
        return Err(Refusal::Form);
    }
    if t.len() < 2 + width {
        return Err(Refusal::Short);
    }
    let v = number_at(t, width);
    if v < least {
        return Err(Refusal::Form);
    }
    let segment = make(kind, v);
    Ok(SegmentRead {
        segment,
        len: 2 + width,
    })
}

// The bytes up to end, and a zero where that is odd: the end of the segment x.
#[tactic(auto, unfolding(crate::specs::Reads::read_part, wire::specs::Answers::judged, wire::specs::Answers::breaks))]
fn read_part(t: &[u8], x: Segment, end: usize) -> Result<SegmentRead, Refusal>
    requires { end < 1000 }
    ensures { paper_front result ≡ read_part x end t.now }
{
    if t.len() < end {
        return Err(Refusal::Short);
    }
    if end % 2 == 0 {
        return Ok(SegmentRead {
            segment: x,
            len: end,
        });
    }
    match t.get(end) {
        None => Err(Refusal::Short),
        Some(0) => Ok(SegmentRead {
            segment: x,
            len: end + 1,
        }),
        Some(_) => Err(Refusal::Form),
    }
}

#[tactic(auto, unfolding(crate::specs::Reads::read_symbol, wire::specs::Answers::judged, wire::specs::Answers::breaks))]
fn read_symbol(t: &[u8]) -> Result<SegmentRead, Refusal>
    ensures { paper_front result ≡ read_symbol t.now }
{
    let &len = t.get(1).ok_or(Refusal::Short)?;
    let x = Segment::Symbol(SymbolSegment {
        start: 2,
        len: len as u32,
    });
    read_part(t, x, 2 + len as usize)
}

// A link of len bytes from at on.
#[tactic(auto, unfolding(crate::specs::Reads::read_link, wire::specs::Answers::judged, wire::specs::Answers::breaks))]
fn read_link(t: &[u8], port: u16, at: usize, len: u8) -> Result<SegmentRead, Refusal>
    requires { at ≤ 4 }
    ensures { paper_front result ≡ read_link port at len t.now }
{
    let x = Segment::Port(PortSegment {
        port,
        start: at as u32,
        len: len as u32,
    });
    read_part(t, x, at + len as usize)
}

// A port that does not fit the first byte: two bytes, HIGH byte first.
fn far_port_at(t: &[u8], at: usize) -> u16
    requires { at ≤ 2 }
    ensures { result ≡ far_value (get_or t.now at 0) (get_or t.now (at + 1) 0) }
{
    u16::from_be_bytes([byte_at(t, at), byte_at(t, at + 1)])
}

// The port, from at on where the low four bits are 15, and what follows it.
#[tactic(auto, unfolding(crate::specs::Reads::read_port_number, wire::specs::Answers::judged, wire::specs::Answers::breaks))]
fn read_port_number(t: &[u8], low: u8, at: usize, len: u8) -> Result<SegmentRead, Refusal>
    requires { at ≤ 2 }
    ensures { paper_front result ≡ read_port_number low at len t.now }
{
    if low < epath_sizes::FAR_PORT {
        return read_link(t, low as u16, at, len);
    }
    if t.len() < at + 2 {
        return Err(Refusal::Short);
    }
    let port = far_port_at(t, at);
    if port <= epath_sizes::NEAR_PORT {
        return Err(Refusal::Form);
    }
    read_link(t, port, at + 2, len)
}

// A port segment whose first byte is b.
#[tactic(auto, unfolding(crate::specs::Reads::read_port, wire::specs::Answers::judged, wire::specs::Answers::breaks))]
fn read_port(t: &[u8], b: u8) -> Result<SegmentRead, Refusal>
    ensures { paper_front result ≡ read_port b t.now }
{
    let low = b % epath_sizes::LONG_LINK;
    if b < epath_sizes::LONG_LINK {
        return read_port_number(t, low, 1, 1);
    }
    let &len = t.get(1).ok_or(Refusal::Short)?;
    if len < 2 {
        return Err(Refusal::Form);
    }
    if epath_sizes::MAX_LINK < len as usize {
        return Err(Refusal::Limit);
    }
    read_port_number(t, low, 2, len)
}

// What stands at the front; starts count from there.
#[tactic(auto, unfolding(crate::specs::Reads::read_seg, wire::specs::Answers::judged, wire::specs::Answers::breaks))]
pub fn read_segment(t: &[u8]) -> Result<SegmentRead, Refusal>
    ensures { paper_front result ≡ read_seg t.now }
{
    let &b = t.first().ok_or(Refusal::Short)?;
    match form_of(b) {
        Form::Port => read_port(t, b),
        Form::Symbol => read_symbol(t),
        Form::Narrow(kind) => read_narrow(t, kind),
        Form::Wide(kind) => read_wide(t, kind, 2, 256),
        Form::Widest => read_wide(t, Kind::Element, 4, 65536),
        Form::Unknown => Err(Refusal::Code),
    }
}

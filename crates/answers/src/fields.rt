// The fields of a case. One that is cut short, or that can't be asked for, is None, and so is the whole case.
use epath::{Path, PortSegment, Segment, Slot, SymbolSegment};

// Bytes of the largest output that can be asked for.
pub const MAX_ROOM: usize = 70000;

// Segments of the longest list that can be asked for.
const MAX_LIST: usize = 400;

// What is left of a case: each field is taken from its front.
#[derive(Clone, Copy)]
pub struct Fields<'a> {
    rest: &'a [u8],
}

impl<'a> Fields<'a> {
    pub(crate) fn new(case: &'a [u8]) -> Fields<'a> {
        Fields { rest: case }
    }

    fn array<const N: usize>(&mut self) -> Option<[u8; N]> {
        let (front, rest) = self.rest.split_first_chunk()?;
        self.rest = rest;
        Some(*front)
    }

    pub(crate) fn byte(&mut self) -> Option<u8> {
        let [b] = self.array::<1>()?;
        Some(b)
    }

    pub(crate) fn u16(&mut self) -> Option<u16> {
        Some(u16::from_le_bytes(self.array()?))
    }

    pub(crate) fn u32(&mut self) -> Option<u32> {
        Some(u32::from_le_bytes(self.array()?))
    }

    // A length or an index, of eight bytes.
    pub(crate) fn long(&mut self) -> Option<usize> {
        Some(usize::from_le_bytes(self.array()?))
    }

    // A yes or no.
    pub(crate) fn flag(&mut self) -> Option<bool> {
        match self.byte()? {
            0 => Some(false),
            1 => Some(true),
            _ => None,
        }
    }

    // The bytes of a byte string.
    pub(crate) fn string(&mut self) -> Option<&'a [u8]> {
        let len = self.u32()? as usize;
        let (front, rest) = self.rest.split_at_checked(len)?;
        self.rest = rest;
        Some(front)
    }

    // A segment: kind, number, start, length. What a kind does not have is 0.
    pub(crate) fn segment(&mut self) -> Option<Segment> {
        let kind = self.byte()?;
        let number = self.u32()?;
        let start = self.u32()?;
        let len = self.u32()?;
        let plain = start == 0 && len == 0;
        match kind {
            0 if number == 0 => Some(Segment::Symbol(SymbolSegment { start, len })),
            1 if plain => Some(Segment::Class(u16::try_from(number).ok()?)),
            2 if plain => Some(Segment::Instance(u16::try_from(number).ok()?)),
            3 if plain => Some(Segment::Attribute(u16::try_from(number).ok()?)),
            4 if plain => Some(Segment::Element(number)),
            5 => {
                let port = u16::try_from(number).ok()?;
                Some(Segment::Port(PortSegment { port, start, len }))
            }
            _ => None,
        }
    }

    // A list: count, segments. The count is passed as it stands; a segment past the list's places is judged and not kept.
    pub(crate) fn list(&mut self) -> Option<Path> {
        let count = usize::from(self.u16()?);
        if MAX_LIST < count {
            return None;
        }
        let blank = Slot {
            segment: Segment::Class(0),
        };
        let mut slots = [blank; epath::MAX_SEGMENTS];
        for i in 0..count {
            let segment = self.segment()?;
            if let Some(slot) = slots.get_mut(i) {
                *slot = Slot { segment };
            }
        }
        Some(Path { slots, count })
    }

    // The last field of a writer's case, how long the lent output is.
    pub(crate) fn room(mut self) -> Option<usize> {
        let room = self.u32()? as usize;
        self.end()?;
        (room <= MAX_ROOM).then_some(room)
    }

    // The last field, where that is a byte string.
    pub(crate) fn last_string(mut self) -> Option<&'a [u8]> {
        let s = self.string()?;
        self.end()?;
        Some(s)
    }

    // Nothing is left over.
    pub(crate) fn end(self) -> Option<()> {
        self.rest.is_empty().then_some(())
    }
}

// The answer of a case.
use crate::fields::MAX_ROOM;
use epath::Segment;
use statuses::Status;
use wire::Refusal;

// What an output holds before it is lent, so that what is not written shows.
const BLANK: u8 = 0xA5;

// The bytes of an answer so far: room for them, and how many they are.
#[derive(Drop)]
pub struct Answer<'a> {
    room: &'a mut [u8],
    len: usize,
}

impl<'a> Answer<'a> {
    pub(crate) fn new(room: &'a mut [u8]) -> Answer<'a> {
        Answer { room, len: 0 }
    }

    pub(crate) fn clear(&mut self) {
        self.len = 0;
    }

    pub(crate) fn bytes(&self) -> &[u8] {
        wire_read::part_of(self.room, 0, self.len)
    }

    // The room is that of the longest answer, so nothing is cut.
    pub(crate) fn put(&mut self, s: &[u8]) {
        wire_write::put_bytes(self.room, self.len, s);
        self.len = self.len.saturating_add(s.len());
    }

    pub(crate) fn u16(&mut self, n: u16) {
        self.put(&n.to_le_bytes());
    }

    pub(crate) fn u32(&mut self, n: u32) {
        self.put(&n.to_le_bytes());
    }

    // A size, a count or a place. None of an answer is larger.
    pub(crate) fn number(&mut self, n: usize) {
        self.u32((n % 4294967296) as u32);
    }

    // A part of the input: start and length.
    pub(crate) fn part(&mut self, start: usize, len: usize) {
        self.number(start);
        self.number(len);
    }

    // The first byte: 00, with what was accepted, or the refusal's number.
    pub(crate) fn judge<T>(&mut self, r: Result<T, Refusal>) -> Option<T> {
        match r {
            Ok(x) => {
                self.put(&[0]);
                Some(x)
            }
            Err(e) => {
                self.put(&[wire::refusal_number(e)]);
                None
            }
        }
    }

    // A size or a count, or the refusal.
    pub(crate) fn counted(&mut self, r: Result<usize, Refusal>) {
        if let Some(n) = self.judge(r) {
            self.number(n);
        }
    }

    // A writer's answer: what it says, and the whole output that it was lent.
    pub(crate) fn written<F: FnOnce(&mut [u8]) -> Result<usize, Refusal>>(
        &mut self,
        out: &mut [u8],
        write: F,
    )
        requires { F.IsAlwaysCallable write }
    {
        out.fill(BLANK);
        self.counted(write(&mut *out));
        self.put(out);
    }

    // Kind, number, start, length.
    fn fields(&mut self, kind: u8, number: u32, start: u32, len: u32) {
        self.put(&[kind]);
        self.u32(number);
        self.u32(start);
        self.u32(len);
    }

    // A segment as a case has it.
    pub(crate) fn segment(&mut self, x: Segment) {
        match x {
            Segment::Symbol(y) => self.fields(0, 0, y.start, y.len),
            Segment::Class(v) => self.fields(1, u32::from(v), 0, 0),
            Segment::Instance(v) => self.fields(2, u32::from(v), 0, 0),
            Segment::Attribute(v) => self.fields(3, u32::from(v), 0, 0),
            Segment::Element(v) => self.fields(4, v, 0, 0),
            Segment::Port(q) => self.fields(5, u32::from(q.port), q.start, q.len),
        }
    }

    pub(crate) fn status(&mut self, s: Status) {
        self.put(&[s.general]);
        match s.extended {
            None => self.put(&[0, 0, 0]),
            Some(word) => {
                self.put(&[1]);
                self.u16(word);
            }
        }
    }
}

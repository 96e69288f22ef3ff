// A segment as text.
use epath::Segment;
use hex_digits::hex_digit;
use std::fmt;

// A segment of a path that was read from these bytes.
#[derive(Clone, Copy)]
pub struct Shown<'a> {
    pub segment: Segment,
    pub path: &'a [u8],
}

impl<'a> Shown<'a> {
    fn part(&self, start: u32, len: u32) -> &'a [u8] {
        wire_read::part_of(self.path, start as usize, len as usize)
    }
}

impl fmt::Display for Shown<'_> {
    fn fmt<W: fmt::Write>(&self, f: &mut fmt::Formatter<W>) -> fmt::Result {
        match self.segment {
            Segment::Symbol(y) => write!(f, "symbol {}", Symbol(self.part(y.start, y.len))),
            Segment::Class(v) => write!(f, "class {v}"),
            Segment::Instance(v) => write!(f, "instance {v}"),
            Segment::Attribute(v) => write!(f, "attribute {v}"),
            Segment::Element(v) => write!(f, "element {v}"),
            Segment::Port(q) => {
                let link = Link(self.part(q.start, q.len));
                write!(f, "port {} link{link}", q.port)
            }
        }
    }
}

// The bytes of a symbol: each as it is where it is printable ASCII and no backslash, else as \x and two digits.
#[derive(Clone, Copy)]
struct Symbol<'a>(&'a [u8]);

impl fmt::Display for Symbol<'_> {
    fn fmt<W: fmt::Write>(&self, f: &mut fmt::Formatter<W>) -> fmt::Result {
        for b in self.0 {
            match *b {
                b' '..=b'[' | b']'..=b'~' => write!(f, "{}", char::from(*b))?,
                other => write!(f, "\\x{}", Hex(other))?,
            }
        }
        Ok(())
    }
}

// The bytes of a link, each with a space before it.
#[derive(Clone, Copy)]
struct Link<'a>(&'a [u8]);

impl fmt::Display for Link<'_> {
    fn fmt<W: fmt::Write>(&self, f: &mut fmt::Formatter<W>) -> fmt::Result {
        for b in self.0 {
            write!(f, " {}", Hex(*b))?;
        }
        Ok(())
    }
}

// A byte in two digits, with capital letters.
#[derive(Clone, Copy)]
struct Hex(u8);

impl fmt::Display for Hex {
    fn fmt<W: fmt::Write>(&self, f: &mut fmt::Formatter<W>) -> fmt::Result {
        f.write_char(char::from(hex_digit(self.0 / 16)))?;
        f.write_char(char::from(hex_digit(self.0)))
    }
}

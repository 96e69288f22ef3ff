// Rows of a run of numbers.
use std::fmt;

// How many rows are `1 0E 0 0`.
pub(crate) fn small(run: &[u16]) -> usize {
    run.chunks_exact(nested::ROW)
        .filter(|row| matches!(row, [1, 0x0E, 0, 0]))
        .count()
}

// The row at a place.
#[derive(Clone, Copy)]
pub struct Row<'a>(&'a [u16]);

impl<'a> Row<'a> {
    pub(crate) fn at(run: &'a [u16], at: usize) -> Row<'a> {
        Row(run.get(at..).unwrap_or_default())
    }
}

impl fmt::Display for Row<'_> {
    fn fmt<W: fmt::Write>(&self, f: &mut fmt::Formatter<W>) -> fmt::Result {
        match self.0 {
            [depth, service, path, data, ..] => write!(f, "{depth} {service:02x} {path} {data}"),
            _ => Ok(()),
        }
    }
}

// The bindings as they are read, in one value.
ghost use Rattle.std.specs.Prelude.{◌≡◌, ◌+◌};
ghost use Rattle.bindings.specs.Table.{Lined};

use crate::Lines;

// Their text, the table of their lines, and how many of these bind widths and how many values.
#[derive(Clone, Copy)]
pub struct Bound<'a> {
    pub text: &'a [u8],
    pub table: &'a [u32],
    pub lines: Lines,
    ghost lined: { Lined lines table.now },
}

impl Bound<'_> {
    // Where the lines end: those of values come after those of widths.
    pub fn end(self) -> usize
        ensures { result ≡ self.entry.lines.widths + self.entry.lines.values }
    {
        self.lines.widths + self.lines.values
    }
}

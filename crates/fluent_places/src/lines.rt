//! Where a byte stands in a text.
ghost use Rattle.std.specs.Prelude.{◌≡◌, take};
ghost use Rattle.fluent_places.specs.Columns.{column_after, line_after};

use std::fmt;

/// A line and a column, each counted from 1. A column counts characters.
#[derive(Clone, Copy, Drop)]
pub struct LineColumn {
    pub line: usize,
    pub column: usize,
}

impl fmt::Display for LineColumn {
    fn fmt<W: fmt::Write>(&self, f: &mut fmt::Formatter<W>) -> fmt::Result {
        let line = self.line;
        let column = self.column;
        write!(f, "{line}:{column}")
    }
}

/// The line and the column of the byte at an offset, as the first one of what can't be read: the line feeds before it
/// plus one, and the characters since the last of them plus one. Past the end they are those of the end.
pub fn position(source: &str, offset: usize) -> LineColumn
    ensures line { result.line ≡ line_after (take offset source.now) }
    ensures column { result.column ≡ column_after (take offset source.now) }
{
    let bytes = source.as_bytes();
    if offset < bytes.len() {
        position_after(&bytes[..offset])
    } else {
        position_after(bytes)
    }
}

/// Where what stands after these bytes is.
fn position_after(before: &[u8]) -> LineColumn
    ensures line { result.line ≡ line_after before.now }
    ensures column { result.column ≡ column_after before.now }
{
    let mut line: usize = 1;
    let mut column: usize = 1;
    for byte in before {
        if *byte == 10 {
            line += 1;
            column = 1;
        } else if *byte < 128 || *byte >= 192 {
            column += 1;
        }
    }
    LineColumn { line, column }
}

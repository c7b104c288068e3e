//! Lines and columns of texts.

ghost use Rattle.std.specs.Prelude.{◌≡◌, ◌+◌, ◌<◌, ◌≤◌, ◌^◌, length, take, IfOk};
ghost use Rattle.std.specs.List.{All};
ghost use Rattle.fluent_places.specs.Columns.{column_after, line_after};
ghost use Rattle.fluent_sources.specs.LineMarks.{IsMark};
ghost use Rattle.fluent_sources.specs.Reading.{read_view};

use crate::source::Source;
use fluent_places::LineColumn;
use std::alloc::{AllocError, Global};

/// A byte of a text, with its line and its column.
#[derive(Clone, Copy, Drop)]
struct Mark {
    at: usize,
    line: usize,
    column: usize,
}

/// A source, with a mark every so many bytes of its text.
#[derive(Drop)]
pub struct Lined<'f> {
    pub source: Source<'f>,
    marks: Vec<Mark>,
    ghost exact: { All (IsMark source.text.now) marks.items },
}

/// How many bytes there are from a mark to the next.
const STRIDE: usize = 256;

impl<'f> Lined<'f> {
    pub fn new(alloc: Global, source: Source<'f>) -> Result<Lined<'f>, AllocError>
        ensures { IfOk result (λ l. read_view l.source ≡ read_view source.entry) }
    {
        let marks = marks_of(alloc, source.text.as_bytes())?;
        Ok(Lined { source, marks })
    }

    /// The line and the column of a byte.
    pub fn position(&self, at: usize) -> LineColumn
        ensures line { result.line ≡ line_after (take at self.now.source.text.now) }
        ensures column { result.column ≡ column_after (take at self.now.source.text.now) }
    {
        let bytes = self.source.text.as_bytes();
        let mark = walk(bytes, self.mark_before(at), at);
        LineColumn {
            line: mark.line,
            column: mark.column,
        }
    }

    /// A mark from which a byte is near.
    fn mark_before(&self, at: usize) -> Mark
        ensures exact { IsMark self.now.source.text.now result }
        ensures before { result.at ≤ at }
    {
        match self.marks.get(at / STRIDE) {
            Some(mark) if mark.at <= at => *mark,
            _ => start(self.source.text.as_bytes()),
        }
    }
}

/// The mark of the first byte.
fn start(bytes: &[u8]) -> Mark
    ensures exact { IsMark bytes.now result }
    ensures at { result.at ≡ 0 }
{
    let _ = bytes;
    Mark {
        at: 0,
        line: 1,
        column: 1,
    }
}

/// The mark of the next byte.
fn step(bytes: &[u8], mark: Mark) -> Mark
    requires exact { IsMark bytes.now mark }
    requires within { mark.at < length bytes.now }
    requires small { mark.at + 2 < 2 ^ 64 }
    ensures exact { IsMark bytes.now result }
    ensures at { result.at ≡ mark.at + 1 }
{
    let byte = bytes[mark.at];
    let at = mark.at + 1;
    if byte == 10 {
        Mark {
            at,
            line: mark.line + 1,
            column: 1,
        }
    } else if byte < 128 || byte >= 192 {
        Mark {
            at,
            line: mark.line,
            column: mark.column + 1,
        }
    } else {
        Mark {
            at,
            line: mark.line,
            column: mark.column,
        }
    }
}

/// The mark of a byte after another, or that of the end.
fn walk(bytes: &[u8], from: Mark, to: usize) -> Mark
    requires exact { IsMark bytes.now from }
    requires before { from.at ≤ to }
    ensures line { result.line ≡ line_after (take to bytes.now) }
    ensures column { result.column ≡ column_after (take to bytes.now) }
{
    let mut mark = from;
    while mark.at < to && mark.at < bytes.len() {
        mark = step(bytes, mark);
    }
    mark
}

/// Marks of a text.
fn marks_of(alloc: Global, bytes: &[u8]) -> Result<Vec<Mark>, AllocError>
    ensures { IfOk result (λ marks. All (IsMark bytes.now) marks.items) }
{
    let mut marks = Vec::new(alloc);
    let mut mark = start(bytes);
    while mark.at < bytes.len() {
        if mark.at % STRIDE == 0 {
            marks.push(mark)?;
        }
        mark = step(bytes, mark);
    }
    Ok(marks)
}

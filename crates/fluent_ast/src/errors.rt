//! What the reader reports of a part of a source.
use std::fmt;

/// A part of a source that could not be read: the byte offsets of its start and of what follows it.
#[derive(Clone, Copy, Debug, Drop, PartialEq, Eq)]
pub struct ParserError {
    pub start: usize,
    pub end: usize,
}

impl fmt::Display for ParserError {
    ghost use Rattle.std.specs.Prelude.{Some};
    ghost use Rattle.fluent_ast.specs.ParserError.{unreadable_text};

    ghost output = { λ e. Some (unreadable_text e.start e.end) };

    fn fmt<W: fmt::Write>(&self, f: &mut fmt::Formatter<W>) -> fmt::Result {
        let start = self.start;
        let end = self.end;
        write!(f, "unreadable entry at bytes {start}..{end}")
    }
}

impl std::error::Error for ParserError {}

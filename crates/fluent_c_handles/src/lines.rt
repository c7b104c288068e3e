//! Lines that tell of a source, each with the number of its line there.
ghost use Rattle.fluent_c_handles.specs.Inside.Counted.{IsCounted};

use crate::counted::{Counted, START, counted_to};
use std::alloc::{AllocError, Global};

/// Lines that tell of a source, one after the other.
#[derive(Drop)]
pub(crate) struct Lines<'s> {
    source: &'s str,
    text: String,
    /// How far the lines of the source are counted.
    counted: Counted,
    ghost counts: { IsCounted source.now counted },
}

impl<'s> Lines<'s> {
    ghost use Rattle.std.specs.Prelude.{◌≡◌, [], OnOk};
    ghost use Rattle.fluent_c_handles.specs.Inside.Lines.{AddsLine, lines_in};

    /// No lines yet.
    pub(crate) fn new(alloc: Global, source: &'s str) -> Lines<'s>
        ensures source { result.source.now ≡ source.now }
        ensures none { lines_in result ≡ [] }
    {
        Lines {
            source,
            text: String::new(alloc),
            counted: START,
        }
    }

    /// The source that is told of.
    pub(crate) fn source(&self) -> &'s str
        ensures { result.now ≡ self.now.source.now }
    {
        self.source
    }

    /// Adds a line that tells a text of what begins at an offset.
    pub(crate) fn add(&mut self, at: usize, text: &str) -> Result<(), AllocError>
        ensures { OnOk result (AddsLine at text.now self.old self.new) }
    {
        self.counted = counted_to(self.source, self.counted, at);
        let line = self.counted.line;
        write!(self.text, "{line}: {text}\n")
    }

    /// The lines.
    pub(crate) fn into_text(self) -> String
        ensures { result ≡ self.entry.text }
    {
        self.text
    }
}

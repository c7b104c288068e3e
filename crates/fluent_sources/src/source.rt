//! The texts of files, and the entries in them.

ghost use Rattle.std.specs.Prelude.{◌≡◌, [], IfOk, OnErr, OnOk, map, string_bytes};
ghost use Rattle.fluent_sources.specs.Reading.{AreRead, AreSame, ReadsMore, read_view};
ghost use Rattle.fluent_sources.specs.Files.{Adds, mark_line, mark_lines};

use fluent_resource::{FluentResource, ParserError};
use std::alloc::{AllocError, Global};

/// The text of a file, without a byte order mark.
#[derive(Clone, Copy, Drop)]
pub struct Source<'f> {
    pub name: &'f str,
    pub text: &'f str,
    /// Whether there was a byte order mark.
    pub had_mark: bool,
}

/// Sources with what was read from them, each at the same place of its list.
pub struct Sources<'f> {
    pub texts: Vec<Source<'f>>,
    pub resources: Vec<FluentResource<'f>>,
    /// What can't be read.
    pub unreadable: Vec<Vec<ParserError>>,
}

// Written out, so that it is one step where sources go out of scope, and not one for each part.
impl<'f> Drop for Sources<'f> {
    fn drop(self) {
        let Sources {
            texts: _,
            resources: _,
            unreadable: _,
        } = self;
    }
}

impl<'f> Sources<'f> {
    /// No source.
    pub fn new(alloc: Global) -> Sources<'f>
        ensures { AreRead [] result }
    {
        Sources {
            texts: Vec::new(alloc),
            resources: Vec::new(alloc),
            unreadable: Vec::new(alloc),
        }
    }

    /// Reads a source, and adds it.
    ///
    /// # Errors
    ///
    /// An allocation failed, and nothing is added.
    pub fn add(&mut self, alloc: Global, source: Source<'f>) -> Result<(), AllocError>
        ensures added { OnOk result (ReadsMore (read_view source.entry) self.old self.new) }
        ensures kept { OnErr result (AreSame self.old self.new) }
    {
        let (resource, unreadable) = FluentResource::read(alloc, source.text)?;
        self.texts.reserve(1)?;
        self.resources.reserve(1)?;
        self.unreadable.push(unreadable)?;
        self.resources.push(resource)?;
        self.texts.push(source)?;
        Ok(())
    }
}

/// Says that a byte order mark was taken off, where there was one.
fn say_mark(source: &Source<'_>, errors: &mut String) -> Result<(), AllocError>
    ensures { OnOk result (Adds (mark_line (read_view source.now)) errors.old errors.new) }
{
    if source.had_mark {
        let name = source.name;
        write!(
            errors,
            "fluent: warning: {name}: a byte order mark was taken off\n"
        )?;
    }
    Ok(())
}

/// Of which files a byte order mark was taken off: a line for each.
///
/// # Errors
///
/// An allocation failed.
pub fn mark_lines(alloc: Global, sources: &[Source<'_>]) -> Result<String, AllocError>
    ensures { IfOk result (λ lines. string_bytes lines ≡ mark_lines (map read_view sources.now)) }
{
    let mut lines = String::new(alloc);
    for source in sources {
        say_mark(source, &mut lines)?;
    }
    Ok(lines)
}

//! The lines of files.

ghost use Rattle.std.specs.Prelude.{◌≡◌, IfOk, map};
ghost use Rattle.std.specs.Str.Lines.{lines};
ghost use Rattle.fluent_sources.specs.Reading.{read_view};
ghost use Rattle.fluent_cli_report.specs.Pages.{line_among, line_in, page_views, pages_of, texts};

use fluent_sources::Source;
use std::alloc::{AllocError, Global};

/// The lines of a text, without what ends them.
fn lines_of<'f>(alloc: Global, text: &'f str) -> Result<Vec<&'f str>, AllocError>
    ensures { IfOk result (λ list. texts list.items ≡ lines text.entry.now) }
{
    let mut list = Vec::new(alloc);
    for line in text.lines() {
        list.push(line)?;
    }
    Ok(list)
}

/// The lines of each file.
pub(crate) fn pages_of<'f>(
    alloc: Global,
    sources: &[Source<'f>],
) -> Result<Vec<Vec<&'f str>>, AllocError>
    ensures { IfOk result (λ pages. page_views pages.items ≡ pages_of (map read_view sources.now)) }
{
    let mut pages = Vec::new(alloc);
    for source in sources {
        pages.push(lines_of(alloc, source.text)?)?;
    }
    Ok(pages)
}

/// A line, counted from 1; empty where there is none.
fn line_among<'f>(lines: &[&'f str], line: usize) -> &'f str
    ensures { result.now ≡ line_among (texts lines.now) line }
{
    match lines.get(line.saturating_sub(1)) {
        Some(text) => *text,
        None => "",
    }
}

/// A line of a file; empty where there is none.
pub(crate) fn line_in<'f>(pages: &[Vec<&'f str>], file: usize, line: usize) -> &'f str
    ensures { result.now ≡ line_in (page_views pages.now) file line }
{
    match pages.get(file) {
        Some(lines) => line_among(lines.as_slice(), line),
        None => "",
    }
}

//! Findings as they look on a screen: colored words, and the line of each with a mark under the place.

ghost use Rattle.std.specs.Prelude.{◌≡◌, OnOk, ◌++◌, replicate, string_bytes};
ghost use Rattle.fluent_sources.specs.Files.{Adds};
ghost use Rattle.fluent_cli_report.specs.Kept.{row_view};
ghost use Rattle.fluent_cli_report.specs.Picture.{caret_lines, has_picture, in_picture, mark_of, picture, shown_line, word_of};

use crate::options::Look;
use crate::rows::{Row, put_line_with};
use std::alloc::AllocError;

/// How many bytes a line may have that is shown.
const LONGEST: usize = 400;

/// The word for an error, or for a warning.
fn word_of(has_color: bool, is_error: bool) -> &'static str
    ensures { result.now ≡ word_of has_color is_error }
{
    if has_color {
        if is_error {
            "\x1b[1;31merror\x1b[0m"
        } else {
            "\x1b[1;33mwarning\x1b[0m"
        }
    } else if is_error {
        "error"
    } else {
        "warning"
    }
}

/// The mark under the place of an error, or of a warning.
fn mark_of(has_color: bool, is_error: bool) -> &'static str
    ensures { result.now ≡ mark_of has_color is_error }
{
    if has_color {
        if is_error {
            "\x1b[1;31m^\x1b[0m"
        } else {
            "\x1b[1;33m^\x1b[0m"
        }
    } else {
        "^"
    }
}

/// Writes a character of a line as one that takes a place on a screen, which a tab and other control characters don't.
fn put_in_picture(c: char, output: &mut String) -> Result<(), AllocError>
    ensures { OnOk result (Adds (in_picture c) output.old output.new) }
{
    if c.is_control() {
        output.push(' ')
    } else {
        output.push(c)
    }
}

/// Writes a line so.
fn put_shown(text: &str, output: &mut String) -> Result<(), AllocError>
    ensures { OnOk result (Adds (shown_line text.now) output.old output.new) }
{
    for c in text.chars() {
        put_in_picture(c, output)?;
    }
    Ok(())
}

/// Writes so many spaces.
fn put_spaces(count: usize, output: &mut String) -> Result<(), AllocError>
    ensures { OnOk result (Adds (replicate count 32) output.old output.new) }
{
    'spaces: for _turn in 0..count {
        output.push(' ')?;
    }
    Ok(())
}

/// Whether a line is shown: it is not empty, and not too long.
fn has_picture(line: &str) -> bool
    ensures { result ≡ has_picture line.now }
{
    !line.is_empty() && line.len() <= LONGEST
}

/// Writes the line of a row, and a mark under the place.
fn put_caret(has_color: bool, row: &Row<'_>, output: &mut String) -> Result<(), AllocError>
    ensures { OnOk result (Adds (caret_lines has_color (row_view row.now)) output.old output.new) }
{
    if !has_picture(row.source) {
        return Ok(());
    }
    output.push_str("    ")?;
    put_shown(row.source, output)?;
    output.push_str("\n    ")?;
    put_spaces(row.column.saturating_sub(1), output)?;
    output.push_str(mark_of(has_color, row.is_error))?;
    output.push_str("\n")
}

/// Writes a row as it looks.
pub(crate) fn put_picture(look: Look, row: &Row<'_>, output: &mut String) -> Result<(), AllocError>
    ensures { OnOk result (Adds (picture look (row_view row.now)) output.old output.new) }
{
    put_line_with(word_of(look.has_color, row.is_error), row, output)?;
    if look.has_caret {
        put_caret(look.has_color, row, output)
    } else {
        Ok(())
    }
}

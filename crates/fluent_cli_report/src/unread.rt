//! Files that can't be read.

ghost use Rattle.std.specs.Prelude.{◌≡◌, IfOk, OnOk, flat_map, map, string_bytes};
ghost use Rattle.fluent_sources.specs.Files.{Adds};
ghost use Rattle.fluent_cli_report.specs.Kept.{row_view, row_views};
ghost use Rattle.fluent_cli_report.specs.Unread.{unread_line, unread_lines, unread_row, unread_rows, unread_view};

use crate::rows::Row;
use fluent_cli_words::Format;
use std::alloc::{AllocError, Global};

/// The name under which such files are reported.
pub(crate) const UNREADABLE_FILE: &str = "unreadable-file";

/// A file that can't be read.
#[derive(Drop)]
pub struct UnreadFile<'f> {
    pub file: &'f str,
    /// The line up to which it is a text, where it was read.
    pub line: Option<usize>,
    pub reason: String,
}

/// Says why a file can't be read.
fn say(file: &UnreadFile<'_>, errors: &mut String) -> Result<(), AllocError>
    ensures { OnOk result (Adds (unread_line (unread_view file.now)) errors.old errors.new) }
{
    let name = file.file;
    let reason = file.reason.as_str();
    match file.line {
        Some(line) => write!(errors, "fluent: {name}:{line}: {reason}\n"),
        None => write!(errors, "fluent: {name}: {reason}\n"),
    }
}

/// Why files can't be read: a line for each.
///
/// # Errors
///
/// An allocation failed.
pub fn unread_lines(alloc: Global, files: &[UnreadFile<'_>]) -> Result<String, AllocError>
    ensures { IfOk result (λ lines. string_bytes lines ≡ unread_lines (map unread_view files.now)) }
{
    let mut lines = String::new(alloc);
    for file in files {
        say(file, &mut lines)?;
    }
    Ok(lines)
}

/// What is reported of a file that can't be read.
fn row_of<'f>(alloc: Global, file: &UnreadFile<'f>) -> Result<Row<'f>, AllocError>
    ensures { IfOk result (λ row. row_view row ≡ unread_row (unread_view file.now)) }
{
    Ok(Row {
        file: file.file,
        line: file.line.unwrap_or(1),
        column: 1,
        is_error: true,
        name: UNREADABLE_FILE,
        entry: String::new(alloc),
        text: String::from_str(alloc, file.reason.as_str())?,
        source: "",
    })
}

/// What is reported of files that can't be read.
fn rows_of<'f>(alloc: Global, files: &[UnreadFile<'f>]) -> Result<Vec<Row<'f>>, AllocError>
    ensures { IfOk result (λ rows. row_views rows.items ≡ map unread_row (map unread_view files.now)) }
{
    let mut rows = Vec::new(alloc);
    for file in files {
        rows.push(row_of(alloc, file)?)?;
    }
    Ok(rows)
}

/// What a report in a format begins with: one for people has none of it, as it is said to them beside the report.
pub(crate) fn first_rows<'f>(
    alloc: Global,
    format: Format,
    files: &[UnreadFile<'f>],
) -> Result<Vec<Row<'f>>, AllocError>
    ensures { IfOk result (λ rows. row_views rows.items ≡ unread_rows format (map unread_view files.now)) }
{
    match format {
        Format::Text => Ok(Vec::new(alloc)),
        Format::Json | Format::Github | Format::Sarif => rows_of(alloc, files),
    }
}

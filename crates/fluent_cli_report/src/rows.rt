//! What is reported of findings.

ghost use Rattle.std.specs.Prelude.{◌≡◌, [], ◌∷◌, ◌++◌, false, OnOk, IfOk, map, not, string_bytes};
ghost use Rattle.std.specs.List.{list_any};
ghost use Rattle.std.specs.Str.{bytes_eq};
ghost use Rattle.fluent_patterns.specs.Found.{found_in, found_view};
ghost use Rattle.fluent_sources.specs.Files.{Adds};
ghost use Rattle.fluent_sources.specs.Causes.{folded_view, others_text};
ghost use Rattle.fluent_sources.specs.Lined.{lined_views};
ghost use Rattle.fluent_sources.specs.Wording.{entry_text};
ghost use Rattle.fluent_cli_report.specs.Kept.{KeepsMore, row_view, row_views};
ghost use Rattle.fluent_cli_report.specs.Rows.{errors_in, folded_row, kept, line_text, line_with, row_of, severity, warnings_in};
ghost use Rattle.fluent_cli_report.specs.Pages.{page_views, pages_of};
ghost use Rattle.fluent_cli_report.specs.Told.{is_told};
ghost use Rattle.std.specs.Option.{option_map};
ghost use Rattle.fluent_places.specs.Places.{place_view};

use crate::pages::line_in;
use fluent_places::Place;
use fluent_sources::lines::Lined;
use fluent_sources::positions::{name_at, position_at};
use fluent_sources::wording::{place_text, problem_text};
use fluent_sources::{Finding, Folded};
use indexmap::IndexSet;
use std::alloc::{AllocError, Global};

/// A finding as it is reported.
#[derive(Drop)]
pub(crate) struct Row<'f> {
    pub file: &'f str,
    pub line: usize,
    pub column: usize,
    pub is_error: bool,
    /// The name of the problem.
    pub name: &'static str,
    /// The value or the attribute that it is of, empty where it is of none.
    pub entry: String,
    pub text: String,
    /// The line of the file in which it stands, empty where there is none.
    pub source: &'f str,
}

/// How many rows there are of each kind.
#[derive(Clone, Copy, Drop)]
pub struct Counts {
    pub errors: usize,
    pub warnings: usize,
}

/// The word for an error, or for a warning.
pub(crate) fn severity(is_error: bool) -> &'static str
    ensures { result.now ≡ severity is_error }
{
    if is_error { "error" } else { "warning" }
}

/// Whether a row is told. Where little is told, it is what makes the status 1: errors, and what may be one.
pub(crate) fn is_told(is_little: bool, row: &Row<'_>) -> bool
    ensures { result ≡ is_told is_little (row_view row.now) }
{
    !is_little || row.is_error || row.name == "may-open-too-many"
}

/// The text of a place, empty where there is none.
fn entry_of(alloc: Global, place: &Option<Place<'_>>) -> Result<String, AllocError>
    ensures { IfOk result (λ text. string_bytes text ≡ entry_text (option_map place_view place.now)) }
{
    match place {
        Some(place) => place_text(alloc, place),
        None => Ok(String::new(alloc)),
    }
}

/// What is reported of a finding.
fn row_of<'f>(
    alloc: Global,
    files: &[Lined<'f>],
    pages: &[Vec<&'f str>],
    finding: &Finding<'_>,
) -> Result<Row<'f>, AllocError>
    requires { page_views pages.now ≡ pages_of (lined_views files.now) }
    ensures { IfOk result (λ row. row_view row ≡ row_of (lined_views files.now) (found_view finding.now)) }
{
    let spot = finding.spot;
    let problem = finding.problem;
    let at = position_at(files, spot);
    let entry = entry_of(alloc, &finding.place)?;
    let text = problem_text(alloc, files, spot, entry.as_str(), &problem)?;
    Ok(Row {
        file: name_at(files, spot.file),
        line: at.line,
        column: at.column,
        is_error: problem.is_error(),
        name: problem.name(),
        entry,
        text,
        source: line_in(pages, spot.file, at.line),
    })
}

/// Writes the line of a row, with a word for how bad it is.
pub(crate) fn put_line_with(
    word: &str,
    row: &Row<'_>,
    output: &mut String,
) -> Result<(), AllocError>
    ensures { OnOk result (Adds (line_with word.now (row_view row.now)) output.old output.new) }
{
    let file = row.file;
    let line = row.line;
    let column = row.column;
    let text = row.text.as_str();
    write!(output, "{file}:{line}:{column}: {word}: {text}\n")
}

/// Writes the line of a row.
pub(crate) fn put_line(row: &Row<'_>, output: &mut String) -> Result<(), AllocError>
    ensures { OnOk result (Adds (line_text (row_view row.now)) output.old output.new) }
{
    put_line_with(severity(row.is_error), row, output)
}

/// The line of a row.
fn line_of(alloc: Global, row: &Row<'_>) -> Result<String, AllocError>
    ensures { IfOk result (λ line. string_bytes line ≡ line_text (row_view row.now)) }
{
    let mut line = String::new(alloc);
    put_line(row, &mut line)?;
    Ok(line)
}

/// Whether a line is among others.
fn is_known(lines: &IndexSet<String>, line: &str) -> bool
    ensures { result ≡ list_any (λ other. bytes_eq line.now (string_bytes other)) lines.now.keys }
{
    lines.contains(line)
}

/// Adds a line that is not among others.
fn note(lines: &mut IndexSet<String>, line: String) -> Result<(), AllocError>
    requires { list_any (λ other. bytes_eq (string_bytes line) (string_bytes other)) lines.old.keys ≡ false }
    ensures { OnOk result (lines.new.keys ≡ lines.old.keys ++ line ∷ []) }
{
    lines.insert(line)?;
    Ok(())
}

/// Keeps a finding, if the line of its row isn't known.
fn keep<'f, 's>(
    alloc: Global,
    files: &[Lined<'f>],
    pages: &[Vec<&'f str>],
    finding: &Finding<'s>,
    lines: &mut IndexSet<String>,
    kept: &mut Vec<Finding<'s>>,
) -> Result<(), AllocError>
    requires { page_views pages.now ≡ pages_of (lined_views files.now) }
    ensures { OnOk result (KeepsMore (lined_views files.now) (found_view finding.now)
        lines.old.keys lines.new.keys kept.old kept.new) }
{
    let row = row_of(alloc, files, pages, finding)?;
    let line = line_of(alloc, &row)?;
    if is_known(lines, line.as_str()) {
        return Ok(());
    }
    note(lines, line)?;
    kept.push(*finding)?;
    Ok(())
}

/// Findings without those whose line came before.
pub(crate) fn kept_of<'f, 's>(
    alloc: Global,
    files: &[Lined<'f>],
    pages: &[Vec<&'f str>],
    findings: &[Finding<'s>],
) -> Result<Vec<Finding<'s>>, AllocError>
    requires { page_views pages.now ≡ pages_of (lined_views files.now) }
    ensures { IfOk result (λ list. found_in list ≡ kept (lined_views files.now) (map found_view findings.now)) }
{
    let mut lines = IndexSet::new(alloc);
    let mut kept = Vec::new(alloc);
    for finding in findings {
        keep(alloc, files, pages, finding, &mut lines, &mut kept)?;
    }
    Ok(kept)
}

/// What is reported of findings.
pub(crate) fn rows_of<'f>(
    alloc: Global,
    files: &[Lined<'f>],
    pages: &[Vec<&'f str>],
    findings: &[Finding<'_>],
) -> Result<Vec<Row<'f>>, AllocError>
    requires { page_views pages.now ≡ pages_of (lined_views files.now) }
    ensures { IfOk result
        (λ rows. row_views rows.items ≡ map (row_of (lined_views files.now)) (map found_view findings.now)) }
{
    let mut rows = Vec::new(alloc);
    for finding in findings {
        rows.push(row_of(alloc, files, pages, finding)?)?;
    }
    Ok(rows)
}

/// Writes how many others are not told.
fn put_others(others: usize, text: &mut String) -> Result<(), AllocError>
    ensures { OnOk result (Adds (others_text others) text.old text.new) }
{
    if others == 0 {
        Ok(())
    } else {
        write!(text, ", and {others} more")
    }
}

/// What is told of a finding that stands for others, too.
fn folded_row<'f>(
    alloc: Global,
    files: &[Lined<'f>],
    pages: &[Vec<&'f str>],
    folded: &Folded<'_>,
) -> Result<Row<'f>, AllocError>
    requires { page_views pages.now ≡ pages_of (lined_views files.now) }
    ensures { IfOk result
        (λ row. row_view row ≡ folded_row (lined_views files.now) (folded_view folded.now)) }
{
    let mut row = row_of(alloc, files, pages, &folded.finding)?;
    put_others(folded.others, &mut row.text)?;
    Ok(row)
}

/// What is told of findings that stand for others, too.
pub(crate) fn folded_rows<'f>(
    alloc: Global,
    files: &[Lined<'f>],
    pages: &[Vec<&'f str>],
    list: &[Folded<'_>],
) -> Result<Vec<Row<'f>>, AllocError>
    requires { page_views pages.now ≡ pages_of (lined_views files.now) }
    ensures { IfOk result
        (λ rows. row_views rows.items ≡ map (folded_row (lined_views files.now)) (map folded_view list.now)) }
{
    let mut rows = Vec::new(alloc);
    for folded in list {
        rows.push(folded_row(alloc, files, pages, folded)?)?;
    }
    Ok(rows)
}

/// How many rows are errors, and how many are warnings.
pub(crate) fn counts_of(rows: &[Row<'_>]) -> Counts
    ensures errors { result.errors ≡ errors_in (row_views rows.now) }
    ensures warnings { result.warnings ≡ warnings_in (row_views rows.now) }
{
    Counts {
        errors: rows.iter().filter(|row| row.is_error).count(),
        warnings: rows.iter().filter(|row| !row.is_error).count(),
    }
}

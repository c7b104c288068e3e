//! How findings are reported.

ghost use Rattle.std.specs.Prelude.{◌≡◌, ◌++◌, OnOk, IfOk, flat_map, map, string_bytes};
ghost use Rattle.fluent_patterns.specs.Found.{found_in, found_view};
ghost use Rattle.fluent_sources.specs.Files.{Adds};
ghost use Rattle.fluent_sources.specs.Reading.{read_view};
ghost use Rattle.fluent_cli_report.specs.Kept.{row_view, row_views};
ghost use Rattle.fluent_cli_report.specs.Picture.{picture};
ghost use Rattle.fluent_cli_report.specs.Report.{github_line, github_report, if_told, report, text_report};
ghost use Rattle.fluent_cli_report.specs.Reported.{IsWritten, WritesRows, fault_lines, folds, manner_of};
ghost use Rattle.fluent_sources.specs.Lined.{lined_views};
ghost use Rattle.fluent_cli_report.specs.Pages.{page_views, pages_of};
ghost use Rattle.fluent_cli_report.specs.Rows.{kept_in_order, line_text, rows_in_order, told_rows};
ghost use Rattle.fluent_cli_report.specs.Unread.{unread_views};
ghost use Rattle.fluent_cli_report.specs.Written.{counted, counts_line, end_of, has_counts, reason_of};

use crate::github::put_annotation;
use crate::json::put_json;
use crate::options::{Look, ReportOptions};
use crate::pages::pages_of;
use crate::picture::put_picture;
use crate::rows::{Counts, Row, counts_of, folded_rows, is_told, kept_of, put_line, rows_of};
use crate::sarif::put_sarif;
use crate::sorting::{left_of, sort};
use crate::unread::{UnreadFile, first_rows};
use fluent_cli_words::Format;
use fluent_sources::lines::Lined;
use fluent_sources::positions::lined_of;
use fluent_sources::{Finding, Source, Sources, faults, fold};
use std::alloc::{AllocError, Global};

/// A number with its noun, which is in the plural but for one.
fn put_number(number: usize, noun: &str, text: &mut String) -> Result<(), AllocError>
    ensures { OnOk result (Adds (counted number noun.now) text.old text.new) }
{
    if number == 1 {
        write!(text, "1 {noun}")
    } else {
        write!(text, "{number} {noun}s")
    }
}

/// Why the status isn't 0, where the counts don't say it.
fn reason_of(is_whole: bool, is_well: bool, is_strict: bool, counts: Counts) -> &'static str
    ensures { result.now ≡ reason_of is_whole is_well is_strict counts.errors counts.warnings }
{
    if !is_whole {
        " (status 3: a file can't be read)"
    } else if counts.errors != 0 {
        ""
    } else if is_strict && counts.warnings != 0 {
        " (status 1: --strict)"
    } else if !is_well {
        " (status 1: a text may open too many placeables)"
    } else {
        ""
    }
}

/// Writes the line with the counts.
fn put_counts(counts: Counts, reason: &str, text: &mut String) -> Result<(), AllocError>
    ensures { OnOk result (Adds (counts_line counts.errors counts.warnings reason.now) text.old text.new) }
{
    put_number(counts.errors, "error", text)?;
    text.push_str(", ")?;
    put_number(counts.warnings, "warning", text)?;
    text.push_str(reason)?;
    text.push_str("\n")
}

/// Whether a report in a format ends with the counts.
fn has_counts(format: Format, is_quiet: bool) -> bool
    ensures { result ≡ has_counts format is_quiet }
{
    match format {
        Format::Text | Format::Github => !is_quiet,
        Format::Json | Format::Sarif => false,
    }
}

/// Writes what comes after the rows.
fn put_end(
    format: Format,
    is_quiet: bool,
    counts: Counts,
    reason: &str,
    text: &mut String,
) -> Result<(), AllocError>
    ensures { OnOk result
        (Adds (end_of format is_quiet counts.errors counts.warnings reason.now) text.old text.new) }
{
    if has_counts(format, is_quiet) {
        put_counts(counts, reason, text)
    } else {
        Ok(())
    }
}

/// Writes a row as it looks, if it is told.
fn put_told_picture(
    look: Look,
    is_little: bool,
    row: &Row<'_>,
    output: &mut String,
) -> Result<(), AllocError>
    ensures { OnOk result (Adds (if_told (picture look) is_little (row_view row.now)) output.old output.new) }
{
    if is_told(is_little, row) {
        put_picture(look, row, output)
    } else {
        Ok(())
    }
}

/// Writes the command for a row, if it is told.
fn put_told_annotation(
    is_little: bool,
    row: &Row<'_>,
    output: &mut String,
) -> Result<(), AllocError>
    ensures { OnOk result
        (Adds (if_told github_line is_little (row_view row.now)) output.old output.new) }
{
    if is_told(is_little, row) {
        put_annotation(row, output)
    } else {
        Ok(())
    }
}

/// Writes lines for people.
fn put_text(
    look: Look,
    is_little: bool,
    rows: &[Row<'_>],
    output: &mut String,
) -> Result<(), AllocError>
    ensures { OnOk result (Adds (text_report look is_little (row_views rows.now)) output.old output.new) }
{
    for row in rows {
        put_told_picture(look, is_little, row, output)?;
    }
    Ok(())
}

/// Writes commands of GitHub's workflows.
fn put_github(is_little: bool, rows: &[Row<'_>], output: &mut String) -> Result<(), AllocError>
    ensures { OnOk result (Adds (github_report is_little (row_views rows.now)) output.old output.new) }
{
    for row in rows {
        put_told_annotation(is_little, row, output)?;
    }
    Ok(())
}

/// Writes rows in a format.
#[tactic(auto, unfolding(crate::specs::Report::report))]
fn put_rows(
    alloc: Global,
    format: Format,
    look: Look,
    is_little: bool,
    rows: &[Row<'_>],
    output: &mut String,
) -> Result<(), AllocError>
    ensures { OnOk result (Adds (report format look is_little (row_views rows.now)) output.old output.new) }
{
    match format {
        Format::Text => put_text(look, is_little, rows, output),
        Format::Json => put_json(alloc, is_little, rows, output),
        Format::Github => put_github(is_little, rows, output),
        Format::Sarif => put_sarif(alloc, is_little, rows, output),
    }
}

/// Findings in files, in order, each line once.
#[tactic(auto, unfolding(crate::specs::Rows::kept_in_order))]
fn kept_in_order<'f, 's>(
    alloc: Global,
    files: &[Lined<'f>],
    pages: &[Vec<&'f str>],
    mut findings: Vec<Finding<'s>>,
) -> Result<Vec<Finding<'s>>, AllocError>
    requires { page_views pages.now ≡ pages_of (lined_views files.now) }
    ensures { IfOk result
        (λ list. found_in list ≡ kept_in_order (lined_views files.now) (found_in findings.entry)) }
{
    sort(&mut findings)?;
    kept_of(alloc, files, pages, findings.as_slice())
}

/// What is reported of findings in files, in order.
fn rows_in_order<'f>(
    alloc: Global,
    sources: &[Source<'f>],
    findings: Vec<Finding<'_>>,
) -> Result<Vec<Row<'f>>, AllocError>
    ensures { IfOk result
        (λ rows. row_views rows.items ≡ rows_in_order (map read_view sources.now) (found_in findings.entry)) }
{
    let files = lined_of(alloc, sources)?;
    let pages = pages_of(alloc, sources)?;
    let kept = kept_in_order(alloc, files.as_slice(), pages.as_slice(), findings)?;
    rows_of(alloc, files.as_slice(), pages.as_slice(), kept.as_slice())
}

/// Whether the first of the findings with one cause stand for all.
fn folds(options: &ReportOptions<'_>) -> bool
    ensures { result ≡ folds (manner_of options.now) }
{
    match options.format {
        Format::Text => !options.is_every,
        Format::Json | Format::Github | Format::Sarif => false,
    }
}

/// The rows that are told of findings.
fn told_rows<'f>(
    alloc: Global,
    folds: bool,
    files: &[Lined<'f>],
    pages: &[Vec<&'f str>],
    findings: &[Finding<'_>],
) -> Result<Vec<Row<'f>>, AllocError>
    requires { page_views pages.now ≡ pages_of (lined_views files.now) }
    ensures { IfOk result
        (λ rows. row_views rows.items ≡ told_rows folds (lined_views files.now) (map found_view findings.now)) }
{
    if folds {
        let list = fold(alloc, findings)?;
        folded_rows(alloc, files, pages, list.as_slice())
    } else {
        rows_of(alloc, files, pages, findings)
    }
}

/// What was found.
#[derive(Clone, Copy, Drop)]
pub struct Outcome<'o, 's> {
    pub findings: &'o [Finding<'s>],
    /// Whether no text is left that may show an error.
    pub is_well: bool,
}

/// Adds rows to others.
fn add_rows<'f>(rows: Vec<Row<'f>>, all: &mut Vec<Row<'f>>) -> Result<(), AllocError>
    ensures { OnOk result (row_views all.new.items ≡ row_views all.old.items ++ row_views rows.entry.items) }
{
    for row in rows {
        all.push(row)?;
    }
    Ok(())
}

/// Writes the rows that are told, in their format, and what comes after them.
fn put_all<'f>(
    alloc: Global,
    unread: &[UnreadFile<'f>],
    is_well: bool,
    options: &ReportOptions<'_>,
    counts: Counts,
    told: Vec<Row<'f>>,
    output: &mut String,
) -> Result<(), AllocError>
    ensures { OnOk result (WritesRows options.now (unread_views unread.now) is_well counts
        (row_views told.entry.items) output.old output.new) }
{
    let mut all = first_rows(alloc, options.format, unread)?;
    add_rows(told, &mut all)?;
    let is_little = options.is_quiet && !options.is_strict;
    put_rows(
        alloc,
        options.format,
        options.look,
        is_little,
        all.as_slice(),
        output,
    )?;
    let is_whole = unread.is_empty();
    let reason = reason_of(is_whole, is_well, options.is_strict, counts);
    put_end(options.format, options.is_quiet, counts, reason, output)
}

/// What is written of findings, and how many errors and warnings there are.
#[derive(Drop)]
pub struct Written {
    pub text: String,
    pub counts: Counts,
}

/// What is reported of findings in files, and of those that can't be read.
///
/// # Errors
///
/// An allocation failed.
pub fn write_report<'f>(
    alloc: Global,
    sources: &[Source<'f>],
    unread: &[UnreadFile<'f>],
    outcome: &Outcome<'_, '_>,
    options: &ReportOptions<'_>,
) -> Result<Written, AllocError>
    ensures { IfOk result
        (IsWritten options.now (map read_view sources.now) (unread_views unread.now) outcome.now) }
{
    let left = left_of(alloc, options.allowed, outcome.findings)?;
    let files = lined_of(alloc, sources)?;
    let pages = pages_of(alloc, sources)?;
    let kept = kept_in_order(alloc, files.as_slice(), pages.as_slice(), left)?;
    let rows = rows_of(alloc, files.as_slice(), pages.as_slice(), kept.as_slice())?;
    let counts = counts_of(rows.as_slice());
    let told = told_rows(
        alloc,
        folds(options),
        files.as_slice(),
        pages.as_slice(),
        kept.as_slice(),
    )?;
    let mut text = String::new(alloc);
    put_all(
        alloc,
        unread,
        outcome.is_well,
        options,
        counts,
        told,
        &mut text,
    )?;
    Ok(Written { text, counts })
}

/// Writes the line of each row.
fn put_lines(rows: &[Row<'_>], output: &mut String) -> Result<(), AllocError>
    ensures { OnOk result (Adds (flat_map line_text (row_views rows.now)) output.old output.new) }
{
    for row in rows {
        put_line(row, output)?;
    }
    Ok(())
}

/// What can't be read in sources, and which ids come again in the same source: a line for each, in order, and no line twice.
///
/// # Errors
///
/// An allocation failed.
pub fn fault_lines(alloc: Global, sources: &Sources<'_>) -> Result<String, AllocError>
    ensures { IfOk result (λ lines. string_bytes lines ≡ fault_lines sources.now) }
{
    let rows = rows_in_order(alloc, sources.texts.as_slice(), faults(alloc, sources)?)?;
    let mut lines = String::new(alloc);
    put_lines(rows.as_slice(), &mut lines)?;
    Ok(lines)
}

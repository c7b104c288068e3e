//! Rows as commands of GitHub's workflows.

ghost use Rattle.std.specs.Prelude.{◌≡◌, OnOk};
ghost use Rattle.fluent_sources.specs.Files.{Adds};
ghost use Rattle.fluent_cli_report.specs.Kept.{row_view};
ghost use Rattle.fluent_cli_report.specs.Report.{github_line, in_message, in_property, message_text, property_text};

use crate::rows::{Row, severity};
use std::alloc::AllocError;

/// Writes a character of a message.
fn put_in_message(c: char, output: &mut String) -> Result<(), AllocError>
    ensures { OnOk result (Adds (in_message c) output.old output.new) }
{
    match c {
        '%' => output.push_str("%25"),
        '\r' => output.push_str("%0D"),
        '\n' => output.push_str("%0A"),
        _ => output.push(c),
    }
}

/// Writes a character of a property, which a colon or a comma would end.
fn put_in_property(c: char, output: &mut String) -> Result<(), AllocError>
    ensures { OnOk result (Adds (in_property c) output.old output.new) }
{
    match c {
        ':' => output.push_str("%3A"),
        ',' => output.push_str("%2C"),
        _ => put_in_message(c, output),
    }
}

/// Writes a message.
fn put_message(text: &str, output: &mut String) -> Result<(), AllocError>
    ensures { OnOk result (Adds (message_text text.now) output.old output.new) }
{
    for c in text.chars() {
        put_in_message(c, output)?;
    }
    Ok(())
}

/// Writes a property.
fn put_property(text: &str, output: &mut String) -> Result<(), AllocError>
    ensures { OnOk result (Adds (property_text text.now) output.old output.new) }
{
    for c in text.chars() {
        put_in_property(c, output)?;
    }
    Ok(())
}

/// Writes the command for a row.
pub(crate) fn put_annotation(row: &Row<'_>, output: &mut String) -> Result<(), AllocError>
    ensures { OnOk result (Adds (github_line (row_view row.now)) output.old output.new) }
{
    let word = severity(row.is_error);
    write!(output, "::{word} file=")?;
    put_property(row.file, output)?;
    let line = row.line;
    let column = row.column;
    let name = row.name;
    write!(output, ",line={line},col={column},title={name}::")?;
    put_message(row.text.as_str(), output)?;
    output.push_str("\n")
}

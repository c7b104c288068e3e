//! Rows as JSON.

ghost use Rattle.std.specs.Prelude.{◌≡◌, [], ◌∷◌, ◌++◌, OnOk, IfOk, false, map};
ghost use Rattle.serde_json.specs.View.{view};
ghost use Rattle.serde_json.specs.Written.{compact_text, has_float};
ghost use Rattle.fluent_sources.specs.Files.{Adds};
ghost use Rattle.fluent_cli_report.specs.Json.{json_report, json_row, json_rows};
ghost use Rattle.fluent_cli_report.specs.Kept.{row_view, row_views};
ghost use Rattle.fluent_cli_report.specs.Told.{told};

use crate::rows::{Row, is_told, severity};
use serde_json::{Value, json};
use std::alloc::{AllocError, Global};

/// A row as an object.
fn object_of(alloc: Global, row: &Row<'_>) -> Result<Value, AllocError>
    ensures { IfOk result (λ object. view object ≡ json_row (row_view row.now)) }
{
    let file = row.file;
    let line = row.line;
    let column = row.column;
    let word = severity(row.is_error);
    let kind = row.name;
    let entry = row.entry.as_str();
    let text = row.text.as_str();
    json!(in alloc; {
        "file": file,
        "line": line,
        "column": column,
        "severity": word,
        "kind": kind,
        "entry": entry,
        "text": text
    })
}

/// Adds a row as an object, if it is told.
fn add_if_told(
    alloc: Global,
    is_little: bool,
    row: &Row<'_>,
    list: &mut Vec<Value>,
) -> Result<(), AllocError>
    ensures { OnOk result
        (map view list.new.items ≡ map view list.old.items ++ map json_row (told is_little (row_view row.now ∷ []))) }
{
    if is_told(is_little, row) {
        let object = object_of(alloc, row)?;
        list.push(object)?;
    }
    Ok(())
}

/// The rows that are told, each as an object.
#[tactic(auto, using(crate::proofs::Told::told_further))]
fn objects_of(alloc: Global, is_little: bool, rows: &[Row<'_>]) -> Result<Value, AllocError>
    ensures { IfOk result (λ value. view value ≡ json_rows is_little (row_views rows.now)) }
{
    let mut list = Vec::new(alloc);
    for row in rows {
        add_if_told(alloc, is_little, row, &mut list)?;
    }
    Ok(Value::from(list))
}

/// Writes a value on one line.
pub(crate) fn put_value(alloc: Global, value: &Value, output: &mut String) -> Result<(), AllocError>
    requires { has_float (view value.now) ≡ false }
    ensures { OnOk result (Adds (compact_text (view value.now) ++ 10 ∷ []) output.old output.new) }
{
    let text = value.to_string(alloc)?;
    output.push_str(text.as_str())?;
    output.push_str("\n")
}

/// Writes one line: a list of objects.
#[tactic(auto, using(crate::proofs::Floatless::json_has_none))]
pub(crate) fn put_json(
    alloc: Global,
    is_little: bool,
    rows: &[Row<'_>],
    output: &mut String,
) -> Result<(), AllocError>
    ensures { OnOk result (Adds (json_report is_little (row_views rows.now)) output.old output.new) }
{
    let list = objects_of(alloc, is_little, rows)?;
    put_value(alloc, &list, output)
}

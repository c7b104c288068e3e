//! Rows in the Static Analysis Results Interchange Format.

ghost use Rattle.std.specs.Prelude.{◌≡◌, [], ◌∷◌, ◌++◌, OnOk, IfOk, map, string_bytes};
ghost use Rattle.serde_json.specs.Data.{array};
ghost use Rattle.serde_json.specs.View.{items_of, view};
ghost use Rattle.fluent_sources.specs.Files.{Adds};
ghost use Rattle.fluent_cli_report.specs.Kept.{row_view, row_views};
ghost use Rattle.fluent_cli_report.specs.Sarif.{kinds, location_of, sarif_log, sarif_report, sarif_results, sarif_row, sarif_rule, sarif_rules, sarif_tool};
ghost use Rattle.fluent_cli_report.specs.Told.{told};
ghost use Rattle.fluent_cli_report.specs.Uri.{uri_text};

use crate::json::put_value;
use crate::rows::{Row, is_told, severity};
use crate::unread::UNREADABLE_FILE;
use fluent_cli_words::KINDS;
use percent_encoding::{AsciiSet, NON_ALPHANUMERIC, ascii_set, utf8_percent_encode};
use serde_json::{Value, json};
use std::alloc::{AllocError, Global};

/// What is escaped in a URI: each byte but letters, digits and these.
const ESCAPED: AsciiSet = ascii_set!(
    NON_ALPHANUMERIC
        .remove(b'-')
        .remove(b'.')
        .remove(b'/')
        .remove(b'_')
        .remove(b'~')
);

/// The name of a file as a URI.
fn uri_of(alloc: Global, file: &str) -> Result<String, AllocError>
    ensures { IfOk result (λ uri. string_bytes uri ≡ uri_text file.now) }
{
    let mut uri = String::new(alloc);
    utf8_percent_encode(file, ESCAPED).append_to(&mut uri)?;
    Ok(uri)
}

/// Where a row stands.
fn location_of(alloc: Global, row: &Row<'_>) -> Result<Value, AllocError>
    ensures { IfOk result (λ value. view value ≡ location_of (row_view row.now)) }
{
    let uri = uri_of(alloc, row.file)?;
    let uri = uri.as_str();
    let line = row.line;
    let column = row.column;
    json!(in alloc; {
        "physicalLocation": {
            "artifactLocation": {"uri": uri},
            "region": {"startLine": line, "startColumn": column}
        }
    })
}

/// A row as a result.
fn result_of(alloc: Global, row: &Row<'_>) -> Result<Value, AllocError>
    ensures { IfOk result (λ value. view value ≡ sarif_row (row_view row.now)) }
{
    let location = location_of(alloc, row)?;
    let word = severity(row.is_error);
    let kind = row.name;
    let text = row.text.as_str();
    json!(in alloc; {
        "ruleId": kind,
        "level": word,
        "message": {"text": text},
        "locations": [location]
    })
}

/// Adds a row as a result, if it is told.
fn add_if_told(
    alloc: Global,
    is_little: bool,
    row: &Row<'_>,
    list: &mut Vec<Value>,
) -> Result<(), AllocError>
    ensures { OnOk result
        (map view list.new.items ≡ map view list.old.items ++ map sarif_row (told is_little (row_view row.now ∷ []))) }
{
    if is_told(is_little, row) {
        let value = result_of(alloc, row)?;
        list.push(value)?;
    }
    Ok(())
}

/// The rows that are told, each as a result.
#[tactic(auto, using(crate::proofs::Told::told_further))]
fn results_of(alloc: Global, is_little: bool, rows: &[Row<'_>]) -> Result<Value, AllocError>
    ensures { IfOk result
        (λ value. view value ≡ sarif_results is_little (row_views rows.now)) }
{
    let mut list = Vec::new(alloc);
    for row in rows {
        add_if_told(alloc, is_little, row, &mut list)?;
    }
    Ok(Value::from(list))
}

/// A rule of a name.
fn rule_of(alloc: Global, name: &str) -> Result<Value, AllocError>
    ensures { IfOk result (λ value. view value ≡ sarif_rule name.now) }
{
    json!(in alloc; {"id": name})
}

/// A rule for each name.
fn rules_of(alloc: Global, names: &[&str]) -> Result<Vec<Value>, AllocError>
    ensures { IfOk result (λ rules. map view rules.items ≡ map sarif_rule (map (λ name. name.now) names.now)) }
{
    let mut list = Vec::new(alloc);
    for name in names {
        let rule = rule_of(alloc, *name)?;
        list.push(rule)?;
    }
    Ok(list)
}

/// A rule for each kind of problem, and one for files that can't be read.
fn all_rules(alloc: Global) -> Result<Value, AllocError>
    ensures { IfOk result (λ value. view value ≡ sarif_rules kinds) }
{
    let mut rules = rules_of(alloc, KINDS.as_slice())?;
    rules.push(rule_of(alloc, UNREADABLE_FILE)?)?;
    Ok(Value::from(rules))
}

/// The program, with the rules that it goes by.
fn tool_of(alloc: Global, rules: Value) -> Result<Value, AllocError>
    ensures { IfOk result (λ tool. view tool ≡ sarif_tool (view rules)) }
{
    json!(in alloc; {"driver": {"name": "fluent", "rules": rules}})
}

/// The whole log.
fn log_of(alloc: Global, rules: Value, results: Value) -> Result<Value, AllocError>
    ensures { IfOk result (λ log. view log ≡ sarif_log (view rules) (view results)) }
{
    let tool = tool_of(alloc, rules)?;
    json!(in alloc; {
        "$schema": "https://json.schemastore.org/sarif-2.1.0.json",
        "version": "2.1.0",
        "runs": [{"columnKind": "unicodeCodePoints", "results": results, "tool": tool}]
    })
}

/// Writes one line: a log with a run.
#[tactic(auto, using(crate::proofs::Floatless::sarif_has_none))]
pub(crate) fn put_sarif(
    alloc: Global,
    is_little: bool,
    rows: &[Row<'_>],
    output: &mut String,
) -> Result<(), AllocError>
    ensures { OnOk result (Adds (sarif_report is_little (row_views rows.now)) output.old output.new) }
{
    let rules = all_rules(alloc)?;
    let results = results_of(alloc, is_little, rows)?;
    let log = log_of(alloc, rules, results)?;
    put_value(alloc, &log, output)
}

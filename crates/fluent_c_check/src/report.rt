//! The report on what is found.
ghost use Rattle.std.specs.Prelude.{◌≡◌, [], IfOk};
ghost use Rattle.fluent_cli_report.specs.Reported.{manner_of};
ghost use Rattle.fluent_c_check.specs.Inside.Handed.{AreReadFrom, TellsOf, reads_handed};
ghost use Rattle.fluent_c_check.specs.Inside.Manner.{TellsAll, format_of, manner_in};

use crate::found::{Inputs, found_in, inputs_of};
use crate::handed::Handed;
use fluent_check::Found;
use fluent_cli_report::{Counts, Look, Outcome, ReportOptions, Written, write_report};
use fluent_cli_words::Format;
use std::alloc::{AllocError, Global};

/// What is told of sources.
#[derive(Drop)]
pub(crate) struct Report {
    pub text: String,
    pub counts: Counts,
    /// Whether the linter finds nothing.
    pub is_clean: bool,
}

/// The format of a report.
fn format_of(as_json: bool) -> Format
    ensures { result ≡ format_of as_json }
{
    if as_json { Format::Json } else { Format::Text }
}

/// How a report is written: each finding is told, and no counts behind them.
fn options_of(as_json: bool) -> ReportOptions<'static>
    ensures manner { manner_of result ≡ manner_in as_json }
    ensures allowed { result.allowed.now ≡ [] }
{
    ReportOptions {
        format: format_of(as_json),
        look: Look {
            has_caret: false,
            has_color: false,
        },
        is_quiet: true,
        is_every: true,
        is_strict: true,
        allowed: &[],
    }
}

/// What is written of what is found.
fn written_of(
    alloc: Global,
    handed: &Handed<'_>,
    inputs: &Inputs<'_>,
    found: &Found<'_>,
    as_json: bool,
) -> Result<Written, AllocError>
    requires { AreReadFrom handed.now inputs.now }
    ensures { IfOk result (TellsAll as_json (reads_handed handed.now) found.now) }
{
    let texts = inputs.texts(alloc)?;
    let outcome = Outcome {
        findings: found.findings.as_slice(),
        is_well: found.is_clean,
    };
    write_report(alloc, texts.as_slice(), &[], &outcome, &options_of(as_json))
}

/// Tells what is found in sources that are handed over.
pub(crate) fn report_of(
    alloc: Global,
    handed: &Handed<'_>,
    as_json: bool,
) -> Result<Report, AllocError>
    ensures { IfOk result (TellsOf handed.now as_json) }
{
    let inputs = inputs_of(alloc, handed)?;
    let found = found_in(alloc, handed, &inputs)?;
    let written = written_of(alloc, handed, &inputs, &found, as_json)?;
    Ok(Report {
        text: written.text,
        counts: written.counts,
        is_clean: found.is_clean,
    })
}

//! What is wrong with the files of a language.

ghost use Rattle.std.specs.Prelude.{◌≡◌, IfOk};
ghost use Rattle.fluent_cli.specs.Checked.{FindsIn, IsChecked, IsReported, grouping_of, is_well, manner_for, status_by, status_over};
ghost use Rattle.fluent_cli_report.specs.Reported.{manner_of};
ghost use Rattle.fluent_cli_report.specs.Unread.{unread_views};

use crate::answer::{Answer, Status};
use crate::reading::Inputs;
use fluent_check::{Found, Grouping, Settings, findings};
use fluent_cli_report::{Counts, Look, Outcome, ReportOptions, UnreadFile, Written, write_report};
use fluent_cli_words::CheckRequest;
use std::alloc::{AllocError, Global};

/// Which files are looked at together.
fn grouping_of(request: &CheckRequest<'_>) -> Grouping
    ensures { result ≡ grouping_of request.now }
{
    if request.translation.is_some() {
        Grouping::Pairs
    } else if request.is_each {
        Grouping::Each
    } else {
        Grouping::Together
    }
}

/// What is found in these files.
fn found_in<'s>(
    alloc: Global,
    request: &CheckRequest<'_>,
    inputs: &Inputs<'s>,
) -> Result<Found<'s>, AllocError>
    ensures { IfOk result (FindsIn request.now inputs.now) }
{
    let settings = Settings {
        language: request.language,
        grouping: grouping_of(request),
        functions: request.functions.as_slice(),
        has_all_categories: request.has_all_categories,
    };
    findings(
        alloc,
        &settings,
        &inputs.beside,
        &inputs.sources,
        &inputs.references,
    )
}

/// The status of a run with so many findings. Where a run is strict, a warning is wrong too.
fn status_by(is_strict: bool, counts: Counts) -> Status
    ensures { result ≡ status_by is_strict counts.errors counts.warnings }
{
    if counts.errors == 0 && (!is_strict || counts.warnings == 0) {
        Status::Fine
    } else {
        Status::Wrong
    }
}

/// Whether nothing was found, or some kinds of findings are allowed.
fn is_well(request: &CheckRequest<'_>, is_clean: bool) -> bool
    ensures { result ≡ is_well request.now is_clean }
{
    is_clean || !request.allowed.is_empty()
}

/// The status of a run that was well, or else one that is wrong.
fn status_over(is_well: bool, status: Status) -> Status
    ensures { result ≡ status_over is_well status }
{
    if is_well { status } else { Status::Wrong }
}

/// How a report is written that is asked for.
fn options_of<'r>(request: &'r CheckRequest<'_>) -> ReportOptions<'r>
    ensures manner { manner_of result ≡ manner_for request.now }
    ensures allowed { result.allowed.now ≡ request.now.allowed.items }
{
    ReportOptions {
        format: request.format,
        look: Look {
            has_caret: request.has_caret,
            has_color: request.has_color,
        },
        is_quiet: request.is_quiet,
        is_every: request.is_every,
        is_strict: request.is_strict,
        allowed: request.allowed.as_slice(),
    }
}

/// Reports what was found in these files, and which can't be read.
fn reported(
    alloc: Global,
    request: &CheckRequest<'_>,
    inputs: &Inputs<'_>,
    unread: &[UnreadFile<'_>],
    found: &Found<'_>,
) -> Result<Answer, AllocError>
    ensures { IfOk result (IsReported request.now inputs.now (unread_views unread.now) found.now) }
{
    let texts = inputs.texts(alloc)?;
    let is_well = is_well(request, found.is_clean);
    let outcome = Outcome {
        findings: found.findings.as_slice(),
        is_well,
    };
    let Written { text, counts } = write_report(
        alloc,
        texts.as_slice(),
        unread,
        &outcome,
        &options_of(request),
    )?;
    let status = status_over(is_well, status_by(request.is_strict, counts));
    Ok(Answer::prints(alloc, status, text))
}

/// Checks files, and reports what is found, and which can't be read. Status 0 says that no error was found. Where no kind of
/// finding is allowed, no value and no attribute of the files then ever shows an error, for all arguments that give what it
/// asks for, in a bundle that has them and each function that they call.
pub(crate) fn check(
    alloc: Global,
    request: &CheckRequest<'_>,
    inputs: &Inputs<'_>,
    unread: &[UnreadFile<'_>],
) -> Result<Answer, AllocError>
    ensures { IfOk result (IsChecked request.now inputs.now (unread_views unread.now)) }
{
    let found = found_in(alloc, request, inputs)?;
    reported(alloc, request, inputs, unread, &found)
}

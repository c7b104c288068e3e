//! What can't be read in files, and why.

ghost use Rattle.std.specs.Prelude.{◌≡◌, OnOk, IfOk, map};
ghost use Rattle.fluent_syntax.specs.Parsed.{error_range};
ghost use Rattle.fluent_patterns.specs.Found.{AddsFound, found_in, found_view};
ghost use Rattle.fluent_sources.specs.ReadFiles.{file_view};
ghost use Rattle.fluent_sources.specs.Unreadable.{unreadable, unreadable_at, unreadable_in, unreadable_of};

use crate::files::Read;
use fluent_patterns::{Finding, Problem, Spot};
use fluent_reasons::reason_of;
use fluent_resource::ParserError;
use std::alloc::{AllocError, Global};

/// What can't be read from a byte of a file's text on. It stands where reading stopped.
fn unreadable_at<'s>(
    alloc: Global,
    file: usize,
    text: &str,
    start: usize,
) -> Result<Finding<'s>, AllocError>
    ensures { IfOk result (λ found. found_view found ≡ unreadable_at file text.now start) }
{
    let reason = reason_of(alloc, text, start)?;
    Ok(Finding {
        spot: Spot {
            file,
            at: start + reason.offset,
        },
        place: None,
        problem: Problem::Unreadable {
            start,
            expected: reason.expected,
        },
    })
}

/// Adds what can't be read in a file, by its number, its text and the errors.
fn add_errors<'s>(
    alloc: Global,
    file: usize,
    text: &str,
    errors: &[ParserError],
    findings: &mut Vec<Finding<'s>>,
) -> Result<(), AllocError>
    ensures { OnOk result
        (AddsFound (unreadable_in file text.now (map error_range errors.now)) findings.old findings.new) }
{
    for error in errors {
        let found = unreadable_at(alloc, file, text, error.start)?;
        findings.push(found)?;
    }
    Ok(())
}

/// Adds what can't be read in a file.
fn add_unreadable_in<'s>(
    alloc: Global,
    file: &Read<'_, '_>,
    findings: &mut Vec<Finding<'s>>,
) -> Result<(), AllocError>
    ensures { OnOk result (AddsFound (unreadable_of (file_view file.now)) findings.old findings.new) }
{
    let Some(errors) = file.unreadable else {
        return Ok(());
    };
    add_errors(
        alloc,
        file.number,
        file.resource.source(),
        errors.as_slice(),
        findings,
    )
}

/// What can't be read in files.
///
/// # Errors
///
/// An allocation failed.
pub fn unreadable<'s>(alloc: Global, files: &[Read<'_, '_>]) -> Result<Vec<Finding<'s>>, AllocError>
    ensures { IfOk result (λ found. found_in found ≡ unreadable (map file_view files.now)) }
{
    let mut findings = Vec::new(alloc);
    for file in files {
        add_unreadable_in(alloc, file, &mut findings)?;
    }
    Ok(findings)
}

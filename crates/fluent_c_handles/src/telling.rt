//! What is told of a source that is added to a bundle, line by line.
ghost use Rattle.std.specs.Prelude.{◌≡◌, IfOk, OnOk, map, string_bytes};
ghost use Rattle.fluent_ast.specs.View.{entry_view};
ghost use Rattle.fluent_syntax.specs.Chunks as chunks;
ghost use Rattle.fluent_syntax.specs.Chunks.{junk_ranges};
ghost use Rattle.fluent_syntax.specs.Parsed.{error_range};
ghost use Rattle.fluent_resource.specs.ResourceView.{entries_of, source_in};
ghost use Rattle.fluent_c_handles.specs.Answers.{bundle_view};
ghost use Rattle.fluent_c_handles.specs.Calls.Adding.{told_overriding_of};
ghost use Rattle.fluent_c_handles.specs.Inside.Telling.{IsReport, AddsLeft, AddsLeftBy, AreUnreadable, HaveStarts, Tells, left_at};

use crate::left::{Left, left_of};
use crate::lines::Lines;
use crate::opening::Asking;
use fluent_bundle::{FluentResource, Ids, ParserError, ast};
use fluent_syntax::entry_starts;
use std::alloc::{AllocError, Global};

/// What is told of a resource that is going to be added to a bundle: a line for each part that can't be read, and then a
/// line for each entry that the bundle is going to leave, since its id is there. Each line begins with the number of its
/// line in the source and ends with a line feed, as in `3: unreadable entry at bytes 14..30`. `unreadable` has what
/// reading the source reported. The source is read once more where an entry is left.
///
/// # Errors
///
/// An allocation failed.
pub fn told(
    alloc: Global,
    bundle: &Asking<'_, '_>,
    resource: &FluentResource<'_>,
    unreadable: &[ParserError],
) -> Result<String, AllocError>
    requires read { entries_of resource.now ≡ chunks.entries (source_in resource.now) }
    requires unreadable { map error_range unreadable.now ≡ junk_ranges (source_in resource.now) }
    ensures { IfOk result (IsReport (source_in resource.now) (bundle_view bundle.now)) }
{
    let entries = resource.entries();
    lines_of(
        alloc,
        bundle.ids(),
        resource.source(),
        entries.as_slice(),
        unreadable,
    )
}

/// What is told of a resource whose entries are going to override what is in a bundle: a line for each part that can't be
/// read, as `told` has them. No entry is left, so there are no other lines. `unreadable` has what reading the source
/// reported.
///
/// # Errors
///
/// An allocation failed.
pub fn told_overriding(
    alloc: Global,
    resource: &FluentResource<'_>,
    unreadable: &[ParserError],
) -> Result<String, AllocError>
    requires unreadable { map error_range unreadable.now ≡ junk_ranges (source_in resource.now) }
    ensures { IfOk result (λ text. string_bytes text
        ≡ told_overriding_of (source_in resource.now)) }
{
    let lines = unreadable_in(alloc, resource.source(), unreadable)?;
    Ok(lines.into_text())
}

/// What is told of a source that was read, by what ids name before it is added.
fn lines_of<F>(
    alloc: Global,
    ids: &Ids<'_, '_, F>,
    source: &str,
    entries: &[ast::Entry<'_>],
    unreadable: &[ParserError],
) -> Result<String, AllocError>
    requires entries { map entry_view entries.now ≡ chunks.entries source.now }
    requires unreadable { map error_range unreadable.now ≡ junk_ranges source.now }
    ensures { IfOk result (Tells source.now ids.now) }
{
    let mut lines = unreadable_in(alloc, source, unreadable)?;
    add_left_of(alloc, ids, entries, &mut lines)?;
    Ok(lines.into_text())
}

/// A line for each part of a source that can't be read.
fn unreadable_in<'s>(
    alloc: Global,
    source: &'s str,
    unreadable: &[ParserError],
) -> Result<Lines<'s>, AllocError>
    ensures { IfOk result (AreUnreadable source.now unreadable.now) }
{
    let mut lines = Lines::new(alloc, source);
    for error in unreadable {
        let text = format!(in alloc; "{error}")?;
        lines.add(error.start, text.as_str())?;
    }
    Ok(lines)
}

/// Adds a line for each entry that is left. Only where there are such is the source read once more.
fn add_left_of<F>(
    alloc: Global,
    ids: &Ids<'_, '_, F>,
    entries: &[ast::Entry<'_>],
    lines: &mut Lines<'_>,
) -> Result<(), AllocError>
    requires { map entry_view entries.now ≡ chunks.entries lines.old.source.now }
    ensures { OnOk result (AddsLeftBy ids.now lines.old lines.new) }
{
    let left = left_of(alloc, ids, entries)?;
    if left.is_empty() {
        return Ok(());
    }
    let starts = entry_starts(alloc, lines.source())?;
    add_left(alloc, starts.as_slice(), left.as_slice(), lines)
}

/// Adds a line for each entry that is left, by where each entry of the source begins.
fn add_left(
    alloc: Global,
    starts: &[usize],
    left: &[Left],
    lines: &mut Lines<'_>,
) -> Result<(), AllocError>
    requires { HaveStarts starts.now left.now }
    ensures { OnOk result (AddsLeft (left_at starts.now left.now) lines.old lines.new) }
{
    for one in left {
        let error = &one.error;
        let text = format!(in alloc; "{error}")?;
        lines.add(starts[one.entry], text.as_str())?;
    }
    Ok(())
}

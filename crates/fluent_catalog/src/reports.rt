//! What is wrong with the sources of several languages.
ghost use Rattle.std.specs.Prelude.{IfOk, OnOk, OnErr};
ghost use Rattle.fluent_bundle.specs.BundleView.{KeepsSettings};
ghost use Rattle.fluent_resource.specs.ResourceView.{IsRead, entries_of};
ghost use Rattle.fluent_catalog.specs.Reports.{AddsSource, MeansTheSame, TellsLeft, TellsNothing, TellsUnreadable};

use fluent_bundle::{
    AddFault, FluentBundle, FluentError, FluentFormatter, FluentFunction, FluentResource,
    FluentType, Means, MemoizerKind, ParserError, Transform,
};
use std::alloc::{AllocError, Global};

/// What is wrong with a source of a language, whose tag stands first.
#[derive(Debug, Drop)]
pub enum Report<'t> {
    /// Parts of the source that can't be read, in order, each by its range of bytes.
    Unreadable(&'t str, Vec<ParserError>),
    /// Entries that were left, in order, since their ids were there.
    Left(&'t str, Vec<FluentError>),
}

/// Reads a source of a language, as [`FluentResource::read`] does; a report of what can't be read, if there is any,
/// is added at the end of the list. The rest of the source is there all the same.
///
/// # Errors
///
/// An allocation failed: nothing was added.
pub fn read_source<'s>(
    alloc: Global,
    tag: &'s str,
    source: &'s str,
    reports: &mut Vec<Report<'s>>,
) -> Result<FluentResource<'s>, AllocError>
    ensures resource { IfOk result (λ resource. IsRead source.now resource) }
    ensures reports { OnOk result (TellsUnreadable tag.now source.now reports) }
    ensures err { OnErr result (TellsNothing reports) }
{
    let (resource, errors) = FluentResource::read(alloc, source)?;
    if !errors.is_empty() {
        reports.push(Report::Unreadable(tag, errors))?;
    }
    Ok(resource)
}

/// Adds the messages and terms of a resource of a language to its bundle, as [`FluentBundle::add_resource`] does; a
/// report of the entries that were left, if there are any, is added at the end of the list.
///
/// # Errors
///
/// An allocation failed: the bundle and the list are as before.
pub fn add_source<
    'r,
    's,
    M: MemoizerKind,
    C: FluentType,
    F: FluentFunction<C>,
    G: FluentFormatter<C, M>,
    T: Transform,
>(
    bundle: &mut FluentBundle<'r, 's, M, C, F, G, T>,
    tag: &'s str,
    resource: &'r FluentResource<'s>,
    reports: &mut Vec<Report<'s>>,
) -> Result<(), AllocError>
    ensures step { OnOk result (AddsSource ⟦<FluentBundle<'r, 's, M, C, F, G, T> as Means>⟧.meaning (entries_of resource.now) bundle) }
    ensures reports { OnOk result (TellsLeft tag.now (⟦<FluentBundle<'r, 's, M, C, F, G, T> as Means>⟧.meaning bundle.old)
        (entries_of resource.now) reports) }
    ensures err { OnErr result (MeansTheSame ⟦<FluentBundle<'r, 's, M, C, F, G, T> as Means>⟧.meaning bundle) }
    ensures none { OnErr result (TellsNothing reports) }
    ensures kept { KeepsSettings bundle.old bundle.new }
{
    reports.reserve(1)?;
    match bundle.add_resource(resource) {
        Ok(()) => Ok(()),
        Err(AddFault::Overriding(errors)) => {
            let _ = reports.push(Report::Left(tag, errors));
            Ok(())
        }
        Err(AddFault::Memory) => Err(AllocError),
    }
}

//! What the linter says of a bundle of files.

ghost use Rattle.std.specs.Prelude.{◌≡◌, [], IfOk, IsTrue, OnOk, map};
ghost use Rattle.fluent_places.specs.Places.{places_in, views};
ghost use Rattle.fluent_resource.specs.ResourceView.{entries_of};
ghost use Rattle.fluent_check.specs.Bundles.{bundle_view};
ghost use Rattle.fluent_sources.specs.Groups.{entries_loaded, group_view};
ghost use Rattle.fluent_check.specs.Linted.{AddsPlaces, IsLinted, NoneFails, is_none, places_of};
ghost use Rattle.fluent_sources.specs.ReadFiles.{entries_in, file_view};

use crate::bundle::Bundle;
use crate::whole::{Whole, whole_problems};
use fluent_bundle::FluentResource;
use fluent_clean::{Finding, laws, lint_places};
use fluent_places::{Place, places_of};
use fluent_sources::files::Read;
use fluent_sources::groups::Group;
use std::alloc::{AllocError, Global};

/// What the linter finds in files.
#[derive(Drop)]
pub(crate) struct Linted<'s> {
    /// The problems of whole values and attributes.
    pub problems: Vec<Whole<'s>>,
    /// The linter finds nothing at all.
    pub is_clean: bool,
}

/// Adds the values and attributes of a resource.
fn add_places_of<'s>(
    alloc: Global,
    resource: &FluentResource<'s>,
    places: &mut Vec<Place<'s>>,
) -> Result<(), AllocError>
    ensures { OnOk result (AddsPlaces (places_in (entries_of resource.now)) places.old places.new) }
{
    let more = places_of(alloc, resource.entries().as_slice())?;
    places.extend_from_slice(&more)?;
    Ok(())
}

/// Adds the values and attributes of files.
fn add_places<'s>(
    alloc: Global,
    files: &[Read<'_, 's>],
    places: &mut Vec<Place<'s>>,
) -> Result<(), AllocError>
    ensures { OnOk result
        (AddsPlaces (places_of (entries_in (map file_view files.now))) places.old places.new) }
{
    for file in files {
        add_places_of(alloc, file.resource, places)?;
    }
    Ok(())
}

/// The values and attributes of the files of a group.
fn places_loaded<'s>(alloc: Global, group: &Group<'_, '_, 's>) -> Result<Vec<Place<'s>>, AllocError>
    ensures { IfOk result (λ list. views list.items ≡ places_of (entries_loaded (group_view group.now))) }
{
    let mut places = Vec::new(alloc);
    add_places(alloc, group.beside, &mut places)?;
    add_places(alloc, group.own, &mut places)?;
    Ok(places)
}

/// What the linter finds in the files of a group, of which this is a bundle.
pub(crate) fn lint_all<'r, 's: 'r>(
    alloc: Global,
    bundle: &Bundle<'r, 's>,
    group: &Group<'_, '_, 's>,
) -> Result<Linted<'s>, AllocError>
    ensures linted { IfOk result (IsLinted (bundle_view bundle.now) (entries_loaded (group_view group.now))) }
    ensures clean { IfOk result
        (λ linted. IsTrue linted.is_clean → NoneFails (bundle_view bundle.now) (entries_loaded (group_view group.now))) }
{
    laws::fine_is_written();
    let places = places_loaded(alloc, group)?;
    let list = lint_places(alloc, bundle, &places, bundle.placeable_limit())?;
    let findings = list.as_slice();
    let is_clean = is_none(findings);
    let problems = whole_problems(alloc, bundle, findings)?;
    Ok(Linted { problems, is_clean })
}

/// Whether there are none.
fn is_none(findings: &[Finding<'_>]) -> bool
    ensures { result ≡ is_none findings.now }
{
    findings.is_empty()
}

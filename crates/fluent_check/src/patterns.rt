//! What is wrong in patterns.

ghost use Rattle.std.specs.Prelude.{◌≡◌, IfOk, OnOk, Some};
ghost use Rattle.fluent_ast.specs.View.{pattern_view};
ghost use Rattle.fluent_places.specs.Asked.{texts};
ghost use Rattle.fluent_places.specs.Places.{names_of};
ghost use Rattle.fluent_places.specs.PlaceView.{pattern_at};
ghost use Rattle.fluent_patterns.specs.Categories.{no_categories};
ghost use Rattle.fluent_patterns.specs.CategoryView.{categories_view};
ghost use Rattle.fluent_patterns.specs.Found.{AddsFound};
ghost use Rattle.fluent_patterns.specs.Terms.{AreOf};
ghost use Rattle.fluent_check.specs.Bundles.{bundle_view};
ghost use Rattle.fluent_check.specs.Called.{AddsNames};
ghost use Rattle.fluent_check.specs.Copied.{is_same, unless_copied};
ghost use Rattle.fluent_check.specs.Bundles.{names_by};
ghost use Rattle.fluent_check.specs.Patterns.{against_view, called_at, called_in, found_in_pattern, found_in_patterns, found_selects, found_selects_at};
ghost use Rattle.fluent_sources.specs.Standing.{standing_view, standings};

use crate::bundle::Bundle;
use crate::called::add_called;
use crate::flaws::add_flaws;
use crate::places::Places;
use fluent_ast::ast::Pattern;
use fluent_patterns::{Categories, Finding, Terms, no_categories, reference_flaws, select_flaws};
use fluent_places::{Place, pattern_at};
use fluent_sources::standing::Standing;
use std::alloc::{AllocError, Global};

/// What patterns are held against.
#[derive(Clone, Copy)]
pub(crate) struct Against<'b, 'r, 's> {
    pub bundle: &'b Bundle<'r, 's>,
    pub terms: &'b Terms<'s>,
    /// Functions that the application adds.
    pub functions: &'b [&'b str],
}

/// Adds what is wrong in the pattern that stands there.
fn add_at<'s>(
    alloc: Global,
    against: &Against<'_, '_, 's>,
    standing: &Standing<'_, 's>,
    findings: &mut Vec<Finding<'s>>,
) -> Result<(), AllocError>
    requires { AreOf (names_of (bundle_view against.now.bundle.now)) against.now.terms.now }
    ensures { OnOk result
        (AddsFound (found_in_pattern (against_view against.now) (standing_view standing.now)) findings.old findings.new) }
{
    let Some(pattern) = pattern_at(against.bundle, &standing.site.place) else {
        return Ok(());
    };
    let flaws = reference_flaws(
        alloc,
        against.bundle,
        against.functions,
        against.terms,
        pattern,
    )?;
    add_flaws(standing, flaws.as_slice(), findings)
}

/// Adds what is wrong in the patterns of these places.
pub(crate) fn add_patterns<'s>(
    alloc: Global,
    against: &Against<'_, '_, 's>,
    places: &Places<'_, 's>,
    findings: &mut Vec<Finding<'s>>,
) -> Result<(), AllocError>
    requires { AreOf (names_of (bundle_view against.now.bundle.now)) against.now.terms.now }
    ensures { OnOk result
        (AddsFound (found_in_patterns (against_view against.now) (standings places.now.list)) findings.old findings.new) }
{
    for standing in places.list.as_slice() {
        add_at(alloc, against, standing, findings)?;
    }
    Ok(())
}

/// Adds the functions that the pattern which stands there calls.
fn add_called_at<'s>(
    alloc: Global,
    bundle: &Bundle<'_, 's>,
    standing: &Standing<'_, 's>,
    ids: &mut Vec<&'s str>,
) -> Result<(), AllocError>
    ensures { OnOk result
        (AddsNames (called_at (names_of (bundle_view bundle.now)) (standing_view standing.now)) ids.old ids.new) }
{
    match pattern_at(bundle, &standing.site.place) {
        Some(pattern) => add_called(alloc, pattern, ids),
        None => Ok(()),
    }
}

/// Adds the functions that the patterns of these places call.
fn add_called_in<'s>(
    alloc: Global,
    bundle: &Bundle<'_, 's>,
    places: &Places<'_, 's>,
    ids: &mut Vec<&'s str>,
) -> Result<(), AllocError>
    ensures { OnOk result
        (AddsNames (called_in (names_of (bundle_view bundle.now)) (standings places.now.list)) ids.old ids.new) }
{
    for standing in places.list.as_slice() {
        add_called_at(alloc, bundle, standing, ids)?;
    }
    Ok(())
}

/// The functions that the patterns of these places call.
pub(crate) fn called_in<'s>(
    alloc: Global,
    bundle: &Bundle<'_, 's>,
    places: &Places<'_, 's>,
) -> Result<Vec<&'s str>, AllocError>
    ensures { IfOk result (λ ids. texts ids.items ≡ called_in (names_of (bundle_view bundle.now)) (standings places.now.list)) }
{
    let mut ids = Vec::new(alloc);
    add_called_in(alloc, bundle, places, &mut ids)?;
    Ok(ids)
}

/// Whether the same pattern stands at a place of the reference.
fn is_copied<'s>(pattern: &Pattern<'s>, reference: &Bundle<'_, 's>, place: &Place<'s>) -> bool
    ensures { result
        ≡ is_same (Some (pattern_view pattern.now)) (pattern_at (names_of (bundle_view reference.now)) place.now) }
{
    match pattern_at(reference, place) {
        Some(other) => *pattern == *other,
        None => false,
    }
}

/// The categories that a text is held against: none, where it is copied.
fn unless_copied<'c>(
    is_copied: bool,
    categories: &'c Categories,
    none: &'c Categories,
) -> &'c Categories
    requires { categories_view none.now ≡ no_categories }
    ensures { categories_view result.now ≡ unless_copied is_copied (categories_view categories.now) }
{
    if is_copied { none } else { categories }
}

/// Adds what is wrong with the selects of the pattern that stands there.
fn add_selects_at<'s>(
    alloc: Global,
    bundle: &Bundle<'_, 's>,
    reference: &Bundle<'_, 's>,
    categories: &Categories,
    standing: &Standing<'_, 's>,
    findings: &mut Vec<Finding<'s>>,
) -> Result<(), AllocError>
    ensures { OnOk result
        (AddsFound
        (found_selects_at (names_by bundle.now) (names_by reference.now)
        (categories_view categories.now) (standing_view standing.now))
        findings.old findings.new) }
{
    let Some(pattern) = pattern_at(bundle, &standing.site.place) else {
        return Ok(());
    };
    let is_copied = is_copied(pattern, reference, &standing.site.place);
    let none = no_categories(alloc);
    let judging = unless_copied(is_copied, categories, &none);
    let flaws = select_flaws(alloc, judging, pattern)?;
    add_flaws(standing, flaws.as_slice(), findings)
}

/// Adds what is wrong with the selects of the patterns of these places, beside those of a reference.
pub(crate) fn add_selects<'s>(
    alloc: Global,
    bundle: &Bundle<'_, 's>,
    reference: &Bundle<'_, 's>,
    categories: &Categories,
    places: &Places<'_, 's>,
    findings: &mut Vec<Finding<'s>>,
) -> Result<(), AllocError>
    ensures { OnOk result
        (AddsFound
        (found_selects (names_by bundle.now) (names_by reference.now)
        (categories_view categories.now) (standings places.now.list))
        findings.old findings.new) }
{
    for standing in places.list.as_slice() {
        add_selects_at(alloc, bundle, reference, categories, standing, findings)?;
    }
    Ok(())
}

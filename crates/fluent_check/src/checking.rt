//! All that is found in files.

ghost use Rattle.std.specs.Prelude.{◌≡◌, [], ◌∷◌, IfOk, IsTrue, OnOk, map};
ghost use Rattle.fluent_places.specs.Places.{names_of};
ghost use Rattle.fluent_patterns.specs.CategoryView.{categories_view};
ghost use Rattle.fluent_patterns.specs.Found.{AddsFound};
ghost use Rattle.fluent_check.specs.Bundles.{bundle_view};
ghost use Rattle.fluent_check.specs.Differences.{reference_names};
ghost use Rattle.fluent_check.specs.Faultless.{AreFaultlessBy, tag_of};
ghost use Rattle.fluent_sources.specs.Groups.{entries_loaded, group_view, groups_from, groups_of, loaded, read_group};
ghost use Rattle.fluent_check.specs.Inside.Faultless.{AreEachFaultless, AreFaultlessFiles, IsFaultlessBy, calling};
ghost use Rattle.fluent_check.specs.Inside.Looks.{AddsAllDifferences, AddsDifferences, AddsLinted, AddsLooks, AddsPatternsBy};
ghost use Rattle.fluent_check.specs.Bundles.{names_by};
ghost use Rattle.fluent_check.specs.Inside.Places.{place_found};
ghost use Rattle.fluent_check.specs.Linted.{NoneFails};
ghost use Rattle.fluent_check.specs.Looks.{IsFound, categories_if};
ghost use Rattle.fluent_check.specs.Places.{keys_of, place_of};
ghost use Rattle.fluent_sources.specs.Ids.{found_ids};
ghost use Rattle.fluent_sources.specs.Reading.{entries_read};
ghost use Rattle.fluent_sources.specs.Standing.{standing_view, standings};
ghost use Rattle.fluent_check.specs.Whole.{found_whole, found_wholes, whole_view, wholes};

use crate::bundle::{Bundle, bundle_of_group};
use crate::called::add_functions;
use crate::linted::lint_all;
use crate::patterns::{Against, add_patterns, add_selects, called_in};
use crate::places::{Places, places_of};
use crate::referred::{Edition, add_referred};
use crate::whole::Whole;
use fluent_patterns::{Categories, Finding, Part, categories_of, no_categories, terms_at};
use fluent_places::Place;
use fluent_sources::files::{Read, all_files};
use fluent_sources::groups::Group;
use fluent_sources::source::Sources;
use fluent_sources::standing::{Standing, standings_in};
use fluent_sources::unreadable::unreadable;
use fluent_sources::{Grouping, found_ids};
use std::alloc::{AllocError, Global};

/// How files are looked at.
#[derive(Clone, Copy, Drop)]
pub struct Settings<'w> {
    /// The language of the files, whose plural categories selects are held against.
    pub language: Option<&'w str>,
    pub grouping: Grouping,
    /// Functions that the application adds.
    pub functions: &'w [&'w str],
    /// Whether a category is missed that no whole number from 0 to 999 has.
    pub has_all_categories: bool,
}

/// What is found.
#[derive(Drop)]
pub struct Found<'s> {
    pub findings: Vec<Finding<'s>>,
    /// Whether the linter finds nothing in the files, where the functions that they call are there.
    pub is_clean: bool,
}

/// The categories of the language that is given, if one is.
fn categories_for(alloc: Global, settings: &Settings<'_>) -> Result<Categories, AllocError>
    ensures { IfOk result
        (λ c. categories_view c ≡ categories_if settings.now.language settings.now.has_all_categories) }
{
    match settings.language {
        Some(tag) => categories_of(alloc, tag, settings.has_all_categories),
        None => Ok(no_categories(alloc)),
    }
}

/// Adds ids and names that stand there twice.
fn add_names<'s>(
    alloc: Global,
    standings: &[Standing<'_, 's>],
    findings: &mut Vec<Finding<'s>>,
) -> Result<(), AllocError>
    ensures { OnOk result (AddsFound (found_ids (map standing_view standings.now)) findings.old findings.new) }
{
    let mut found = found_ids(alloc, standings)?;
    findings.append(&mut found)
}

/// Adds what is wrong in the patterns of a bundle's places, beside those of a reference.
fn add_of_patterns<'r, 's>(
    alloc: Global,
    settings: &Settings<'_>,
    categories: &Categories,
    reference: &Bundle<'r, 's>,
    bundle: &Bundle<'r, 's>,
    places: &Places<'_, 's>,
    findings: &mut Vec<Finding<'s>>,
) -> Result<(), AllocError>
    requires { keys_of places.now ≡ map place_of (standings places.now.list) }
    ensures { OnOk result (AddsPatternsBy settings.now (names_by bundle.now) (names_by reference.now)
        (categories_view categories.now) (standings places.now.list) findings.old findings.new) }
{
    let terms = terms_at(alloc, bundle, places.keys.as_slice())?;
    let against = Against {
        bundle,
        terms: &terms,
        functions: settings.functions,
    };
    add_patterns(alloc, &against, places, findings)?;
    add_selects(alloc, bundle, reference, categories, places, findings)
}

/// Adds what is wrong with a whole value or attribute, where it stands.
fn add_whole<'s>(
    places: &Places<'_, 's>,
    whole: &Whole<'s>,
    findings: &mut Vec<Finding<'s>>,
) -> Result<(), AllocError>
    ensures { OnOk result
        (AddsFound (found_whole (place_found places.now) (whole_view whole.now)) findings.old findings.new) }
{
    let Some(standing) = places.get(&whole.place) else {
        return Ok(());
    };
    findings.push(standing.found(Part::Whole, whole.problem))?;
    Ok(())
}

/// Adds what is wrong with whole values and attributes, where each stands.
fn add_wholes<'s>(
    places: &Places<'_, 's>,
    list: &[Whole<'s>],
    findings: &mut Vec<Finding<'s>>,
) -> Result<(), AllocError>
    ensures { OnOk result
        (AddsFound (found_wholes (place_found places.now) (wholes list.now)) findings.old findings.new) }
{
    for whole in list {
        add_whole(places, whole, findings)?;
    }
    Ok(())
}

/// Adds what the linter finds of whole places, in the bundle that has each function that is called. Says whether it finds
/// nothing at all.
fn add_linted<'r, 's: 'r>(
    alloc: Global,
    bundle: &mut Bundle<'r, 's>,
    group: &Group<'_, '_, 's>,
    places: &Places<'_, 's>,
    findings: &mut Vec<Finding<'s>>,
) -> Result<bool, AllocError>
    requires { keys_of places.now ≡ map place_of (standings places.now.list) }
    ensures linted { IfOk result (AddsLinted (bundle_view bundle.old) (names_of (bundle_view bundle.old))
        (standings places.now.list) (group_view group.now) findings.old findings.new) }
    ensures clean { IfOk result (λ yes. IsTrue yes
        → NoneFails (calling (bundle_view bundle.old) (standings places.now.list)) (entries_loaded (group_view group.now))) }
{
    let called = called_in(alloc, bundle, places)?;
    add_functions(bundle, called.as_slice())?;
    let linted = lint_all(alloc, bundle, group)?;
    add_wholes(places, linted.problems.as_slice(), findings)?;
    Ok(linted.is_clean)
}

/// Adds what is found in the files of a group, and says whether the linter finds nothing in them.
fn add_files<'s>(
    alloc: Global,
    settings: &Settings<'_>,
    categories: &Categories,
    group: &Group<'_, '_, 's>,
    findings: &mut Vec<Finding<'s>>,
) -> Result<bool, AllocError>
    requires { categories_view categories.now ≡ categories_if settings.now.language settings.now.has_all_categories }
    ensures looks { IfOk result (AddsLooks settings.now (group_view group.now ∷ []) findings.old findings.new) }
    ensures clean { IfOk result (λ yes. IsTrue yes
        → AreFaultlessFiles (tag_of settings.now.language) (loaded (group_view group.now))) }
{
    let standings = standings_in(alloc, group)?;
    add_names(alloc, standings.as_slice(), findings)?;
    let mut bundle = bundle_of_group(alloc, tag_of(settings.language), group)?;
    let places = places_of(alloc, &bundle, standings.as_slice())?;
    let references = Group::alone(group.references);
    let english = bundle_of_group(alloc, "en", &references)?;
    add_of_patterns(
        alloc, settings, categories, &english, &bundle, &places, findings,
    )?;
    add_compared(alloc, group, &english, &bundle, &places, findings)?;
    add_linted(alloc, &mut bundle, group, &places, findings)
}

/// Adds how the own files of a group differ from those that they were translated from, of which this is the bundle.
fn add_differences<'s>(
    alloc: Global,
    group: &Group<'_, '_, 's>,
    english: &Bundle<'_, 's>,
    bundle: &Bundle<'_, 's>,
    places: &Places<'_, 's>,
    findings: &mut Vec<Finding<'s>>,
) -> Result<(), AllocError>
    requires english { names_of (bundle_view english.now) ≡ reference_names (group_view group.now) }
    requires keys { keys_of places.now ≡ map place_of (standings places.now.list) }
    ensures { OnOk result (AddsAllDifferences (group_view group.now) (names_of (bundle_view bundle.now))
        (standings places.now.list) findings.old findings.new) }
{
    let references = Group::alone(group.references);
    let standings = standings_in(alloc, &references)?;
    let there = places_of(alloc, english, standings.as_slice())?;
    let reference = Edition::new(alloc, english, &there)?;
    let translation = Edition::new(alloc, bundle, places)?;
    let first = group.beside.len();
    add_referred(alloc, &reference, &translation, first, findings)
}

/// The same, if there are any such files.
fn add_compared<'s>(
    alloc: Global,
    group: &Group<'_, '_, 's>,
    english: &Bundle<'_, 's>,
    bundle: &Bundle<'_, 's>,
    places: &Places<'_, 's>,
    findings: &mut Vec<Finding<'s>>,
) -> Result<(), AllocError>
    requires english { names_of (bundle_view english.now) ≡ reference_names (group_view group.now) }
    requires keys { keys_of places.now ≡ map place_of (standings places.now.list) }
    ensures { OnOk result (AddsDifferences (group_view group.now) (names_of (bundle_view bundle.now))
        (standings places.now.list) findings.old findings.new) }
{
    let Some(_) = group.references.first() else {
        return Ok(());
    };
    add_differences(alloc, group, english, bundle, places, findings)
}

/// The language of the files, or English.
fn tag_of<'w>(language: Option<&'w str>) -> &'w str
    ensures { result.now ≡ tag_of language.entry }
{
    match language {
        Some(tag) => tag,
        None => "en",
    }
}

/// Adds what is found in each of a group's own files for itself, and says whether the linter finds nothing in any of them.
fn add_each<'s>(
    alloc: Global,
    settings: &Settings<'_>,
    categories: &Categories,
    all: &Group<'_, '_, 's>,
    findings: &mut Vec<Finding<'s>>,
) -> Result<bool, AllocError>
    requires { categories_view categories.now ≡ categories_if settings.now.language settings.now.has_all_categories }
    ensures looks { IfOk result (AddsLooks settings.now
        (groups_from settings.now.grouping (group_view all.now) 0 (group_view all.now).own) findings.old findings.new) }
    ensures clean { IfOk result (λ yes. IsTrue yes → AreEachFaultless (tag_of settings.now.language) (group_view all.now)) }
{
    let mut is_clean = true;
    for (index, file) in all.own.iter().enumerate() {
        let group = all.of_file(settings.grouping, index, file);
        if !add_files(alloc, settings, categories, &group, findings)? {
            is_clean = false;
        }
    }
    Ok(is_clean)
}

/// Adds what is found in the files of all groups, and says whether the linter finds nothing in any of them.
fn add_groups<'s>(
    alloc: Global,
    settings: &Settings<'_>,
    categories: &Categories,
    all: &Group<'_, '_, 's>,
    findings: &mut Vec<Finding<'s>>,
) -> Result<bool, AllocError>
    requires { categories_view categories.now ≡ categories_if settings.now.language settings.now.has_all_categories }
    ensures looks { IfOk result
        (AddsLooks settings.now (groups_of settings.now.grouping (group_view all.now)) findings.old findings.new) }
    ensures clean { IfOk result
        (λ yes. IsTrue yes → IsFaultlessBy settings.now.grouping (tag_of settings.now.language) (group_view all.now)) }
{
    match settings.grouping {
        Grouping::Together => add_files(alloc, settings, categories, all, findings),
        Grouping::Each => add_each(alloc, settings, categories, all, findings),
        Grouping::Pairs => add_each(alloc, settings, categories, all, findings),
    }
}

/// All that is found in these files, where those beside are loaded with each of the others. They are numbered from 0: those
/// beside, then the sources, then the references.
///
/// Where the linter finds nothing, no value and no attribute of the files ever shows an error, for all arguments that give
/// what it asks for, in a bundle that has them and each function that they call.
///
/// # Errors
///
/// An allocation failed.
pub fn findings<'s>(
    alloc: Global,
    settings: &Settings<'_>,
    beside: &Sources<'s>,
    sources: &Sources<'s>,
    references: &Sources<'s>,
) -> Result<Found<'s>, AllocError>
    ensures found { IfOk result (IsFound settings.now (read_group beside.now sources.now references.now)) }
    ensures clean { IfOk result (λ found. IsTrue found.is_clean
        → AreFaultlessBy settings.now.grouping (tag_of settings.now.language) (entries_read beside.now) (entries_read sources.now)) }
{
    let files = all_files(alloc, beside, sources, references)?;
    let mut findings = unreadable(alloc, files.list.as_slice())?;
    let categories = categories_for(alloc, settings)?;
    let all = Group::of_all(&files);
    let is_clean = add_groups(alloc, settings, &categories, &all, &mut findings)?;
    Ok(Found { findings, is_clean })
}

//! A translation beside the files that it was translated from.

ghost use Rattle.std.specs.Prelude.{◌≡◌, IfOk, OnOk};
ghost use Rattle.std.specs.Option.{option_map};
ghost use Rattle.fluent_places.specs.Places.{place_view};
ghost use Rattle.fluent_patterns.specs.Found.{AddsFound, flaws_in};
ghost use Rattle.fluent_check.specs.Alone.{side_view};
ghost use Rattle.fluent_differences.specs.Compared.{wording_view};
ghost use Rattle.fluent_check.specs.Differences.{all_differences, all_here, all_there, compared, edition_view, is_of_message, side_of, told_here, told_there, wording_at};
ghost use Rattle.fluent_check.specs.Inside.Editions.{IsEdition};
ghost use Rattle.fluent_sources.specs.Standing.{standing_view, standings};

use crate::alone::{Side, add_unreferenced, add_untranslated};
use crate::bundle::Bundle;
use crate::flaws::add_flaws;
use crate::places::Places;
use fluent_differences::{Wording, differences};
use fluent_patterns::{Finding, Flaw};
use fluent_places::{Asked, Place, pattern_at, variables_at};
use fluent_sources::standing::Standing;
use std::alloc::{AllocError, Global};

/// A translation, or its reference: its bundle, where its values and attributes stand, and what each asks for.
#[derive(Drop)]
pub(crate) struct Edition<'b, 'a, 'r, 's> {
    pub bundle: &'b Bundle<'r, 's>,
    pub places: &'b Places<'a, 's>,
    pub asked: Asked<'s>,
}

impl<'b, 'a, 'r, 's> Edition<'b, 'a, 'r, 's> {
    pub(crate) fn new(
        alloc: Global,
        bundle: &'b Bundle<'r, 's>,
        places: &'b Places<'a, 's>,
    ) -> Result<Edition<'b, 'a, 'r, 's>, AllocError>
        ensures { IfOk result (IsEdition bundle.now places.now) }
    {
        let asked = variables_at(alloc, bundle, places.keys.as_slice())?;
        Ok(Edition {
            bundle,
            places,
            asked,
        })
    }

    fn side(&self) -> Side<'_, 'r, 's>
        ensures { side_view result ≡ side_of (edition_view self.now) }
    {
        Side {
            bundle: self.bundle,
            places: &self.places.keys,
        }
    }

    /// The pattern that stands at a place, and the variables for which it asks.
    fn wording(&self, place: &Place<'s>) -> Option<Wording<'_, 's>>
        ensures { option_map wording_view result ≡ wording_at (edition_view self.now) (place_view place.now) }
    {
        let Some(pattern) = pattern_at(self.bundle, place) else {
            return None;
        };
        let Some(asked) = self.asked.of(place) else {
            return None;
        };
        Some(Wording { pattern, asked })
    }
}

/// Whether a place is one of a message.
fn is_of_message(place: &Place<'_>) -> bool
    ensures { result ≡ is_of_message (place_view place.now) }
{
    match place {
        Place::Message(..) => true,
        Place::Term(..) => false,
    }
}

/// How a value or an attribute of a message differs from that of the reference, where both have it.
fn compared<'s>(
    alloc: Global,
    reference: &Edition<'_, '_, '_, 's>,
    translation: &Edition<'_, '_, '_, 's>,
    place: &Place<'s>,
) -> Result<Vec<Flaw<'s>>, AllocError>
    ensures { IfOk result (λ flaws. flaws_in flaws
        ≡ compared (edition_view reference.now) (edition_view translation.now) (place_view place.now)) }
{
    if !is_of_message(place) {
        return Ok(Vec::new(alloc));
    }
    let Some(there) = reference.wording(place) else {
        return Ok(Vec::new(alloc));
    };
    let Some(here) = translation.wording(place) else {
        return Ok(Vec::new(alloc));
    };
    differences(alloc, &translation.places.keys, &there, &here)
}

/// Adds what is told of a value or an attribute of the translation.
fn add_here<'s>(
    alloc: Global,
    reference: &Edition<'_, '_, '_, 's>,
    translation: &Edition<'_, '_, '_, 's>,
    standing: &Standing<'_, 's>,
    findings: &mut Vec<Finding<'s>>,
) -> Result<(), AllocError>
    ensures { OnOk result (AddsFound
        (told_here (edition_view reference.now) (edition_view translation.now) (standing_view standing.now))
        findings.old findings.new) }
{
    let place = &standing.site.place;
    let mut flaws = compared(alloc, reference, translation, place)?;
    add_unreferenced(&reference.side(), &translation.side(), place, &mut flaws)?;
    add_flaws(standing, flaws.as_slice(), findings)
}

/// Adds what is told of a value or an attribute of the reference.
fn add_there<'s>(
    alloc: Global,
    reference: &Edition<'_, '_, '_, 's>,
    translation: &Edition<'_, '_, '_, 's>,
    standing: &Standing<'_, 's>,
    findings: &mut Vec<Finding<'s>>,
) -> Result<(), AllocError>
    ensures { OnOk result (AddsFound
        (told_there (edition_view reference.now) (edition_view translation.now) (standing_view standing.now))
        findings.old findings.new) }
{
    let mut flaws = Vec::new(alloc);
    add_untranslated(
        &reference.side(),
        &translation.side(),
        &standing.site.place,
        &mut flaws,
    )?;
    add_flaws(standing, flaws.as_slice(), findings)
}

/// Adds what is told of the translation. Files with numbers below this one stand beside it, and aren't compared.
fn add_all_here<'s>(
    alloc: Global,
    reference: &Edition<'_, '_, '_, 's>,
    translation: &Edition<'_, '_, '_, 's>,
    first: usize,
    findings: &mut Vec<Finding<'s>>,
) -> Result<(), AllocError>
    ensures { OnOk result (AddsFound
        (all_here first (edition_view reference.now) (edition_view translation.now)
        (standings translation.now.places.now.list))
        findings.old findings.new) }
{
    for standing in translation.places.list.as_slice() {
        if first <= standing.file {
            add_here(alloc, reference, translation, standing, findings)?;
        }
    }
    Ok(())
}

/// Adds what is told of the reference.
fn add_all_there<'s>(
    alloc: Global,
    reference: &Edition<'_, '_, '_, 's>,
    translation: &Edition<'_, '_, '_, 's>,
    findings: &mut Vec<Finding<'s>>,
) -> Result<(), AllocError>
    ensures { OnOk result (AddsFound
        (all_there (edition_view reference.now) (edition_view translation.now)
        (standings reference.now.places.now.list))
        findings.old findings.new) }
{
    for standing in reference.places.list.as_slice() {
        add_there(alloc, reference, translation, standing, findings)?;
    }
    Ok(())
}

/// Adds how a translation differs from its reference. Files with numbers below this one stand beside the translation, and
/// are no part of it.
pub(crate) fn add_referred<'s>(
    alloc: Global,
    reference: &Edition<'_, '_, '_, 's>,
    translation: &Edition<'_, '_, '_, 's>,
    first: usize,
    findings: &mut Vec<Finding<'s>>,
) -> Result<(), AllocError>
    ensures { OnOk result (AddsFound
        (all_differences first (edition_view reference.now) (edition_view translation.now))
        findings.old findings.new) }
{
    add_all_here(alloc, reference, translation, first, findings)?;
    add_all_there(alloc, reference, translation, findings)
}

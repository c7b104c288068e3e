//! What stands in a translation or in its reference alone.

ghost use Rattle.std.specs.Prelude.{◌≡◌, OnOk};
ghost use Rattle.fluent_places.specs.Places.{place_view};
ghost use Rattle.fluent_patterns.specs.Found.{AddsFlaws, problem_view};
ghost use Rattle.fluent_check.specs.Alone.{has_message, is_alone, is_of_message, is_told, side_view, unreferenced, untranslated, whole_if};

use crate::bundle::Bundle;
use fluent_differences::stands;
use fluent_patterns::{Flaw, Part, Problem};
use fluent_places::Place;
use indexmap::IndexSet;
use std::alloc::AllocError;

/// A translation, or its reference.
#[derive(Clone, Copy, Drop)]
pub(crate) struct Side<'b, 'r, 's> {
    /// Of all its files.
    pub bundle: &'b Bundle<'r, 's>,
    /// The values and attributes that stand in the bundle.
    pub places: &'b IndexSet<Place<'s>>,
}

/// Whether a side has a message.
fn has_message(side: &Side<'_, '_, '_>, id: &str) -> bool
    ensures { result ≡ has_message (side_view side.now) id.now }
{
    side.bundle.has_message(id)
}

/// Whether a value or an attribute that the other side lacks is told: an attribute is not where the whole message is
/// missing and its value is told.
fn is_told<'s>(here: &Side<'_, '_, 's>, there: &Side<'_, '_, 's>, place: &Place<'s>) -> bool
    ensures { result ≡ is_told (side_view here.now) (side_view there.now) (place_view place.now) }
{
    match place {
        Place::Message(_, None) => true,
        Place::Message(id, Some(_)) => {
            has_message(there, id.name) || !stands(here.places, &Place::Message(*id, None))
        }
        Place::Term(_, _) => false,
    }
}

/// Whether what stands at a place of one side is missing on the other, and that is told.
fn is_alone<'s>(here: &Side<'_, '_, 's>, there: &Side<'_, '_, 's>, place: &Place<'s>) -> bool
    ensures { result ≡ is_alone (side_view here.now) (side_view there.now) (place_view place.now) }
{
    !stands(there.places, place) && is_told(here, there, place)
}

/// Whether a place is the value of a message that a side has.
fn is_of_message(side: &Side<'_, '_, '_>, place: &Place<'_>) -> bool
    ensures { result ≡ is_of_message (side_view side.now) (place_view place.now) }
{
    match place {
        Place::Message(id, None) => has_message(side, id.name),
        Place::Message(_, Some(_)) => false,
        Place::Term(_, _) => false,
    }
}

/// Adds a problem of the whole, where there is one.
fn add_if<'s>(
    is_there: bool,
    problem: Problem<'s>,
    flaws: &mut Vec<Flaw<'s>>,
) -> Result<(), AllocError>
    ensures { OnOk result (AddsFlaws (whole_if is_there (problem_view problem.entry)) flaws.old flaws.new) }
{
    if is_there {
        flaws.push(Flaw {
            part: Part::Whole,
            problem,
        })?;
    }
    Ok(())
}

/// Adds that what stands at a place of the reference is not translated, where it isn't.
pub(crate) fn add_untranslated<'s>(
    reference: &Side<'_, '_, 's>,
    translation: &Side<'_, '_, 's>,
    place: &Place<'s>,
    flaws: &mut Vec<Flaw<'s>>,
) -> Result<(), AllocError>
    ensures { OnOk result (AddsFlaws
        (untranslated (side_view reference.now) (side_view translation.now) (place_view place.now))
        flaws.old flaws.new) }
{
    let problem = if is_of_message(translation, place) {
        Problem::ValueNotTranslated
    } else {
        Problem::NotTranslated
    };
    add_if(is_alone(reference, translation, place), problem, flaws)
}

/// Adds that what stands at a place of the translation is not in the reference, where it isn't.
pub(crate) fn add_unreferenced<'s>(
    reference: &Side<'_, '_, 's>,
    translation: &Side<'_, '_, 's>,
    place: &Place<'s>,
    flaws: &mut Vec<Flaw<'s>>,
) -> Result<(), AllocError>
    ensures { OnOk result (AddsFlaws
        (unreferenced (side_view reference.now) (side_view translation.now) (place_view place.now))
        flaws.old flaws.new) }
{
    let problem = if is_of_message(reference, place) {
        Problem::ValueNotInReference
    } else {
        Problem::NotInReference
    };
    add_if(is_alone(translation, reference, place), problem, flaws)
}

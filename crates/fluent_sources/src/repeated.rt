//! Ids and names of attributes that can't be had where they stand.

ghost use Rattle.std.specs.Prelude.{◌≡◌, [], IfOk, OnOk, map};
ghost use Rattle.std.specs.Option.{option_map};
ghost use Rattle.fluent_places.specs.Places.{place_view};
ghost use Rattle.fluent_patterns.specs.Found.{AddsFound};
ghost use Rattle.fluent_sources.specs.Inside.Ids.{Repeats};
ghost use Rattle.fluent_sources.specs.Repeated.{attribute_in, function_ids, is_function_id, repeated_attributes};
ghost use Rattle.fluent_sources.specs.Standing.{standing_view};

use crate::standing::Standing;
use fluent_patterns::{Finding, Part, Problem};
use fluent_places::Place;
use indexmap::IndexSet;
use std::alloc::{AllocError, Global};

/// The id of the function that each bundle has here.
const BUILTIN: &str = "NUMBER";

/// Whether a place is the value of an entry with the id of the built-in function.
fn is_function_id(place: &Place<'_>) -> bool
    ensures { result ≡ is_function_id (place_view place.now) }
{
    match place {
        Place::Message(id, None) | Place::Term(id, None) => id.name == BUILTIN,
        Place::Message(_, Some(_)) | Place::Term(_, Some(_)) => false,
    }
}

/// Adds the entries whose id is that of the built-in function.
pub(crate) fn add_function_ids<'s>(
    standings: &[Standing<'_, 's>],
    findings: &mut Vec<Finding<'s>>,
) -> Result<(), AllocError>
    ensures { OnOk result (AddsFound (function_ids (map standing_view standings.now)) findings.old findings.new) }
{
    for standing in standings {
        if is_function_id(&standing.site.place) {
            findings.push(standing.found(Part::Whole, Problem::FunctionId))?;
        }
    }
    Ok(())
}

/// The name of the attribute at a place.
fn attribute_in<'s>(place: &Place<'s>) -> Option<&'s str>
    ensures { option_map (λ name. name.now) result ≡ attribute_in (place_view place.now) }
{
    match place {
        Place::Message(_, Some(attribute)) | Place::Term(_, Some(attribute)) => {
            Some(attribute.name)
        }
        Place::Message(_, None) | Place::Term(_, None) => None,
    }
}

/// Adds that an attribute's entry has one of its name before, or notes the name. A value begins an entry anew.
fn add_at<'s>(
    alloc: Global,
    standing: &Standing<'_, 's>,
    mut names: IndexSet<&'s str>,
    findings: &mut Vec<Finding<'s>>,
) -> Result<IndexSet<&'s str>, AllocError>
    ensures { IfOk result
        (λ kept. Repeats (standing_view standing.now) names.entry kept findings.old findings.new) }
{
    let Some(name) = attribute_in(&standing.site.place) else {
        return Ok(IndexSet::new(alloc));
    };
    if names.insert(name)? {
        return Ok(names);
    }
    findings.push(standing.found(Part::Whole, Problem::RepeatedAttribute))?;
    Ok(names)
}

/// Adds the attributes whose entry has one of their name before.
pub(crate) fn add_repeated<'s>(
    alloc: Global,
    standings: &[Standing<'_, 's>],
    findings: &mut Vec<Finding<'s>>,
) -> Result<(), AllocError>
    ensures { OnOk result
        (AddsFound (repeated_attributes [] (map standing_view standings.now)) findings.old findings.new) }
{
    let mut names: IndexSet<&'s str> = IndexSet::new(alloc);
    for standing in standings {
        names = add_at(alloc, standing, names, findings)?;
    }
    Ok(())
}

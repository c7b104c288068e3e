//! What messages and terms ask for.

ghost use Rattle.std.specs.Prelude.{IfOk, OnOk, flat_map};
ghost use Rattle.fluent_sources.specs.Files.{Adds};
ghost use Rattle.fluent_places.specs.Asked.{texts};
ghost use Rattle.fluent_places.specs.Places.{place_view, views};
ghost use Rattle.fluent_cli.specs.Inside.Listing.{line_by};
ghost use Rattle.fluent_cli.specs.Listed.{IsListed, variable_text};

use crate::answer::{Answer, Status};
use fluent_check::{Sources, list_places};
use fluent_cli_report::fault_lines;
use fluent_places::{Asked, Place};
use fluent_sources::wording::place_text;
use std::alloc::{AllocError, Global};

/// Writes variables.
fn put_variables(variables: &[&str], text: &mut String) -> Result<(), AllocError>
    ensures { OnOk result (Adds (flat_map variable_text (texts variables.now)) text.old text.new) }
{
    for variable in variables {
        write!(text, " ${variable}")?;
    }
    Ok(())
}

/// Writes the line of a value or an attribute: its name, and the variables that it asks for.
fn put_line<'s>(
    alloc: Global,
    asked: &Asked<'s>,
    place: &Place<'s>,
    text: &mut String,
) -> Result<(), AllocError>
    ensures { OnOk result (Adds (line_by asked.now (place_view place.now)) text.old text.new) }
{
    let name = place_text(alloc, place)?;
    text.push_str(name.as_str())?;
    if let Some(variables) = asked.of(place) {
        put_variables(variables.as_slice(), text)?;
    }
    text.push_str("\n")
}

/// Writes the lines of values and attributes.
fn put_lines<'s>(
    alloc: Global,
    asked: &Asked<'s>,
    places: &[Place<'s>],
    text: &mut String,
) -> Result<(), AllocError>
    ensures { OnOk result (Adds (flat_map (line_by asked.now) (views places.now)) text.old text.new) }
{
    for place in places {
        put_line(alloc, asked, place, text)?;
    }
    Ok(())
}

/// Lists the values and attributes of these sources, each on a line with the variables that it asks for.
pub(crate) fn list(alloc: Global, sources: &Sources<'_>) -> Result<Answer, AllocError>
    ensures { IfOk result (IsListed sources.now) }
{
    let listing = list_places(alloc, sources)?;
    let mut output = String::new(alloc);
    put_lines(
        alloc,
        &listing.asked,
        listing.places.as_slice(),
        &mut output,
    )?;
    let errors = fault_lines(alloc, sources)?;
    Ok(Answer {
        status: Status::Fine,
        output,
        errors,
    })
}

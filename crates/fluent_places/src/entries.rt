//! The places of entries.

ghost use Rattle.std.specs.Prelude.{◌≡◌, IfOk, OnOk, map};
ghost use Rattle.fluent_ast.specs.View.{entry_view};
ghost use Rattle.fluent_places.specs.Inside.Listing.{AddsOfMessage, AddsOfTerm, AddsPlaces};
ghost use Rattle.fluent_places.specs.Places.{views, places_of, places_in};

use crate::place::Place;
use fluent_ast::ast::{Attribute, Entry, Identifier};
use std::alloc::{AllocError, Global};

/// The places of entries, in order: of each message or term its value, then its attributes. A message that has no value
/// has the place of it all the same. What can't be read has none.
///
/// # Errors
///
/// An allocation failed.
pub fn places_of<'s>(alloc: Global, entries: &[Entry<'s>]) -> Result<Vec<Place<'s>>, AllocError>
    ensures { IfOk result (λ places. views places.items ≡ places_in (map entry_view entries.now)) }
{
    let mut places = Vec::new(alloc);
    for entry in entries {
        add_entry(entry, &mut places)?;
    }
    Ok(places)
}

#[tactic(auto, using(crate::proofs::PlaceLists::pushed_then))]
fn add_entry<'s>(entry: &Entry<'s>, places: &mut Vec<Place<'s>>) -> Result<(), AllocError>
    ensures { OnOk result (AddsPlaces places.old places.new (places_of (entry_view entry.now))) }
{
    match entry {
        Entry::Message(message) => {
            places.push(Place::Message(message.id, None))?;
            add_of_message(message.id, &message.attributes, places)
        }
        Entry::Term(term) => {
            places.push(Place::Term(term.id, None))?;
            add_of_term(term.id, &term.attributes, places)
        }
        Entry::Junk { .. } => Ok(()),
    }
}

fn add_of_message<'s>(
    id: Identifier<'s>,
    attributes: &[Attribute<'s>],
    places: &mut Vec<Place<'s>>,
) -> Result<(), AllocError>
    ensures { OnOk result (AddsOfMessage id.entry attributes.now places.old places.new) }
{
    for attribute in attributes {
        places.push(Place::Message(id, Some(attribute.id)))?;
    }
    Ok(())
}

fn add_of_term<'s>(
    id: Identifier<'s>,
    attributes: &[Attribute<'s>],
    places: &mut Vec<Place<'s>>,
) -> Result<(), AllocError>
    ensures { OnOk result (AddsOfTerm id.entry attributes.now places.old places.new) }
{
    for attribute in attributes {
        places.push(Place::Term(id, Some(attribute.id)))?;
    }
    Ok(())
}

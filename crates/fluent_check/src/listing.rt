//! The values and attributes of files, with what each asks for.

ghost use Rattle.std.specs.Prelude.{◌≡◌, IfOk, codes, map};
ghost use Rattle.fluent_places.specs.Places.{names_of, views};
ghost use Rattle.fluent_check.specs.Bundles.{bundle_view};
ghost use Rattle.fluent_sources.specs.Groups.{entries_loaded, group_view, loaded};
ghost use Rattle.fluent_check.specs.Languages.{all_of};
ghost use Rattle.fluent_check.specs.Listed.{IsListing, ListsAll};
ghost use Rattle.fluent_check.specs.Places.{keys_of};
ghost use Rattle.fluent_sources.specs.Standing.{standing_view, standings_in};
ghost use Rattle.fluent_sources.specs.ReadFiles.{files_read};

use crate::bundle::{Bundle, bundle_of_group};
use crate::places::{Places, places_of};
use fluent_places::{Asked, Place, variables_at};
use fluent_sources::files::files_of;
use fluent_sources::groups::Group;
use fluent_sources::source::Sources;
use fluent_sources::standing::{Standing, standings_in};
use std::alloc::{AllocError, Global};

/// Values and attributes in order, and the variables that each asks for.
#[derive(Drop)]
pub struct Listing<'s> {
    pub places: Vec<Place<'s>>,
    pub asked: Asked<'s>,
}

/// The places that are kept, in order.
fn keys_of<'s>(alloc: Global, places: &Places<'_, 's>) -> Result<Vec<Place<'s>>, AllocError>
    ensures { IfOk result (λ list. views list.items ≡ keys_of places.now) }
{
    let mut list = Vec::new(alloc);
    for place in places.keys.as_slice() {
        list.push(*place)?;
    }
    Ok(list)
}

/// Those of these values and attributes that stand in a bundle, with what each asks for.
fn listing_in<'s>(
    alloc: Global,
    bundle: &Bundle<'_, 's>,
    standings: &[Standing<'_, 's>],
) -> Result<Listing<'s>, AllocError>
    ensures { IfOk result (ListsAll (names_of (bundle_view bundle.now)) (map standing_view standings.now)) }
{
    let places = places_of(alloc, bundle, standings)?;
    let places = keys_of(alloc, &places)?;
    let asked = variables_at(alloc, bundle, places.as_slice())?;
    Ok(Listing { places, asked })
}

/// The values and attributes of a group of files.
fn listing_of<'s>(alloc: Global, group: &Group<'_, '_, 's>) -> Result<Listing<'s>, AllocError>
    ensures { IfOk result (ListsAll (names_of (all_of (codes "en") (entries_loaded (group_view group.now))))
        (standings_in (loaded (group_view group.now)))) }
{
    let standings = standings_in(alloc, group)?;
    let bundle = bundle_of_group(alloc, "en", group)?;
    listing_in(alloc, &bundle, standings.as_slice())
}

/// The values and attributes of these files, which count as one source.
///
/// # Errors
///
/// An allocation failed.
pub fn list_places<'s>(alloc: Global, sources: &Sources<'s>) -> Result<Listing<'s>, AllocError>
    ensures { IfOk result (IsListing (files_read 0 sources.now)) }
{
    let files = files_of(alloc, sources)?;
    listing_of(alloc, &Group::alone(files.as_slice()))
}

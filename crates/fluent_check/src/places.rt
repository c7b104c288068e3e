//! The values and attributes of files that stand in a bundle, each with where it stands first.

ghost use Rattle.std.specs.Prelude.{◌≡◌, [], IfOk, OnOk, map};
ghost use Rattle.std.specs.Option.{option_map};
ghost use Rattle.fluent_places.specs.Places.{names_of, place_view};
ghost use Rattle.fluent_check.specs.Bundles.{bundle_view};
ghost use Rattle.fluent_check.specs.Inside.Places.{AddsPlace, place_found};
ghost use Rattle.fluent_check.specs.Places.{ArePlaces, stands};
ghost use Rattle.fluent_sources.specs.Standing.{standing_view};

use crate::bundle::Bundle;
use fluent_places::{Place, pattern_at};
use fluent_sources::standing::Standing;
use indexmap::IndexSet;
use std::alloc::{AllocError, Global};

/// Values and attributes that stand in a bundle, in order, each where it stands first.
#[derive(Drop)]
pub(crate) struct Places<'a, 's> {
    pub list: Vec<Standing<'a, 's>>,
    /// Their places, in the same order.
    pub keys: IndexSet<Place<'s>>,
}

/// Whether a pattern stands at a place.
fn stands<'s>(bundle: &Bundle<'_, 's>, place: &Place<'s>) -> bool
    ensures { result ≡ stands (names_of (bundle_view bundle.now)) (place_view place.now) }
{
    pattern_at(bundle, place).is_some()
}

impl<'a, 's> Places<'a, 's> {
    /// Adds a value or an attribute, if a pattern stands there and its place isn't there yet.
    fn add(
        &mut self,
        bundle: &Bundle<'_, 's>,
        standing: &Standing<'a, 's>,
    ) -> Result<(), AllocError>
        ensures { OnOk result
            (AddsPlace (names_of (bundle_view bundle.now)) (standing_view standing.now) self.old self.new) }
    {
        let place = standing.site.place;
        if !stands(bundle, &place) {
            return Ok(());
        }
        if self.keys.insert(place)? {
            self.list.push(*standing)?;
        }
        Ok(())
    }

    /// Where what stands at a place stands first.
    pub(crate) fn get(&self, place: &Place<'s>) -> Option<&Standing<'a, 's>>
        ensures { option_map (λ s. standing_view s.now) result ≡ place_found self.now (place_view place.now) }
    {
        let Some(index) = self.keys.get_index_of(place) else {
            return None;
        };
        self.list.get(index)
    }
}

/// Those of these values and attributes that stand in a bundle.
pub(crate) fn places_of<'a, 's>(
    alloc: Global,
    bundle: &Bundle<'_, 's>,
    standings: &[Standing<'a, 's>],
) -> Result<Places<'a, 's>, AllocError>
    ensures { IfOk result (ArePlaces (names_of (bundle_view bundle.now)) (map standing_view standings.now)) }
{
    let mut places = Places {
        list: Vec::new(alloc),
        keys: IndexSet::new(alloc),
    };
    for standing in standings {
        places.add(bundle, standing)?;
    }
    Ok(places)
}

//! Entries whose id stands before them.

ghost use Rattle.std.specs.Prelude.{◌≡◌, [], OnOk, map};
ghost use Rattle.std.specs.Option.{option_map};
ghost use Rattle.fluent_places.specs.Places.{place_view};
ghost use Rattle.fluent_patterns.specs.Found.{AddsFound, spot_view};
ghost use Rattle.fluent_sources.specs.Inside.Ids.{Takes, firsts_in};
ghost use Rattle.fluent_sources.specs.Standing.{standing_view};
ghost use Rattle.fluent_sources.specs.Taken.{first_of, id_in, taken};

use crate::standing::Standing;
use fluent_patterns::{Finding, Part, Problem, Spot};
use fluent_places::Place;
use indexmap::IndexMap;
use std::alloc::{AllocError, Global};

/// The id of the entry of which a place is the value.
fn id_in<'s>(place: &Place<'s>) -> Option<&'s str>
    ensures { option_map (λ id. id.now) result ≡ id_in (place_view place.now) }
{
    match place {
        Place::Message(id, None) | Place::Term(id, None) => Some(id.name),
        Place::Message(_, Some(_)) | Place::Term(_, Some(_)) => None,
    }
}

/// Where the first entry of an id stands.
fn first_of(firsts: &IndexMap<&str, Spot>, id: &str) -> Option<Spot>
    ensures { option_map spot_view result ≡ first_of id.now (firsts_in firsts.now) }
{
    firsts.get(&id).copied()
}

/// Adds that the id of a value is taken, or notes where it stands.
fn add_at<'s>(
    standing: &Standing<'_, 's>,
    firsts: &mut IndexMap<&'s str, Spot>,
    findings: &mut Vec<Finding<'s>>,
) -> Result<(), AllocError>
    ensures { OnOk result (Takes (standing_view standing.now) firsts.old firsts.new findings.old findings.new) }
{
    let Some(id) = id_in(&standing.site.place) else {
        return Ok(());
    };
    match first_of(firsts, id) {
        Some(first) => findings.push(standing.found(Part::Whole, Problem::TakenId { first }))?,
        None => {
            firsts.insert(id, standing.spot())?;
        }
    }
    Ok(())
}

/// Adds the entries whose id one before them has. A message and a term may share an id, since they share one map of ids.
pub(crate) fn add_taken<'s>(
    alloc: Global,
    standings: &[Standing<'_, 's>],
    findings: &mut Vec<Finding<'s>>,
) -> Result<(), AllocError>
    ensures { OnOk result (AddsFound (taken [] (map standing_view standings.now)) findings.old findings.new) }
{
    let mut firsts: IndexMap<&'s str, Spot> = IndexMap::new(alloc);
    for standing in standings {
        add_at(standing, &mut firsts, findings)?;
    }
    Ok(())
}

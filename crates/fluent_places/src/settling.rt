//! Which variables each of some places asks for.

ghost use Rattle.std.specs.Prelude.{◌≡◌, IfOk, IsTrue, OnOk};
ghost use Rattle.fluent_places.specs.Places.{place_view, views};
ghost use Rattle.fluent_places.specs.Asked.{AreAskedIn, index_of};
ghost use Rattle.fluent_places.specs.Inside.Sharing.{AreListed, Covers, IsOfList, Joins, Settles, TellsLeading};
ghost use Rattle.fluent_places.specs.NeedsView.{need_view};

use crate::asked::Asked;
use crate::asking::gather;
use crate::groups::groups_of;
use crate::listing::{Need, needs};
use crate::place::{Place, pattern_at};
use fluent_bundle_entries::GetEntry;
use indexmap::IndexSet;
use std::alloc::{AllocError, Global};

/// The variables that each of these places asks the arguments for: [`Asked::of`] gives those of each place, all of them
/// and no other, each once, as [`crate::variables_of`] does. Each place is gone through once, and so is each that they
/// lead to.
///
/// # Errors
///
/// An allocation failed.
pub fn variables_at<'s, F, B: GetEntry<'s, F>>(
    alloc: Global,
    bundle: &B,
    places: &[Place<'s>],
) -> Result<Asked<'s>, AllocError>
    ensures { IfOk result (AreAskedIn (B.named bundle.now) (views places.now)) }
{
    let mut asked: Asked<'s> = Asked::new(alloc);
    settle_groups(alloc, bundle, places, &mut asked)?;
    for place in places {
        settle(alloc, bundle, &mut asked, place, &[])?;
    }
    Ok(asked)
}

/// Settles groups of places, each after those that it leads to.
fn settle_groups<'s, F, B: GetEntry<'s, F>>(
    alloc: Global,
    bundle: &B,
    places: &[Place<'s>],
    asked: &mut Asked<'s>,
) -> Result<(), AllocError>
    requires { AreListed (B.named bundle.now) asked.old }
    ensures { OnOk result (AreListed (B.named bundle.now) asked.new) }
{
    let groups = groups_of(alloc, bundle, places)?;
    for group in groups.iter().rev() {
        if let Some(first) = group.first() {
            settle(alloc, bundle, asked, first, group)?;
        }
    }
    Ok(())
}

/// Gathers what a place asks for, where that isn't known, and has others share its list where they may.
fn settle<'s, F, B: GetEntry<'s, F>>(
    alloc: Global,
    bundle: &B,
    asked: &mut Asked<'s>,
    place: &Place<'s>,
    others: &[Place<'s>],
) -> Result<(), AllocError>
    requires { AreListed (B.named bundle.now) asked.old }
    ensures { OnOk result
        (Settles (B.named bundle.now) asked.old asked.new (place_view place.now)) }
{
    if let Some(_) = asked.index_of(place) {
        return Ok(());
    }
    let found = gather(alloc, bundle, asked, place)?;
    let index = asked.add(*place, found.names)?;
    join_all(alloc, bundle, asked, &found.reached, others, index)
}

/// Has places share a list, where they may.
fn join_all<'s, F, B: GetEntry<'s, F>>(
    alloc: Global,
    bundle: &B,
    asked: &mut Asked<'s>,
    reached: &IndexSet<Place<'s>>,
    others: &[Place<'s>],
    index: usize,
) -> Result<(), AllocError>
    requires listed { AreListed (B.named bundle.now) asked.old }
    requires covers { Covers (B.named bundle.now) (views reached.now.keys) asked.old index }
    ensures { OnOk result
        (Joins (B.named bundle.now) asked.old asked.new) }
{
    for other in others {
        join(alloc, bundle, asked, reached, other, index)?;
    }
    Ok(())
}

/// Has a place share a list, if it was reached from the place of that list, and leads back to it.
fn join<'s, F, B: GetEntry<'s, F>>(
    alloc: Global,
    bundle: &B,
    asked: &mut Asked<'s>,
    reached: &IndexSet<Place<'s>>,
    place: &Place<'s>,
    index: usize,
) -> Result<(), AllocError>
    requires listed { AreListed (B.named bundle.now) asked.old }
    requires covers { Covers (B.named bundle.now) (views reached.now.keys) asked.old index }
    ensures { OnOk result
        (Joins (B.named bundle.now) asked.old asked.new) }
{
    if reached.contains(place) && leads_to(alloc, bundle, asked, place, index)? {
        asked.share(*place, index)?;
    }
    Ok(())
}

/// Whether what stands at a place refers to a message with this list.
fn leads_to<'s, F, B: GetEntry<'s, F>>(
    alloc: Global,
    bundle: &B,
    asked: &Asked<'s>,
    place: &Place<'s>,
    index: usize,
) -> Result<bool, AllocError>
    ensures { IfOk result (TellsLeading (B.named bundle.now) asked.now place.now index) }
{
    let Some(pattern) = pattern_at(bundle, place) else {
        return Ok(false);
    };
    let list = needs(alloc, pattern)?;
    for need in &list {
        if is_of_list(asked, need, index) {
            return Ok(true);
        }
    }
    Ok(false)
}

/// Whether a need is a reference to a message with this list.
fn is_of_list<'s>(asked: &Asked<'s>, need: &Need<'_, 's>, index: usize) -> bool
    ensures { IsTrue result → IsOfList asked.now index (need_view need.now) }
{
    match need {
        Need::Message(id, attribute) => has_list(asked, &Place::Message(*id, *attribute), index),
        _ => false,
    }
}

/// Whether this list is that of a place.
fn has_list<'s>(asked: &Asked<'s>, place: &Place<'s>, index: usize) -> bool
    ensures { IsTrue result → index_of asked.now (place_view place.now) ≡ Some index }
{
    match asked.index_of(place) {
        Some(there) => there == index,
        None => false,
    }
}

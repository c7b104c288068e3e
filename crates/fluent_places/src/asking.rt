//! Which variables patterns ask the arguments for.

ghost use Rattle.std.specs.Prelude.{◌≡◌, ◌<◌, IfOk, OnOk, length, map, slice_get};
ghost use Rattle.fluent_places.specs.Asked.{AreAskedAt, AreDistinct, texts};
ghost use Rattle.fluent_places.specs.Inside.Reached.{AddsAll, AddsName, AddsPlace, NotedAt, Notes, NotesPattern};
ghost use Rattle.fluent_places.specs.Inside.Sharing.{AreListed, IsGathered};
ghost use Rattle.fluent_places.specs.NeedsView.{need_view};
ghost use Rattle.fluent_places.specs.Places.{place_view};

use crate::asked::Asked;
use crate::listing::{Need, needs};
use crate::place::{Place, pattern_at};
use fluent_bundle_entries::GetEntry;
use indexmap::IndexSet;
use std::alloc::{AllocError, Global};

/// What is gathered from a place: the places that were reached, and the variables that these ask for.
#[derive(Drop)]
pub(crate) struct Gathered<'s> {
    pub reached: IndexSet<Place<'s>>,
    pub names: IndexSet<&'s str>,
}

/// The variables that what stands at a place asks the arguments for, all of them and no other, by name and each once:
/// its own, and those of the messages that it refers to. Those of a term are set by the reference to it, and not asked
/// for. Where no pattern stands there, none.
///
/// # Errors
///
/// An allocation failed.
pub fn variables_of<'s, F, B: GetEntry<'s, F>>(
    alloc: Global,
    bundle: &B,
    place: &Place<'s>,
) -> Result<Vec<&'s str>, AllocError>
    ensures asked { IfOk result (AreAskedAt (B.named bundle.now) place.now) }
    ensures distinct { IfOk result (λ names. AreDistinct (texts names.items)) }
{
    let asked: Asked<'s> = Asked::new(alloc);
    let found = gather(alloc, bundle, &asked, place)?;
    let mut names: Vec<&'s str> = Vec::new(alloc);
    names.extend_from_slice(found.names.as_slice())?;
    Ok(names)
}

/// Gathers what a place asks for, by what is known of others.
pub(crate) fn gather<'s, F, B: GetEntry<'s, F>>(
    alloc: Global,
    bundle: &B,
    asked: &Asked<'s>,
    place: &Place<'s>,
) -> Result<Gathered<'s>, AllocError>
    requires { AreListed (B.named bundle.now) asked.now }
    ensures { IfOk result (IsGathered (B.named bundle.now) (place_view place.now)) }
{
    let mut reached: IndexSet<Place<'s>> = IndexSet::new(alloc);
    let mut names: IndexSet<&'s str> = IndexSet::new(alloc);
    reached.insert(*place)?;
    let mut next = 0;
    while next < reached.len() {
        let here = place_at(&reached, next);
        note(alloc, bundle, asked, &here, &mut reached, &mut names)?;
        next += 1;
    }
    Ok(Gathered { reached, names })
}

/// The place with this index.
fn place_at<'s>(places: &IndexSet<Place<'s>>, index: usize) -> Place<'s>
    requires { index < length places.now.keys }
    ensures { slice_get places.now.keys index ≡ Some result }
{
    places.as_slice()[index]
}

/// Notes what a place asks for, where that is known, and else what its pattern has.
fn note<'s, F, B: GetEntry<'s, F>>(
    alloc: Global,
    bundle: &B,
    asked: &Asked<'s>,
    place: &Place<'s>,
    reached: &mut IndexSet<Place<'s>>,
    names: &mut IndexSet<&'s str>,
) -> Result<(), AllocError>
    requires { AreListed (B.named bundle.now) asked.now }
    ensures { OnOk result
        (NotedAt (B.named bundle.now) place.now reached.old reached.new names.old names.new) }
{
    match asked.of(place) {
        Some(known) => add_names(known, names),
        None => note_pattern(alloc, bundle, place, reached, names),
    }
}

/// Adds those of some names that aren't there.
fn add_names<'s>(known: &IndexSet<&'s str>, names: &mut IndexSet<&'s str>) -> Result<(), AllocError>
    ensures { OnOk result (AddsAll known.now names.old names.new) }
{
    for name in known.as_slice() {
        add_name(names, *name)?;
    }
    Ok(())
}

/// Notes which variables stand in the pattern at a place, and to which messages it refers.
fn note_pattern<'s, F, B: GetEntry<'s, F>>(
    alloc: Global,
    bundle: &B,
    place: &Place<'s>,
    reached: &mut IndexSet<Place<'s>>,
    names: &mut IndexSet<&'s str>,
) -> Result<(), AllocError>
    ensures { OnOk result (NotesPattern (B.named bundle.now) place.now reached names) }
{
    let Some(pattern) = pattern_at(bundle, place) else {
        return Ok(());
    };
    let list = needs(alloc, pattern)?;
    note_all(&list, reached, names)
}

/// Notes variables and messages among these needs.
fn note_all<'s>(
    list: &[Need<'_, 's>],
    reached: &mut IndexSet<Place<'s>>,
    names: &mut IndexSet<&'s str>,
) -> Result<(), AllocError>
    ensures { OnOk result
        (Notes (map need_view list.now) reached.old reached.new names.old names.new) }
{
    for need in list {
        match need {
            Need::Variable(id) => add_name(names, id.name)?,
            Need::Message(id, attribute) => add_place(reached, Place::Message(*id, *attribute))?,
            Need::Term(_, _, _) => {}
            Need::Function(_) => {}
            Need::Default => {}
        }
    }
    Ok(())
}

/// Adds a name that isn't there.
fn add_name<'s>(names: &mut IndexSet<&'s str>, name: &'s str) -> Result<(), AllocError>
    ensures { OnOk result (AddsName name.now names.old names.new) }
{
    names.insert(name)?;
    Ok(())
}

/// Adds a place that isn't there.
fn add_place<'s>(places: &mut IndexSet<Place<'s>>, place: Place<'s>) -> Result<(), AllocError>
    ensures { OnOk result (AddsPlace place.entry places.old places.new) }
{
    places.insert(place)?;
    Ok(())
}

//! What is found at some places, pass by pass: each place is looked at again until no more are found clean.

ghost use Rattle.std.specs.Prelude.{◌≡◌, IfOk, OnOk};
ghost use Rattle.fluent_clean.specs.Findings.{AreFindingsOf};
ghost use Rattle.fluent_places.specs.Places.{views};
ghost use Rattle.fluent_clean.specs.declared.finding.Kind.TheVariants as kind;
ghost use Rattle.fluent_clean.specs.Inside.Table.{AreRight};
ghost use Rattle.fluent_clean.specs.Inside.Steps.{AreTold, AreUnknown, IsListing, IsStep, Takes};

use crate::checking::{Look, look_at};
use crate::counting::Table;
use crate::cycles::add_cycles;
use crate::finding::{Finding, Kind};
use crate::laws;
use crate::order::in_order;
use fluent_bundle_entries::GetEntry;
use fluent_places::Place;
use indexmap::IndexMap;
use std::alloc::{AllocError, Global};
use std::collections::LinkedList;

/// What comes of looking at all places.
#[derive(Drop)]
pub(crate) enum Step<'s> {
    /// All were looked at.
    Done(Vec<Finding<'s>>),
    /// This one is clean, which wasn't known.
    Clean(Place<'s>, u64),
}

/// What is wrong with the patterns at these places. Each place has a finding, or what stands there is clean and opens no
/// more placeables than the limit. Each finding is true, as its [`Kind`] says. Whatever one of the places needs that
/// isn't there, or isn't clean, has a finding of its own.
///
/// The findings stand in the order of the places, those of cycles after all others.
///
/// # Errors
///
/// An allocation failed.
pub fn lint_places<'s, F, B: GetEntry<'s, F>>(
    alloc: Global,
    bundle: &B,
    places: &[Place<'s>],
    limit: u32,
) -> Result<Vec<Finding<'s>>, AllocError>
    ensures { IfOk result (λ found. AreFindingsOf (B.named bundle.now) limit (views places.now) found.items) }
{
    let mut findings = found_at(alloc, bundle, places, limit)?;
    add_cycles(alloc, bundle, &mut findings)?;
    Ok(findings)
}

/// What is wrong with the patterns at these places, but for cycles.
fn found_at<'s, F, B: GetEntry<'s, F>>(
    alloc: Global,
    bundle: &B,
    places: &[Place<'s>],
    limit: u32,
) -> Result<Vec<Finding<'s>>, AllocError>
    ensures { IfOk result (AreTold (B.named bundle.now) limit (views places.now)) }
{
    let mut table = prepared(alloc, bundle, places)?;
    loop {
        match look_at_all(alloc, bundle, &table, limit)? {
            Step::Done(findings) => return Ok(findings),
            Step::Clean(place, count) => {
                table.insert(place, Some(count))?;
            }
        }
    }
}

/// A table of these places, of which those are known to be clean that are found so in one pass.
fn prepared<'s, F, B: GetEntry<'s, F>>(
    alloc: Global,
    bundle: &B,
    places: &[Place<'s>],
) -> Result<Table<'s>, AllocError>
    ensures right { IfOk result (λ table. AreRight (B.named bundle.now) table.entries) }
    ensures listing { IfOk result (λ table. IsListing (views places.now) table.entries) }
{
    let mut table = listed(alloc, places)?;
    let order = in_order(alloc, bundle, &table)?;
    for i in &order {
        take(alloc, bundle, &mut table, *i)?;
    }
    Ok(table)
}

/// Notes the count of the place with this index, if its pattern is found clean.
fn take<'s, F, B: GetEntry<'s, F>>(
    alloc: Global,
    bundle: &B,
    table: &mut Table<'s>,
    index: usize,
) -> Result<(), AllocError>
    requires { AreRight (B.named bundle.now) table.old.entries }
    ensures { OnOk result (Takes (B.named bundle.now) table.old.entries table.new.entries) }
{
    let Some((place, _)) = table.get_index(index) else {
        return Ok(());
    };
    let place = *place;
    if let Look::Clean(count) = look_at(alloc, bundle, table, &place)? {
        table.insert(place, Some(count))?;
    }
    Ok(())
}

/// A table of these places, of which nothing is known yet.
fn listed<'s>(alloc: Global, places: &[Place<'s>]) -> Result<Table<'s>, AllocError>
    ensures listing { IfOk result (λ table. IsListing (views places.now) table.entries) }
    ensures unknown { IfOk result (λ table. AreUnknown table.entries) }
{
    let mut table = IndexMap::new(alloc);
    for place in places {
        table.insert(*place, None)?;
    }
    Ok(table)
}

/// Looks at each place of a table, until one is clean of which that wasn't known.
fn look_at_all<'s, F, B: GetEntry<'s, F>>(
    alloc: Global,
    bundle: &B,
    table: &Table<'s>,
    limit: u32,
) -> Result<Step<'s>, AllocError>
    requires { AreRight (B.named bundle.now) table.now.entries }
    ensures { IfOk result (IsStep (B.named bundle.now) limit table.now.entries) }
{
    laws::deeper_counts_more::<LinkedList<u8>>();
    let mut findings = Vec::new(alloc);
    for i in 0..table.len() {
        let Some((place, known)) = table.get_index(i) else {
            continue;
        };
        match known {
            Some(count) => {
                if *count > limit as u64 {
                    findings.push(too_many(place, *count, limit))?;
                }
            }
            None => match look_at(alloc, bundle, table, place)? {
                Look::Nothing => {}
                Look::Clean(count) => return Ok(Step::Clean(*place, count)),
                Look::Unclean(mut more) => findings.append(&mut more)?,
            },
        }
    }
    Ok(Step::Done(findings))
}

/// The finding of a pattern that opens too many placeables.
fn too_many<'s>(place: &Place<'s>, count: u64, limit: u32) -> Finding<'s>
    ensures place { result.place ≡ place.now }
    ensures kind { result.kind ≡ kind.TooManyPlaceables count limit }
{
    Finding {
        place: *place,
        kind: Kind::TooManyPlaceables { count, limit },
    }
}

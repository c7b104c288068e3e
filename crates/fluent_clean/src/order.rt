//! An order of places in which each stands after those that it refers to.
//!
//! The order says which place is worth looking at next. What is found doesn't rest on it, so no contract speaks of it.

use crate::counting::Table;
use fluent_bundle_entries::GetEntry;
use fluent_places::{Need, Place, needs, pattern_at};
use std::alloc::{AllocError, Global};

/// What refers to each place, by their indexes in a table, and to how many places each refers.
#[derive(Drop)]
struct Edges {
    from: Vec<Vec<usize>>,
    waiting: Vec<usize>,
}

/// The places of a table, each after those that it refers to; none that is on a cycle, or refers to such a one.
pub(crate) fn in_order<'s, F, B: GetEntry<'s, F>>(
    alloc: Global,
    bundle: &B,
    table: &Table<'s>,
) -> Result<Vec<usize>, AllocError> {
    let mut edges = edges_of(alloc, bundle, table)?;
    let mut order = Vec::new(alloc);
    for (i, waiting) in edges.waiting.iter().enumerate() {
        if *waiting == 0 {
            order.push(i)?;
        }
    }
    for k in 0..table.len() {
        let Some(next) = order.get(k) else {
            break;
        };
        free(&mut edges, *next, &mut order)?;
    }
    Ok(order)
}

/// Puts those after a place that waited for it alone.
fn free(edges: &mut Edges, place: usize, order: &mut Vec<usize>) -> Result<(), AllocError> {
    let Some(from) = edges.from.get(place) else {
        return Ok(());
    };
    for i in from {
        if let Some(waiting) = edges.waiting.get_mut(*i) {
            *waiting = waiting.saturating_sub(1);
            if *waiting == 0 {
                order.push(*i)?;
            }
        }
    }
    Ok(())
}

/// The references between the places of a table.
fn edges_of<'s, F, B: GetEntry<'s, F>>(
    alloc: Global,
    bundle: &B,
    table: &Table<'s>,
) -> Result<Edges, AllocError> {
    let mut from = Vec::new(alloc);
    for _ in 0..table.len() {
        from.push(Vec::new(alloc))?;
    }
    let mut waiting = Vec::new(alloc);
    for i in 0..table.len() {
        let count = match table.get_index(i) {
            Some((place, _)) => add_edges(alloc, bundle, table, place, i, &mut from)?,
            None => 0,
        };
        waiting.push(count)?;
    }
    Ok(Edges { from, waiting })
}

/// Adds the references of what stands at a place, and says how many these are.
fn add_edges<'s, F, B: GetEntry<'s, F>>(
    alloc: Global,
    bundle: &B,
    table: &Table<'s>,
    place: &Place<'s>,
    index: usize,
    from: &mut Vec<Vec<usize>>,
) -> Result<usize, AllocError> {
    let Some(pattern) = pattern_at(bundle, place) else {
        return Ok(0);
    };
    let list = needs(alloc, pattern)?;
    let mut count: usize = 0;
    for need in &list {
        let Some(to) = index_of(table, need) else {
            continue;
        };
        if let Some(row) = from.get_mut(to) {
            row.push(index)?;
            count = count.saturating_add(1);
        }
    }
    Ok(count)
}

/// Where the place that a need refers to stands in a table.
fn index_of<'s>(table: &Table<'s>, need: &Need<'_, 's>) -> Option<usize> {
    match need {
        Need::Message(id, attribute) => table.get_index_of(&Place::Message(*id, *attribute)),
        Need::Term(id, attribute, _) => table.get_index_of(&Place::Term(*id, *attribute)),
        Need::Function(_) | Need::Variable(_) | Need::Default => None,
    }
}

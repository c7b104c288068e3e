//! Groups of places that lead to one another.
//!
//! The groups say whose variables are worth gathering next. What is gathered doesn't rest on them, so no contract speaks
//! of them.

use crate::listing::{Need, needs};
use crate::place::{Place, pattern_at};
use fluent_bundle_entries::GetEntry;
use indexmap::IndexSet;
use std::alloc::{AllocError, Global};

/// Places by their indexes: those to whose messages each refers, and those that refer to each.
#[derive(Drop)]
struct Graph<'s> {
    places: IndexSet<Place<'s>>,
    to: Vec<Vec<usize>>,
    from: Vec<Vec<usize>>,
}

/// A place of the path that is walked, and how many references of it were followed.
#[derive(Clone, Copy, Drop)]
struct Stop {
    place: usize,
    followed: usize,
}

/// A walk along references.
#[derive(Drop)]
struct Walk {
    seen: Vec<bool>,
    path: Vec<Stop>,
    /// Places that were left, in that order.
    left: Vec<usize>,
}

/// These places and those that they lead to by messages, in groups: two are in one where each leads to the other. A
/// group stands before those that it leads to, and in it each place but the first refers to an earlier one.
pub(crate) fn groups_of<'s, F, B: GetEntry<'s, F>>(
    alloc: Global,
    bundle: &B,
    places: &[Place<'s>],
) -> Result<Vec<Vec<Place<'s>>>, AllocError> {
    let graph = graph_of(alloc, bundle, places)?;
    let order = walked(alloc, &graph.to)?;
    let mut seen = Vec::new(alloc);
    for _ in 0..graph.from.len() {
        seen.push(false)?;
    }
    let mut groups = Vec::new(alloc);
    for root in order.iter().rev() {
        if enters(&mut seen, *root) {
            let group = group_from(alloc, &graph.from, *root, &mut seen)?;
            groups.push(places_at(alloc, &graph.places, &group)?)?;
        }
    }
    Ok(groups)
}

/// The references between these places and those that they lead to.
fn graph_of<'s, F, B: GetEntry<'s, F>>(
    alloc: Global,
    bundle: &B,
    places: &[Place<'s>],
) -> Result<Graph<'s>, AllocError> {
    let mut graph = Graph {
        places: IndexSet::new(alloc),
        to: Vec::new(alloc),
        from: Vec::new(alloc),
    };
    for place in places {
        graph.places.insert(*place)?;
    }
    for next in 0..usize::MAX {
        let Some(place) = graph.places.get_index(next) else {
            break;
        };
        let place = *place;
        let row = references_of(alloc, bundle, &place, &mut graph.places)?;
        graph.to.push(row)?;
    }
    graph.from = turned(alloc, &graph.to)?;
    Ok(graph)
}

/// The messages that what stands at a place refers to, by their indexes. Those that are new are added.
fn references_of<'s, F, B: GetEntry<'s, F>>(
    alloc: Global,
    bundle: &B,
    place: &Place<'s>,
    places: &mut IndexSet<Place<'s>>,
) -> Result<Vec<usize>, AllocError> {
    let mut row = Vec::new(alloc);
    let Some(pattern) = pattern_at(bundle, place) else {
        return Ok(row);
    };
    let list = needs(alloc, pattern)?;
    for need in &list {
        if let Need::Message(id, attribute) = need {
            let (index, _) = places.insert_full(Place::Message(*id, *attribute))?;
            row.push(index)?;
        }
    }
    Ok(row)
}

/// The same references, each from its other end.
fn turned(alloc: Global, to: &[Vec<usize>]) -> Result<Vec<Vec<usize>>, AllocError> {
    let mut from = Vec::new(alloc);
    for _ in to {
        from.push(Vec::new(alloc))?;
    }
    for (i, row) in to.iter().enumerate() {
        turn(i, row, &mut from)?;
    }
    Ok(from)
}

/// Adds a place to the rows of those that it refers to.
fn turn(place: usize, row: &[usize], from: &mut Vec<Vec<usize>>) -> Result<(), AllocError> {
    for i in row {
        if let Some(others) = from.get_mut(*i) {
            others.push(place)?;
        }
    }
    Ok(())
}

/// All places, each after those that were met on the way from it.
fn walked(alloc: Global, to: &[Vec<usize>]) -> Result<Vec<usize>, AllocError> {
    let mut walk = Walk {
        seen: Vec::new(alloc),
        path: Vec::new(alloc),
        left: Vec::new(alloc),
    };
    let mut steps = to.len();
    for row in to {
        walk.seen.push(false)?;
        steps = steps.saturating_add(row.len());
    }
    for root in 0..to.len() {
        enter(&mut walk, root)?;
        for _ in 0..steps {
            if walk.path.is_empty() {
                break;
            }
            step(&mut walk, to)?;
        }
    }
    Ok(walk.left)
}

/// Follows the next reference of the last place of the path, or leaves that place.
fn step(walk: &mut Walk, to: &[Vec<usize>]) -> Result<(), AllocError> {
    let Some(mut last) = walk.path.pop() else {
        return Ok(());
    };
    let next = match to.get(last.place) {
        Some(row) => row.get(last.followed),
        None => None,
    };
    match next {
        None => {
            walk.left.push(last.place)?;
            Ok(())
        }
        Some(next) => {
            last.followed = last.followed.saturating_add(1);
            walk.path.push(last)?;
            enter(walk, *next)
        }
    }
}

/// Walks on to a place that wasn't met yet.
fn enter(walk: &mut Walk, place: usize) -> Result<(), AllocError> {
    if enters(&mut walk.seen, place) {
        walk.path.push(Stop { place, followed: 0 })?;
    }
    Ok(())
}

/// Whether a place wasn't met yet. Now it was.
fn enters(seen: &mut Vec<bool>, place: usize) -> bool {
    match seen.get_mut(place) {
        Some(met) => {
            let is_new = !*met;
            *met = true;
            is_new
        }
        None => false,
    }
}

/// A place and those that lead to it, of the ones that weren't met yet.
fn group_from(
    alloc: Global,
    from: &[Vec<usize>],
    root: usize,
    seen: &mut Vec<bool>,
) -> Result<Vec<usize>, AllocError> {
    let mut group = Vec::new(alloc);
    group.push(root)?;
    for k in 0..from.len() {
        let Some(place) = group.get(k) else {
            break;
        };
        if let Some(row) = from.get(*place) {
            add_unseen(row, seen, &mut group)?;
        }
    }
    Ok(group)
}

/// Adds those that weren't met yet.
fn add_unseen(
    row: &[usize],
    seen: &mut Vec<bool>,
    group: &mut Vec<usize>,
) -> Result<(), AllocError> {
    for place in row {
        if enters(seen, *place) {
            group.push(*place)?;
        }
    }
    Ok(())
}

/// The places with these indexes.
fn places_at<'s>(
    alloc: Global,
    places: &IndexSet<Place<'s>>,
    indexes: &[usize],
) -> Result<Vec<Place<'s>>, AllocError> {
    let mut list = Vec::new(alloc);
    for index in indexes {
        if let Some(place) = places.get_index(*index) {
            list.push(*place)?;
        }
    }
    Ok(list)
}

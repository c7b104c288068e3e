//! Cycles of references.
//!
//! What is found is looked at once more before it is told, so no contract speaks of the search.

ghost use Rattle.std.specs.Prelude.{IfOk, OnOk, IsTrue};
ghost use Rattle.fluent_places.specs.Places.{views};
ghost use Rattle.fluent_clean.specs.Findings.{GoRound};
ghost use Rattle.fluent_clean.specs.Inside.Steps.{AddsCycles, PushesCycle};

use crate::finding::{Finding, Kind};
use fluent_bundle_entries::GetEntry;
use fluent_places::{Place, pattern_at, refers_to};
use indexmap::IndexSet;
use std::alloc::{AllocError, Global};

/// Places, and to which of them each leads, by their indexes.
#[derive(Drop)]
struct Graph<'s> {
    places: IndexSet<Place<'s>>,
    edges: Vec<Vec<usize>>,
}

/// How far the search has come at a place.
#[derive(Clone, Copy, Drop)]
enum State {
    New,
    /// On the path that is walked, at this index of it.
    OnPath(usize),
    Done,
}

/// A place of the path that is walked, by its index.
#[derive(Clone, Copy, Drop)]
struct Stop {
    place: usize,
    /// How many references of it were followed.
    followed: usize,
    /// How long the path is to the last place, up to this one, that is on a cycle that was found: 0 where none is.
    found: usize,
}

/// A search for cycles among places, by their indexes.
#[derive(Drop)]
struct Search {
    states: Vec<State>,
    path: Vec<Stop>,
    cycles: Vec<Vec<usize>>,
}

/// Adds a finding for cycles among those that findings name: one at least where patterns lead to one another, and none of
/// them shares a place with another.
pub(crate) fn add_cycles<'s, F, B: GetEntry<'s, F>>(
    alloc: Global,
    bundle: &B,
    findings: &mut Vec<Finding<'s>>,
) -> Result<(), AllocError>
    ensures { OnOk result (AddsCycles (B.named bundle.now) findings.old findings.new) }
{
    let graph = graph_of(alloc, findings)?;
    let search = searched(alloc, &graph.edges)?;
    add_all(alloc, bundle, &graph.places, &search.cycles, findings)
}

/// Adds a finding for each of these, given by the indexes of its places, if it is a cycle.
fn add_all<'s, F, B: GetEntry<'s, F>>(
    alloc: Global,
    bundle: &B,
    places: &IndexSet<Place<'s>>,
    cycles: &[Vec<usize>],
    findings: &mut Vec<Finding<'s>>,
) -> Result<(), AllocError>
    ensures { OnOk result (AddsCycles (B.named bundle.now) findings.old findings.new) }
{
    for cycle in cycles {
        let cycle = places_at(alloc, places, cycle)?;
        add_cycle(alloc, bundle, cycle, findings)?;
    }
    Ok(())
}

/// Adds a finding for these places if they are a cycle.
fn add_cycle<'s, F, B: GetEntry<'s, F>>(
    alloc: Global,
    bundle: &B,
    places: Vec<Place<'s>>,
    findings: &mut Vec<Finding<'s>>,
) -> Result<(), AllocError>
    ensures { OnOk result (AddsCycles (B.named bundle.now) findings.old findings.new) }
{
    if is_cycle(alloc, bundle, &places)? {
        push_cycle(places, findings)?;
    }
    Ok(())
}

/// Adds a finding for these places, which are a cycle.
fn push_cycle<'s>(places: Vec<Place<'s>>, findings: &mut Vec<Finding<'s>>) -> Result<(), AllocError>
    ensures { OnOk result (PushesCycle places.entry findings.old findings.new) }
{
    if let Some(first) = places.first() {
        findings.push(Finding {
            place: *first,
            kind: Kind::Cycle { places },
        })?;
    }
    Ok(())
}

/// Whether there are some, and each of these refers to the next, and the last to the first.
fn is_cycle<'s, F, B: GetEntry<'s, F>>(
    alloc: Global,
    bundle: &B,
    places: &[Place<'s>],
) -> Result<bool, AllocError>
    ensures { IfOk result (λ yes. IsTrue yes → GoRound (B.named bundle.now) (views places.now)) }
{
    let Some(end) = places.last() else {
        return Ok(false);
    };
    let mut last = *end;
    for place in places {
        let Some(pattern) = pattern_at(bundle, &last) else {
            return Ok(false);
        };
        if !refers_to(alloc, pattern, place)? {
            return Ok(false);
        }
        last = *place;
    }
    Ok(true)
}

/// The places with these indexes.
fn places_at<'s>(
    alloc: Global,
    all: &IndexSet<Place<'s>>,
    indexes: &[usize],
) -> Result<Vec<Place<'s>>, AllocError> {
    let mut places = Vec::new(alloc);
    for index in indexes {
        if let Some(place) = all.get_index(*index) {
            places.push(*place)?;
        }
    }
    Ok(places)
}

/// The places that findings name, and to which of these each leads.
fn graph_of<'s>(alloc: Global, findings: &[Finding<'s>]) -> Result<Graph<'s>, AllocError> {
    let mut graph = Graph {
        places: IndexSet::new(alloc),
        edges: Vec::new(alloc),
    };
    for finding in findings {
        add_place(alloc, &mut graph, finding.place)?;
    }
    for finding in findings {
        if let Kind::LeadsTo { place } = &finding.kind {
            add_edge(&mut graph, &finding.place, place)?;
        }
    }
    Ok(graph)
}

/// Adds a place that isn't there.
fn add_place<'s>(alloc: Global, graph: &mut Graph<'s>, place: Place<'s>) -> Result<(), AllocError> {
    if graph.places.insert(place)? {
        graph.edges.push(Vec::new(alloc))?;
    }
    Ok(())
}

/// Adds that a place leads to another.
fn add_edge<'s>(graph: &mut Graph<'s>, from: &Place<'s>, to: &Place<'s>) -> Result<(), AllocError> {
    let Some(from) = graph.places.get_index_of(from) else {
        return Ok(());
    };
    let Some(to) = graph.places.get_index_of(to) else {
        return Ok(());
    };
    if let Some(row) = graph.edges.get_mut(from) {
        row.push(to)?;
    }
    Ok(())
}

/// Searches from each place that wasn't met.
fn searched(alloc: Global, edges: &[Vec<usize>]) -> Result<Search, AllocError> {
    let mut search = Search {
        states: Vec::new(alloc),
        path: Vec::new(alloc),
        cycles: Vec::new(alloc),
    };
    for _ in edges {
        search.states.push(State::New)?;
    }
    let most = most_steps(edges);
    for root in 0..edges.len() {
        enter(&mut search, root)?;
        walk(alloc, &mut search, edges, most)?;
    }
    Ok(search)
}

/// Walks on until all places of the path were left, in so many steps at most.
fn walk(
    alloc: Global,
    search: &mut Search,
    edges: &[Vec<usize>],
    most: usize,
) -> Result<(), AllocError> {
    for _ in 0..most {
        if search.path.is_empty() {
            break;
        }
        step(alloc, search, edges)?;
    }
    Ok(())
}

/// How many steps all walks take at most: one for each reference, and one for each place.
fn most_steps(edges: &[Vec<usize>]) -> usize {
    let mut steps = edges.len();
    for row in edges {
        steps = steps.saturating_add(row.len());
    }
    steps
}

/// Walks on to a place that wasn't met yet.
fn enter(search: &mut Search, to: usize) -> Result<(), AllocError> {
    let depth = search.path.len();
    let found = search.path.last().map_or(0, |stop| stop.found);
    if let Some(state) = search.states.get_mut(to) {
        if let State::New = state {
            *state = State::OnPath(depth);
            search.path.push(Stop {
                place: to,
                followed: 0,
                found,
            })?;
        }
    }
    Ok(())
}

/// Follows the next reference of the last place of the path, or leaves that place.
fn step(alloc: Global, search: &mut Search, edges: &[Vec<usize>]) -> Result<(), AllocError> {
    let Some(last) = search.path.pop() else {
        return Ok(());
    };
    match next_of(edges, last) {
        Some(to) => follow(alloc, search, last, to),
        None => {
            leave(search, last.place);
            Ok(())
        }
    }
}

/// Where the next reference of a place leads.
fn next_of(edges: &[Vec<usize>], stop: Stop) -> Option<usize> {
    let row = edges.get(stop.place)?;
    let to = row.get(stop.followed)?;
    Some(*to)
}

/// Notes that all references of a place were followed.
fn leave(search: &mut Search, place: usize) {
    if let Some(state) = search.states.get_mut(place) {
        *state = State::Done;
    }
}

/// Follows a reference of a place, which goes back on the path.
fn follow(alloc: Global, search: &mut Search, mut from: Stop, to: usize) -> Result<(), AllocError> {
    from.followed = from.followed.saturating_add(1);
    search.path.push(from)?;
    match on_path(search, to) {
        Some(start) => {
            if from.found <= start {
                note(alloc, search, start)?;
            }
            Ok(())
        }
        None => enter(search, to),
    }
}

/// Where a place stands on the path, if it does.
fn on_path(search: &Search, place: usize) -> Option<usize> {
    match search.states.get(place) {
        Some(State::OnPath(start)) => Some(*start),
        _ => None,
    }
}

/// Notes the path from an index on as a cycle.
fn note(alloc: Global, search: &mut Search, start: usize) -> Result<(), AllocError> {
    let mut cycle = Vec::new(alloc);
    for i in start..search.path.len() {
        if let Some(stop) = search.path.get_mut(i) {
            stop.found = i.saturating_add(1);
            cycle.push(stop.place)?;
        }
    }
    search.cycles.push(cycle)?;
    Ok(())
}

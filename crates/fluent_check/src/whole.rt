//! What the linter finds of whole values and attributes.

ghost use Rattle.std.specs.Prelude.{◌≡◌, IfOk};
ghost use Rattle.std.specs.Option.{option_map};
ghost use Rattle.fluent_places.specs.Places.{place_view, views};
ghost use Rattle.fluent_patterns.specs.Found.{problem_view};
ghost use Rattle.fluent_check.specs.Bundles.{bundle_view};
ghost use Rattle.fluent_check.specs.Tried.{is_shown};
ghost use Rattle.fluent_check.specs.Whole.{all_lead_on, large_problem, leads_on, second_or, whole_problem, whole_problems, wholes};

use crate::bundle::Bundle;
use crate::tried::is_shown;
use fluent_clean::{Finding as Linted, Kind};
use fluent_patterns::Problem;
use fluent_places::Place;
use std::alloc::{AllocError, Global};

/// A problem of a whole value or attribute.
#[derive(Clone, Copy, Debug, Drop)]
pub(crate) struct Whole<'s> {
    pub place: Place<'s>,
    pub problem: Problem<'s>,
}

/// The problems of whole values and attributes, in order. That one leads to another that isn't clean is told only where
/// nothing else is found, since it is well again as soon as that other one is.
pub(crate) fn whole_problems<'r, 's: 'r>(
    alloc: Global,
    bundle: &Bundle<'r, 's>,
    list: &[Linted<'s>],
) -> Result<Vec<Whole<'s>>, AllocError>
    ensures { IfOk result
        (λ found. wholes found.items ≡ whole_problems (is_shown (bundle_view bundle.now)) list.now) }
{
    let alone = all_lead_on(list);
    let mut found = Vec::new(alloc);
    for linted in list {
        if let Some(problem) = whole_problem(alloc, bundle, alone, linted)? {
            found.push(Whole {
                place: linted.place,
                problem,
            })?;
        }
    }
    Ok(found)
}

/// Whether each of these is that a pattern leads on to another.
fn all_lead_on(list: &[Linted<'_>]) -> bool
    ensures { result ≡ all_lead_on list.now }
{
    for linted in list {
        if !leads_on(&linted.kind) {
            return false;
        }
    }
    true
}

/// Whether it is that a pattern leads to one that isn't clean, or that stands elsewhere.
fn leads_on(kind: &Kind<'_>) -> bool
    ensures { result ≡ leads_on kind.now }
{
    match kind {
        Kind::LeadsTo { .. } | Kind::Elsewhere { .. } => true,
        _ => false,
    }
}

/// What a finding says of a whole place in a bundle, by whether all findings lead on.
fn whole_problem<'r, 's: 'r>(
    alloc: Global,
    bundle: &Bundle<'r, 's>,
    alone: bool,
    linted: &Linted<'s>,
) -> Result<Option<Problem<'s>>, AllocError>
    ensures { IfOk result (λ found. option_map problem_view found
        ≡ whole_problem (is_shown (bundle_view bundle.now)) alone (place_view linted.now.place) linted.now.kind) }
{
    match &linted.kind {
        Kind::Cycle { places } => Ok(Some(Problem::Cycle {
            next: second_or(linted.place, places),
        })),
        Kind::TooManyPlaceables { count, limit } => {
            let is_shown = is_shown(alloc, bundle, &linted.place)?;
            Ok(Some(large_problem(is_shown, *count, *limit)))
        }
        Kind::LeadsTo { place } | Kind::Elsewhere { place } => {
            if alone {
                Ok(Some(Problem::LeadsTo { place: *place }))
            } else {
                Ok(None)
            }
        }
        _ => Ok(None),
    }
}

/// That a place opens too many placeables, by whether arguments show it.
fn large_problem<'s>(is_shown: bool, count: u64, limit: u32) -> Problem<'s>
    ensures { problem_view result ≡ large_problem is_shown count limit }
{
    if is_shown {
        Problem::TooManyPlaceables { count, limit }
    } else {
        Problem::MayOpenTooMany { count, limit }
    }
}

/// The second of these places, or else this one.
fn second_or<'s>(place: Place<'s>, places: &[Place<'s>]) -> Place<'s>
    ensures { place_view result ≡ second_or (place_view place.entry) (views places.now) }
{
    match places.get(1) {
        Some(next) => *next,
        None => place,
    }
}

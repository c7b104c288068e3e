//! The variables that a message asks for, a line each.
ghost use Rattle.std.specs.Prelude.{IfOk, string_bytes};
ghost use Rattle.fluent_places.specs.Asked.{texts};
ghost use Rattle.fluent_places.specs.Places.{names_of, place_view};
ghost use Rattle.fluent_c_handles.specs.Answers.{stock_content, unanswered};
ghost use Rattle.fluent_c_handles.specs.Calls.Finding.{ListsAsked, Rise};
ghost use Rattle.fluent_c_handles.specs.Inside.Gathered.{HaveSame, texts_of};

use crate::message_ids::lines;
use crate::stock::Stock;
use fluent_places::{Place, variables_of};
use std::alloc::{AllocError, Global};
use std::collections::BTreeSet;

/// A line for each variable that what stands at a place asks for, in the order of their bytes, whatever the caller answers.
///
/// # Errors
///
/// An allocation failed.
pub(crate) fn variable_lines<'r, 's: 'r>(
    alloc: Global,
    stock: &Stock<'r, 's>,
    place: &Place<'s>,
) -> Result<String, AllocError>
    ensures { IfOk result (λ t. ListsAsked (names_of (unanswered (stock_content stock.now))) (place_view place.now) (string_bytes t)) }
{
    let asked = variables_of(alloc, &stock.bundle, place)?;
    let names = set_of(alloc, asked.as_slice())?;
    lines(alloc, names)
}

/// The set of these names.
fn set_of<'s>(alloc: Global, names: &[&'s str]) -> Result<BTreeSet<&'s str>, AllocError>
    ensures same { IfOk result (λ set. HaveSame (texts_of set.keys) (texts names.now)) }
    ensures rise { IfOk result (λ set. Rise (texts_of set.keys)) }
{
    let mut set = BTreeSet::new(alloc);
    for name in names {
        set.insert(*name)?;
    }
    Ok(set)
}

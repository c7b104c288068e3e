//! The functions that patterns call, as an application may add them.

ghost use Rattle.std.specs.Prelude.{◌≡◌, [], ◌∷◌, OnOk};
ghost use Rattle.fluent_ast.specs.View.{pattern_view};
ghost use Rattle.fluent_places.specs.Needs.{needs};
ghost use Rattle.fluent_places.specs.NeedsView.{need_view};
ghost use Rattle.fluent_places.specs.Asked.{texts};
ghost use Rattle.fluent_check.specs.Bundles.{bundle_view};
ghost use Rattle.fluent_check.specs.Called.{AddsNames, functions_in, with_function, with_functions};

use crate::bundle::Bundle;
use fluent_ast::ast::Pattern;
use fluent_bundle::{AddFault, NoFunction};
use fluent_places::{Need, needs};
use std::alloc::{AllocError, Global};

/// Adds the function that is needed, if it is one.
fn add_if_function<'s>(need: &Need<'_, 's>, ids: &mut Vec<&'s str>) -> Result<(), AllocError>
    ensures { OnOk result (AddsNames (functions_in (need_view need.now ∷ [])) ids.old ids.new) }
{
    if let Need::Function(id) = need {
        ids.push(id.name)?;
    }
    Ok(())
}

/// Adds the functions that a pattern calls.
pub(crate) fn add_called<'s>(
    alloc: Global,
    pattern: &Pattern<'s>,
    ids: &mut Vec<&'s str>,
) -> Result<(), AllocError>
    ensures { OnOk result (AddsNames (functions_in (needs (pattern_view pattern.now))) ids.old ids.new) }
{
    for need in &needs(alloc, pattern)? {
        add_if_function(need, ids)?;
    }
    Ok(())
}

/// Adds a function to a bundle, where its id is free.
fn add_function<'s>(bundle: &mut Bundle<'_, 's>, id: &str) -> Result<(), AllocError>
    ensures { OnOk result (bundle_view bundle.new ≡ with_function id.now (bundle_view bundle.old)) }
{
    match bundle.add_function(id, NoFunction) {
        Ok(()) | Err(AddFault::Overriding(_)) => Ok(()),
        Err(AddFault::Memory) => Err(AllocError),
    }
}

/// Adds functions to a bundle, each where its id is free.
pub(crate) fn add_functions<'s>(bundle: &mut Bundle<'_, 's>, ids: &[&str]) -> Result<(), AllocError>
    ensures { OnOk result (bundle_view bundle.new ≡ with_functions (texts ids.now) (bundle_view bundle.old)) }
{
    for id in ids {
        add_function(bundle, *id)?;
    }
    Ok(())
}

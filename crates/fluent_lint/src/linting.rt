//! The call that lints a bundle.

ghost use Rattle.std.specs.Prelude.{IfOk};
ghost use Rattle.fluent_places.specs.Asked.{AreAskedAt, AreDistinct, texts};
ghost use Rattle.fluent_places.specs.Places.{names_of};
ghost use Rattle.fluent_lint.specs.Lints.{Lints};

use crate::sources::places_in;
use fluent_bundle::{
    FluentBundle, FluentFormatter, FluentFunction, FluentResource, FluentType, Means, MemoizerKind,
    Transform,
};
use fluent_clean::{Finding, laws, lint_places};
use fluent_places::{Place, variables_of};
use std::alloc::{AllocError, Global};

/// What is wrong with the messages and terms of a bundle, in the values and attributes of these resources.
///
/// Each of them has a finding, or is clean and opens no more placeables than the bundle's limit. Each finding is true,
/// as its [`fluent_clean::Kind`] says. Whatever one of them needs that isn't there, or isn't clean, has a finding of its own.
/// And what is clean and within the limit never shows an error: for all arguments that give each variable that it asks
/// for ([`variables`]), its text by substitution is what is written, with no error.
///
/// What no resource here has isn't looked at, so hand in all that were added.
///
/// # Errors
///
/// An allocation failed.
pub fn lint<
    'r,
    's: 'r,
    M: MemoizerKind,
    C: FluentType,
    F: FluentFunction<C>,
    G: FluentFormatter<C, M>,
    T: Transform,
>(
    alloc: Global,
    bundle: &FluentBundle<'r, 's, M, C, F, G, T>,
    resources: &[FluentResource<'s>],
) -> Result<Vec<Finding<'s>>, AllocError>
    ensures { IfOk result
        (Lints (⟦<FluentBundle<'r, 's, M, C, F, G, T> as Means>⟧.meaning bundle.now) resources.now) }
{
    laws::fine_is_written();
    let places = places_in(alloc, resources)?;
    let limit = bundle.placeable_limit();
    lint_places(alloc, bundle, &places, limit)
}

/// The variables that a value or an attribute asks the arguments for, all of them and no other, by name and each once:
/// its own, and those of the messages that it refers to. Those of a term are set by the reference to it, and not asked
/// for. Where no pattern stands there, none.
///
/// # Errors
///
/// An allocation failed.
pub fn variables<
    'r,
    's: 'r,
    M: MemoizerKind,
    C: FluentType,
    F: FluentFunction<C>,
    G: FluentFormatter<C, M>,
    T: Transform,
>(
    alloc: Global,
    bundle: &FluentBundle<'r, 's, M, C, F, G, T>,
    place: &Place<'s>,
) -> Result<Vec<&'s str>, AllocError>
    ensures asked { IfOk result
        (AreAskedAt (names_of (⟦<FluentBundle<'r, 's, M, C, F, G, T> as Means>⟧.meaning bundle.now)) place.now) }
    ensures distinct { IfOk result (λ names. AreDistinct (texts names.items)) }
{
    variables_of(alloc, bundle, place)
}

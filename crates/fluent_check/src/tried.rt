//! Arguments that are tried, to show that a value or an attribute opens more placeables than the limit.

ghost use Rattle.std.specs.Prelude.{◌≡◌, [], IfOk, map};
ghost use Rattle.std.specs.List.{list_any};
ghost use Rattle.fluent_ast.specs.View.{key_view, pattern_view};
ghost use Rattle.fluent_bundle_entries.specs.ErrorView.{error_view};
ghost use Rattle.fluent_places.specs.Places.{place_view};
ghost use Rattle.fluent_semantics.specs.Bundle.{key_value};
ghost use Rattle.fluent_values.specs.View.{named, value_view};
ghost use Rattle.fluent_patterns.specs.Choices.{choice_view, choices_in};
ghost use Rattle.fluent_check.specs.Bundles.{bundle_view};
ghost use Rattle.fluent_check.specs.Tried.{given, is_shown, is_too_many, reaches_limit, tried_arguments};

use crate::bundle::Bundle;
use fluent_ast::ast::{Pattern, VariantKey};
use fluent_bundle::{Counting, FluentArgs, FluentError, FluentValue, NoCustom, ResolverError};
use fluent_patterns::{Choice, choices_of, tried};
use fluent_places::{Place, pattern_at};
use std::alloc::{AllocError, Global};
use std::borrow::CowStr;
use std::io::sink;

/// Whether some of the arguments that are tried show that what stands at a place opens more placeables than the limit.
pub(crate) fn is_shown<'r, 's: 'r>(
    alloc: Global,
    bundle: &Bundle<'r, 's>,
    place: &Place<'s>,
) -> Result<bool, AllocError>
    ensures { IfOk result (λ yes. yes ≡ is_shown (bundle_view bundle.now) (place_view place.now)) }
{
    match pattern_at(bundle, place) {
        Some(pattern) => is_shown_of(alloc, bundle, pattern),
        None => Ok(false),
    }
}

/// The same of a pattern.
fn is_shown_of<'r, 's: 'r>(
    alloc: Global,
    bundle: &Bundle<'r, 's>,
    pattern: &Pattern<'s>,
) -> Result<bool, AllocError>
    ensures { IfOk result (λ yes. yes ≡ list_any (reaches_limit (bundle_view bundle.now) (pattern_view pattern.now))
        (tried_arguments (pattern_view pattern.now))) }
{
    if reaches_limit(alloc, bundle, pattern, &FluentArgs::new(alloc))? {
        return Ok(true);
    }
    let choices = choices_of(alloc, pattern)?;
    is_shown_by(alloc, bundle, pattern, tried(choices.as_slice()))
}

/// Whether one of these choices shows it.
fn is_shown_by<'r, 's: 'r>(
    alloc: Global,
    bundle: &Bundle<'r, 's>,
    pattern: &Pattern<'s>,
    choices: &[Choice<'s>],
) -> Result<bool, AllocError>
    ensures { IfOk result (λ yes. yes ≡ list_any (reaches_limit (bundle_view bundle.now) (pattern_view pattern.now))
        (map given (choices_in choices.now))) }
{
    for choice in choices {
        let args = given(alloc, choice)?;
        if reaches_limit(alloc, bundle, pattern, &args)? {
            return Ok(true);
        }
    }
    Ok(false)
}

/// The variable of a choice alone, with the value of its key.
fn given<'s>(alloc: Global, choice: &Choice<'s>) -> Result<FluentArgs<'s, NoCustom>, AllocError>
    ensures { IfOk result (λ args. named (λ c. []) args ≡ given (choice_view choice.now)) }
{
    let mut args = FluentArgs::new(alloc);
    args.set(CowStr::Borrowed(choice.variable), value_of(&choice.key))?;
    Ok(args)
}

/// The value of a key.
fn value_of<'s>(key: &VariantKey<'s>) -> FluentValue<'s, NoCustom>
    ensures { value_view (λ c. []) result ≡ key_value (key_view key.now) }
{
    match key {
        VariantKey::Identifier { name } => FluentValue::from(*name),
        VariantKey::NumberLiteral { value } => FluentValue::try_number(value),
    }
}

/// Whether a pattern opens more placeables than the limit with these arguments.
fn reaches_limit<'r, 's: 'r>(
    alloc: Global,
    bundle: &Bundle<'r, 's>,
    pattern: &Pattern<'s>,
    args: &FluentArgs<'_, NoCustom>,
) -> Result<bool, AllocError>
    ensures { IfOk result (λ yes.
        yes ≡ reaches_limit (bundle_view bundle.now) (pattern_view pattern.now) (named (λ c. []) args.now)) }
{
    let mut errors = Vec::new(alloc);
    match bundle.write_pattern(&mut Counting::new(sink()), pattern, Some(args), &mut errors) {
        Ok(()) => Ok(has_too_many(errors.as_slice())),
        // The sink takes all, so an allocation failed.
        Err(_) => Err(AllocError),
    }
}

/// Whether one of these errors is that the limit was reached.
fn has_too_many(errors: &[FluentError]) -> bool
    ensures { result ≡ list_any is_too_many (map error_view errors.now) }
{
    for error in errors {
        if is_too_many(error) {
            return true;
        }
    }
    false
}

/// Whether an error is that the limit was reached.
fn is_too_many(error: &FluentError) -> bool
    ensures { result ≡ is_too_many (error_view error.now) }
{
    match error {
        FluentError::ResolverError(ResolverError::TooManyPlaceables) => true,
        _ => false,
    }
}

//! What can't be found: it is reported, and its fallback is written.
#![tactic(auto, unfolding(crate::specs::Status::state_parts))]

ghost use Rattle.std.specs.Prelude.{◌≡◌, ◌≢◌, ◌∷◌, [], Err, IfNone, IsOk, None};
ghost use Rattle.fluent_values.specs.Sinks.{GoesThrough};
ghost use Rattle.fluent_ast.specs.View.{inline_view};
ghost use Rattle.fluent_semantics.specs.Errors.{cyclic, missing_default, no_value, reference_of, resolver_error, too_many_placeables};
ghost use Rattle.fluent_resolver_state.specs.Happened.{lost_of};
ghost use Rattle.fluent_resolver_state.specs.StateCalls.{Reports, Writes, events_of_lost};

use crate::fallback::put_in_braces;
use crate::state::State;
use fluent_ast::ast::InlineExpression;
use fluent_bundle_entries::ResolverError;
use fluent_values::output::{Halt, Output};
use fluent_values::{Context, FluentFunction, FluentType};
use std::alloc::AllocError;
use std::io::Write;

/// Reports what can't be found, and then writes its fallback in braces. What is no reference is no error.
#[inline(never)]
#[cold]
pub fn lose<W: Write, C: FluentType, F: FluentFunction<C>, B: Context<C>>(
    scope: &mut State<'_, '_, '_, '_, '_, C, F, B>,
    out: &mut Output<W>,
    inline: &InlineExpression<'_>,
) -> Result<(), Halt>
    ensures wrote { Writes B.meant B.is_plain F.answer C.content W.contents
        (events_of_lost inline.now) result out scope }
    ensures memory { reference_of (inline_view inline.now) ≡ None → GoesThrough out.old →
        result ≢ Err Halt.Memory }
{
    report_lost(scope, inline)?;
    put_in_braces(out, inline)
}

/// Reports what can't be found, if it is a reference.
#[inline(never)]
#[cold]
pub fn report_lost<C: FluentType, F: FluentFunction<C>, B: Context<C>>(
    scope: &mut State<'_, '_, '_, '_, '_, C, F, B>,
    inline: &InlineExpression<'_>,
) -> Result<(), AllocError>
    ensures reports { Reports B.meant B.is_plain F.answer C.content (lost_of (inline_view inline.now)) result scope }
    ensures succeeds { reference_of (inline_view inline.now) ≡ None → IsOk result }
{
    match ResolverError::of(scope.bundle.allocator(), inline)? {
        Some(error) => scope.add_error(error),
        None => Ok(()),
    }
}

/// Reports that a message has no value.
#[inline(never)]
#[cold]
pub fn report_no_value<C: FluentType, F: FluentFunction<C>, B: Context<C>>(
    scope: &mut State<'_, '_, '_, '_, '_, C, F, B>,
    id: &str,
) -> Result<(), AllocError>
    ensures { Reports B.meant B.is_plain F.answer C.content (resolver_error (no_value id.now) ∷ []) result scope }
{
    let id = String::from_str(scope.bundle.allocator(), id)?;
    scope.add_error(ResolverError::NoValue(id))
}

/// Reports that a reference leads to a pattern that is being written.
#[inline(never)]
#[cold]
pub fn report_cycle<C: FluentType, F: FluentFunction<C>, B: Context<C>>(
    scope: &mut State<'_, '_, '_, '_, '_, C, F, B>,
) -> Result<(), AllocError>
    ensures added { Reports B.meant B.is_plain F.answer C.content (resolver_error cyclic ∷ []) result scope }
    ensures succeeds { IfNone scope.old.errors (IsOk result) }
{
    scope.add_error(ResolverError::Cyclic)
}

/// Reports that a select has no default to go to.
#[inline(never)]
#[cold]
pub fn report_no_default<C: FluentType, F: FluentFunction<C>, B: Context<C>>(
    scope: &mut State<'_, '_, '_, '_, '_, C, F, B>,
) -> Result<(), AllocError>
    ensures added { Reports B.meant B.is_plain F.answer C.content (resolver_error missing_default ∷ []) result scope }
    ensures succeeds { IfNone scope.old.errors (IsOk result) }
{
    scope.add_error(ResolverError::MissingDefault)
}

/// Reports that no more placeables may be opened.
#[inline(never)]
#[cold]
pub fn report_limit<C: FluentType, F: FluentFunction<C>, B: Context<C>>(
    scope: &mut State<'_, '_, '_, '_, '_, C, F, B>,
) -> Result<(), AllocError>
    ensures added { Reports B.meant B.is_plain F.answer C.content (resolver_error too_many_placeables ∷ []) result scope }
    ensures succeeds { IfNone scope.old.errors (IsOk result) }
{
    scope.add_error(ResolverError::TooManyPlaceables)
}

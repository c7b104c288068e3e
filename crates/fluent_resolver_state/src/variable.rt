//! Variables.
#![tactic(auto, unfolding(crate::specs::Status::state_parts))]

ghost use Rattle.std.specs.Prelude.{◌≡◌, IfOk};
ghost use Rattle.std.specs.Option.{option_map};
ghost use Rattle.fluent_ast.specs.Tree.{variable};
ghost use Rattle.fluent_ast.specs.View.{inline_view};
ghost use Rattle.fluent_semantics.specs.Arguments.{get};
ghost use Rattle.fluent_resolver_state.specs.Status.{arguments_view as given_arguments};
ghost use Rattle.fluent_values.specs.View.{value_view};
ghost use Rattle.fluent_resolver_state.specs.StateCalls.{GivesVariable, Writes, events_of_variable};

use crate::environment::Environment;
use crate::locals::put_local;
use crate::lost::{lose, report_lost};
use crate::state::State;
use fluent_ast::ast::{Identifier, InlineExpression};
use fluent_values::output::{Halt, Output};
use fluent_values::shown::put_value;
use fluent_values::{Context, FluentArgs, FluentFunction, FluentType, FluentValue};
use std::alloc::{AllocError, Global};
use std::borrow::CowStr;
use std::io::Write;

/// Writes the value of a variable. One that is missing shows its fallback in braces, and is an error where it is
/// looked up among the application's arguments.
pub fn write_variable<W: Write, C: FluentType, F: FluentFunction<C>, B: Context<C>>(
    scope: &mut State<'_, '_, '_, '_, '_, C, F, B>,
    out: &mut Output<W>,
    inline: &InlineExpression<'_>,
    id: &Identifier<'_>,
) -> Result<(), Halt>
    requires { inline_view inline.now ≡ variable id.now.name.now }
    ensures { Writes B.meant B.is_plain F.answer C.content W.contents
        (events_of_variable inline.now id.now.name.now) result
        out scope }
{
    match &scope.environment {
        Environment::Local(locals) => put_local(scope.bundle, out, locals, inline, id.name),
        Environment::Application(args) => match argument(*args, id.name) {
            Some(value) => put_value(scope.bundle, out, value),
            None => lose(scope, out, inline),
        },
    }
}

/// A copy of a variable's value. One that is missing is an error value, with the error that it has where it is
/// written.
#[inline(always)]
pub fn resolve_variable<'p, C: FluentType, F: FluentFunction<C>, B: Context<C>>(
    scope: &mut State<'_, 'p, '_, '_, '_, C, F, B>,
    inline: &InlineExpression<'_>,
    id: &Identifier<'_>,
) -> Result<FluentValue<'p, C>, AllocError>
    requires { inline_view inline.now ≡ variable id.now.name.now }
    ensures { GivesVariable B.meant B.is_plain F.answer C.content inline.now id.now.name.now result scope }
{
    let alloc = scope.bundle.allocator();
    match &scope.environment {
        Environment::Local(locals) => locals.value(alloc, id.name),
        Environment::Application(args) => match argument(*args, id.name) {
            Some(value) => borrowed(alloc, value),
            None => {
                report_lost(scope, inline)?;
                Ok(FluentValue::Error)
            }
        },
    }
}

/// The value of a variable among arguments, if there are any.
pub(crate) fn argument<'p, 'args, C: FluentType>(
    args: Option<&'p FluentArgs<'args, C>>,
    name: &str,
) -> Option<&'p FluentValue<'args, C>>
    ensures { option_map (λ v. value_view C.content v.now) result
        ≡ get name.now (given_arguments C.content args.entry) }
{
    match args {
        Some(args) => args.get(name),
        None => None,
    }
}

/// A copy of a value that borrows its text.
#[inline(always)]
fn borrowed<'v, C: FluentType>(
    alloc: Global,
    value: &'v FluentValue<'_, C>,
) -> Result<FluentValue<'v, C>, AllocError>
    ensures { IfOk result (λ copy. value_view C.content copy ≡ value_view C.content value.now) }
{
    match value {
        FluentValue::String(text) => Ok(FluentValue::String(CowStr::Borrowed(text.as_str()))),
        _ => value.into_owned(alloc),
    }
}

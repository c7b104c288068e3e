//! Calls of functions whose arguments are literals and variables, in which nothing else stands: their values are made at once.
#![tactic(auto, unfolding(crate::specs::Status::state_parts))]

ghost use Rattle.std.specs.Prelude.{◌≡◌, ◌∷◌, [], IfOk, IsTrue};
ghost use Rattle.std.specs.Option.{unwrap_or};
ghost use Rattle.fluent_ast.specs.References.{a_function};
ghost use Rattle.fluent_ast.specs.View.{inline_view};
ghost use Rattle.fluent_semantics.specs.Arguments.{set_all};
ghost use Rattle.fluent_semantics.specs.Value.{error_value};
ghost use Rattle.fluent_bundle_entries.specs.IdNumbers.{IsPlaced};
ghost use Rattle.fluent_resolver_state.specs.Gathered.{values_of};
ghost use Rattle.fluent_resolver_state.specs.Leaves as means;
ghost use Rattle.fluent_resolver_state.specs.StateCalls.{ReportsSome, Writes, status};
ghost use Rattle.fluent_values.specs.View.{named as named_view, value_view};

use crate::found::answer_of;
use crate::gathered::{FEW, push_value};
use crate::shown::put_answer;
use crate::state::State;
use crate::variable::resolve_variable;
use fluent_ast::ast::{CallArguments, Identifier, InlineExpression, NamedArgument};
use fluent_references::Cursor;
use fluent_text::unescape_unicode_to_string;
use fluent_values::output::{Halt, Output};
use fluent_values::{Context, FluentArgs, FluentFunction, FluentType, FluentValue};
use std::alloc::AllocError;
use std::borrow::CowStr;
use std::io::Write;

/// Whether each argument of a call is a literal or a variable, and few have names.
#[inline(always)]
pub fn has_leaves_alone(arguments: &CallArguments<'_>) -> bool
    ensures { IsTrue result → IsTrue (means.has_leaves_alone arguments.now) }
{
    arguments.named.len() <= FEW
        && are_leaves(&arguments.positional)
        && are_named_leaves(&arguments.named)
}

/// Whether positional arguments are literals and variables, each.
fn are_leaves(arguments: &[InlineExpression<'_>]) -> bool
    ensures { result ≡ means.are_leaves arguments.now }
{
    for argument in arguments {
        if !is_leaf(argument) {
            return false;
        }
    }
    true
}

/// The same of named ones.
fn are_named_leaves(arguments: &[NamedArgument<'_>]) -> bool
    ensures { result ≡ means.are_named_leaves arguments.now }
{
    for argument in arguments {
        if !is_leaf(&argument.value) {
            return false;
        }
    }
    true
}

/// Whether it is a literal or a variable.
#[inline(always)]
fn is_leaf(inline: &InlineExpression<'_>) -> bool
    ensures { result ≡ means.is_leaf (inline_view inline.now) }
{
    matches!(
        inline,
        InlineExpression::StringLiteral { .. }
            | InlineExpression::NumberLiteral { .. }
            | InlineExpression::VariableReference { .. }
    )
}

/// The value of a literal or a variable.
#[inline(always)]
fn leaf_value<'p, 's, C: FluentType, F: FluentFunction<C>, B: Context<C>>(
    scope: &mut State<'_, 'p, '_, 's, '_, C, F, B>,
    inline: &'p InlineExpression<'s>,
) -> Result<FluentValue<'p, C>, AllocError>
    ensures value { IfOk result (λ v. value_view C.content v
        ≡ means.leaf_value (status B.meant B.is_plain F.answer C.content scope.old).environment (inline_view inline.now)) }
    ensures reports { ReportsSome B.meant B.is_plain F.answer C.content
        (means.leaf_errors (status B.meant B.is_plain F.answer C.content scope.old).environment (inline_view inline.now)) result scope }
{
    match inline {
        InlineExpression::StringLiteral { value } => {
            let text = unescape_unicode_to_string(scope.bundle.allocator(), value)?;
            Ok(FluentValue::String(text))
        }
        InlineExpression::NumberLiteral { value } => Ok(FluentValue::try_number(value)),
        InlineExpression::VariableReference { id } => resolve_variable(scope, inline, id),
        _ => Ok(FluentValue::Error),
    }
}

/// The values of positional arguments.
#[inline(always)]
fn positional_values<'p, 's, C: FluentType, F: FluentFunction<C>, B: Context<C>>(
    scope: &mut State<'_, 'p, '_, 's, '_, C, F, B>,
    arguments: &'p [InlineExpression<'s>],
) -> Result<Vec<FluentValue<'p, C>>, AllocError>
    ensures values { IfOk result (λ values. values_of C.content values
        ≡ means.leaf_values (status B.meant B.is_plain F.answer C.content scope.old).environment arguments.now) }
    ensures reports { ReportsSome B.meant B.is_plain F.answer C.content
        (means.errors_of_leaves (status B.meant B.is_plain F.answer C.content scope.old).environment arguments.now) result scope }
{
    let mut values = Vec::with_capacity(scope.bundle.allocator(), arguments.len())?;
    for argument in arguments {
        let value = leaf_value(scope, argument)?;
        push_value(&mut values, value)?;
    }
    Ok(values)
}

/// The values of named arguments.
#[inline(always)]
fn named_values<'p, 's, C: FluentType, F: FluentFunction<C>, B: Context<C>>(
    scope: &mut State<'_, 'p, '_, 's, '_, C, F, B>,
    arguments: &'p [NamedArgument<'s>],
) -> Result<FluentArgs<'p, C>, AllocError>
    ensures values { IfOk result (λ args. named_view C.content args
        ≡ set_all (means.named_leaf_values (status B.meant B.is_plain F.answer C.content scope.old).environment arguments.now) []) }
    ensures reports { ReportsSome B.meant B.is_plain F.answer C.content
        (means.errors_of_named_leaves (status B.meant B.is_plain F.answer C.content scope.old).environment arguments.now) result scope }
{
    let mut args = FluentArgs::new(scope.bundle.allocator());
    for argument in arguments {
        let value = leaf_value(scope, &argument.value)?;
        args.set(CowStr::Borrowed(argument.name.name), value)?;
    }
    Ok(args)
}

/// Writes what a function answers to literals and variables.
#[inline(never)]
pub fn put_answer_to_leaves<'p, 's, W: Write, C: FluentType, F: FluentFunction<C>, B: Context<C>>(
    scope: &mut State<'_, 'p, '_, 's, '_, C, F, B>,
    out: &mut Output<W>,
    inline: &InlineExpression<'_>,
    id: &Identifier<'_>,
    arguments: &'p CallArguments<'s>,
    cursor: Cursor<'p>,
) -> Result<(), Halt>
    requires { IsPlaced scope.old.ids.now (a_function id.now.name.now ∷ []) cursor }
    ensures { Writes B.meant B.is_plain F.answer C.content W.contents
        (means.events_of_leaf_answer inline.now id.now.name.now arguments.now) result out scope }
{
    let positional = positional_values(scope, &arguments.positional)?;
    let named = named_values(scope, &arguments.named)?;
    put_answer(scope, out, inline, id, &positional, &named, cursor)
}

/// What a function answers to literals and variables, as a value: an error value where the id names none.
#[inline(never)]
pub fn answer_to_leaves<'p, 's, C: FluentType, F: FluentFunction<C>, B: Context<C>>(
    scope: &mut State<'_, 'p, '_, 's, '_, C, F, B>,
    id: &Identifier<'_>,
    arguments: &'p CallArguments<'s>,
    cursor: Cursor<'p>,
) -> Result<FluentValue<'p, C>, AllocError>
    requires { IsPlaced scope.old.ids.now (a_function id.now.name.now ∷ []) cursor }
    ensures value { IfOk result (λ v. value_view C.content v ≡ unwrap_or
        (means.leaf_answer id.now.name.now arguments.now (status B.meant B.is_plain F.answer C.content scope.old)) error_value) }
    ensures reports { ReportsSome B.meant B.is_plain F.answer C.content
        (means.errors_of_call arguments.now (status B.meant B.is_plain F.answer C.content scope.old).environment) result scope }
{
    let positional = positional_values(scope, &arguments.positional)?;
    let named = named_values(scope, &arguments.named)?;
    let alloc = scope.bundle.allocator();
    match answer_of(scope.ids, alloc, id.name, &positional, &named, cursor)? {
        Some(answer) => Ok(answer),
        None => Ok(FluentValue::Error),
    }
}

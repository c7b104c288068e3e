//! The arguments of a term reference.

ghost use Rattle.std.specs.Prelude.{◌≡◌, [], IfOk};
ghost use Rattle.std.specs.Option.{option_map};
ghost use Rattle.fluent_ast.specs.View.{inline_view};
ghost use Rattle.fluent_semantics.specs.Bundle.{shown};
ghost use Rattle.fluent_semantics.specs.Arguments.{get, set_all};
ghost use Rattle.fluent_resolver_state.specs.Locals as means;
ghost use Rattle.fluent_values.specs.View.{value_view};
ghost use Rattle.fluent_resolver_state.specs.StateCalls.{Puts};

use crate::fallback::put_in_braces;
use fluent_ast::ast::{CallArguments, InlineExpression, NamedArgument};
use fluent_text::unescape_unicode_to_string;
use fluent_values::output::{Halt, Output};
use fluent_values::shown::put_value;
use fluent_values::{Context, FluentArgs, FluentType, FluentValue};
use std::alloc::{AllocError, Global};
use std::io::Write;

/// The named arguments of a term reference. Where all are literals, as in any source, they stay in the tree, and no
/// memory is taken for them: a value is made where a variable asks for it.
#[derive(Drop)]
pub enum Locals<'p, 's, C> {
    Values(FluentArgs<'p, C>),
    Literals(Option<&'p CallArguments<'s>>),
}

impl<'p, 's, C: FluentType> Locals<'p, 's, C> {
    ghost use Rattle.std.specs.Prelude.{◌≡◌, IfOk};
    ghost use Rattle.fluent_resolver_state.specs.Locals.{locals_view, value_of};
    ghost use Rattle.fluent_values.specs.View.{value_view};

    /// A copy of the value of a name; an error value where it has none.
    #[inline(always)]
    pub(crate) fn value(&self, alloc: Global, name: &str) -> Result<FluentValue<'p, C>, AllocError>
        ensures { IfOk result (λ v. value_view C.content v
            ≡ value_of name.now (locals_view C.content self.now)) }
    {
        match self {
            Locals::Values(args) => match args.get(name) {
                Some(value) => value.try_clone(alloc),
                None => Ok(FluentValue::Error),
            },
            Locals::Literals(arguments) => match literal(*arguments, name) {
                Some(found) => literal_value(alloc, found),
                None => Ok(FluentValue::Error),
            },
        }
    }
}

/// Whether a call has named arguments alone, each a literal.
pub fn has_literals_alone(arguments: &CallArguments<'_>) -> bool
    ensures { result ≡ means.has_literals_alone arguments.now }
{
    arguments.positional.is_empty() && are_literals(&arguments.named)
}

/// Whether arguments are literals, each.
fn are_literals(arguments: &[NamedArgument<'_>]) -> bool
    ensures { result ≡ means.are_literals arguments.now }
{
    for argument in arguments {
        if !is_literal(&argument.value) {
            return false;
        }
    }
    true
}

/// Whether it is a string or a number as written.
fn is_literal(inline: &InlineExpression<'_>) -> bool
    ensures { result ≡ means.is_literal (inline_view inline.now) }
{
    matches!(
        inline,
        InlineExpression::StringLiteral { .. } | InlineExpression::NumberLiteral { .. }
    )
}

/// The last named argument of a name, if there are arguments.
pub(crate) fn literal<'p, 's>(
    arguments: Option<&'p CallArguments<'s>>,
    name: &str,
) -> Option<&'p InlineExpression<'s>>
    ensures { option_map (λ x. means.literal_value (inline_view x.now)) result
        ≡ get name.now (set_all (means.literals_in arguments.entry) []) }
{
    match arguments {
        Some(arguments) => last_named(&arguments.named, name),
        None => None,
    }
}

/// The last argument of a name.
fn last_named<'p, 's>(
    arguments: &'p [NamedArgument<'s>],
    name: &str,
) -> Option<&'p InlineExpression<'s>>
    ensures { option_map (λ x. means.literal_value (inline_view x.now)) result
        ≡ get name.now (set_all (means.literal_values arguments.now) []) }
{
    let mut found = None;
    for argument in arguments {
        if argument.name.name == name {
            found = Some(&argument.value);
        }
    }
    found
}

/// The value of a literal, and of what is none an error value.
#[inline(always)]
pub(crate) fn literal_value<'p, C: FluentType>(
    alloc: Global,
    literal: &'p InlineExpression<'_>,
) -> Result<FluentValue<'p, C>, AllocError>
    ensures { IfOk result (λ v. value_view C.content v
        ≡ means.literal_value (inline_view literal.now)) }
{
    match literal {
        InlineExpression::StringLiteral { value } => {
            let text = unescape_unicode_to_string(alloc, value)?;
            Ok(FluentValue::String(text))
        }
        InlineExpression::NumberLiteral { value } => Ok(FluentValue::try_number(value)),
        _ => Ok(FluentValue::Error),
    }
}

/// Writes what a variable shows: its value, or its fallback in braces where it has none.
#[inline(always)]
pub(crate) fn put_local<W: Write, C: FluentType, B: Context<C>>(
    bundle: &B,
    out: &mut Output<W>,
    locals: &Locals<'_, '_, C>,
    variable: &InlineExpression<'_>,
    name: &str,
) -> Result<(), Halt>
    ensures { Puts W.contents (means.shown_or_fallback (B.meant bundle.now)
        (inline_view variable.now) (get name.now (means.locals_view C.content locals.now)))
        result out }
{
    match locals {
        Locals::Values(args) => match args.get(name) {
            Some(value) => put_value(bundle, out, value),
            None => put_in_braces(out, variable),
        },
        Locals::Literals(arguments) => match literal(*arguments, name) {
            Some(found) => put_literal(bundle, out, found),
            None => put_in_braces(out, variable),
        },
    }
}

/// Writes what a literal shows. It stands by itself, as what a call may hold costs at its entry.
#[inline(never)]
fn put_literal<W: Write, C: FluentType, B: Context<C>>(
    bundle: &B,
    out: &mut Output<W>,
    literal: &InlineExpression<'_>,
) -> Result<(), Halt>
    ensures { Puts W.contents (shown (B.meant bundle.now)
        (means.literal_value (inline_view literal.now))) result out }
{
    let value = literal_value::<C>(bundle.allocator(), literal)?;
    put_value(bundle, out, &value)
}

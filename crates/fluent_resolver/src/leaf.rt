//! Literals and variables, in which nothing else stands.
#![tactic(auto, unfolding(fluent_resolver_state::specs::Status::state_parts))]

ghost use Rattle.std.specs.Prelude.{◌≡◌};
ghost use Rattle.fluent_ast.specs.View.{inline_view};
ghost use Rattle.fluent_resolver_state.specs.Status.{stored_in};
ghost use Rattle.fluent_resolver.specs.Frames.{Passes};
ghost use Rattle.fluent_resolver.specs.Inside.Parts as parts;
ghost use Rattle.fluent_resolver.specs.Inside.Parts.{IsLeaf};

use fluent_ast::ast::InlineExpression;
use fluent_resolver_state::State;
use fluent_resolver_state::shown::put_number;
use fluent_resolver_state::variable::write_variable;
use fluent_values::output::{Halt, Output, put_unescaped};
use fluent_values::{Context, FluentFunction, FluentType};
use std::io::Write;

/// Writes what a literal or a variable gives.
#[inline(never)]
pub(crate) fn put_leaf<'p, 's, W: Write, C: FluentType, F: FluentFunction<C>, B: Context<C>>(
    scope: &mut State<'_, 'p, '_, 's, '_, C, F, B>,
    out: &mut Output<W>,
    inline: &InlineExpression<'_>,
) -> Result<(), Halt>
    requires { IsLeaf (inline_view inline.now) }
    ensures passes { Passes B.meant B.is_plain F.answer C.content W.contents result
        (parts.written (inline_view inline.now)) scope out }
    ensures stored { stored_in scope.new.ids.now ≡ stored_in scope.old.ids.now }
{
    match inline {
        InlineExpression::StringLiteral { value } => put_unescaped(
            scope.bundle.allocator(),
            out,
            value,
        ),
        InlineExpression::NumberLiteral { value } => put_number(scope.bundle, out, value),
        InlineExpression::VariableReference { id } => write_variable(scope, out, inline, id),
        _ => Ok(()),
    }
}

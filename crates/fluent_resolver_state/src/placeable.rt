//! What stands round a placeable: its marks, and its fallback where the limit was reached.

ghost use Rattle.std.specs.Prelude.{◌≡◌, true};
ghost use Rattle.fluent_ast.specs.Fallback.{fallback, fallback_of};
ghost use Rattle.fluent_ast.specs.View.{expression_view, inline_view, pattern_view};
ghost use Rattle.fluent_semantics.specs.Meaning.{first_mark, last_mark, ending};
ghost use Rattle.fluent_semantics.specs.Walk.{has_one, is_bare, is_marked};
ghost use Rattle.fluent_resolver_state.specs.Status.{budget_view};
ghost use Rattle.fluent_resolver_state.specs.StateCalls.{Puts};

use crate::budget::Budget;
use crate::fallback::put_in_braces;
use fluent_ast::ast::{Expression, InlineExpression, Pattern};
use fluent_values::output::{Halt, Output, put_here};
use fluent_values::{Context, FluentType};
use std::io::Write;

/// Whether a pattern has one element alone.
pub fn has_one(pattern: &Pattern) -> bool
    ensures { result ≡ has_one (pattern_view pattern.now) }
{
    pattern.elements.len() == 1
}

/// Whether a placeable stands between isolation marks.
pub fn is_marked<C: FluentType, B: Context<C>>(
    bundle: &B,
    one: bool,
    expression: &Expression,
) -> bool
    ensures { result ≡ is_marked (B.meant bundle.now).isolates one
        (expression_view expression.now) }
{
    bundle.uses_isolating() && !one && !is_bare(expression)
}

/// Whether it is directly a message reference, a term reference or a string literal.
fn is_bare(expression: &Expression) -> bool
    ensures { result ≡ is_bare (expression_view expression.now) }
{
    matches!(
        expression,
        Expression::Inline(
            InlineExpression::MessageReference { .. }
                | InlineExpression::TermReference { .. }
                | InlineExpression::StringLiteral { .. }
        )
    )
}

/// U+2068 FIRST STRONG ISOLATE, where it is wanted.
pub fn put_first_mark<W: Write>(out: &mut Output<W>, marked: bool) -> Result<(), Halt>
    ensures { Puts W.contents (first_mark marked) result out }
{
    if marked { put_first(out) } else { Ok(()) }
}

/// The mark itself. It stands by itself, as do all that write literals, since they take room where they are written.
#[inline(never)]
fn put_first<W: Write>(out: &mut Output<W>) -> Result<(), Halt>
    ensures { Puts W.contents (first_mark true) result out }
{
    put_here(out, "\u{2068}")
}

/// U+2069 POP DIRECTIONAL ISOLATE, where it is wanted.
pub fn put_last_mark<W: Write>(out: &mut Output<W>, marked: bool) -> Result<(), Halt>
    ensures { Puts W.contents (last_mark marked) result out }
{
    if marked { put_last(out) } else { Ok(()) }
}

/// The mark itself.
#[inline(never)]
fn put_last<W: Write>(out: &mut Output<W>) -> Result<(), Halt>
    ensures { Puts W.contents (last_mark true) result out }
{
    put_here(out, "\u{2069}")
}

/// A placeable that was open where the limit was reached ends with its fallback.
pub fn put_ending<W: Write>(
    out: &mut Output<W>,
    expression: &Expression,
    budget: Budget,
) -> Result<(), Halt>
    ensures { Puts W.contents (ending (fallback_of (expression_view expression.now)) (budget_view budget)) result out }
{
    match budget {
        Budget::Left(_) => Ok(()),
        Budget::LimitReached => put_in_braces(out, shown_part(expression)),
    }
}

/// The part of an expression that its fallback shows: of a select the selector.
fn shown_part<'tree, 's>(expression: &'tree Expression<'s>) -> &'tree InlineExpression<'s>
    ensures { fallback (inline_view result.now) ≡ fallback_of (expression_view expression.now) }
{
    match expression {
        Expression::Inline(inline) => inline,
        Expression::Select { selector, .. } => selector,
    }
}

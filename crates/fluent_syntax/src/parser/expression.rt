//! Placeables: a select or another expression between braces, to a depth.
ghost use Rattle.std.specs.Prelude.{◌≡◌};
ghost use Rattle.fluent_syntax.specs.Expressions as spec;
ghost use Rattle.fluent_syntax.specs.Expressions.{level};
ghost use Rattle.fluent_syntax.specs.Inside.Reading.{Gives};
ghost use Rattle.fluent_syntax.specs.Inside.Nests.{GivesBraces, GivesBrackets};
ghost use Rattle.fluent_ast.specs.View.{inline_view, expression_view, arguments_view};

use crate::parser::bytes::eat;
use crate::parser::inner::Inner;
use crate::parser::lines::after_blank;
use crate::parser::select::{arrow, is_selector};
use crate::parser::stop::Stop;
use fluent_ast::ast::{CallArguments, Expression, InlineExpression};
use std::alloc::Global;

/// Whether an expression may stand between braces without variants.
#[inline(always)]
fn stands_alone(x: &InlineExpression) -> bool
    ensures { result ≡ spec.stands_alone (inline_view x.now) }
{
    match x {
        InlineExpression::TermReference { attribute, .. } => attribute.is_none(),
        InlineExpression::StringLiteral { .. } => true,
        InlineExpression::NumberLiteral { .. } => true,
        InlineExpression::FunctionReference { .. } => true,
        InlineExpression::VariableReference { .. } => true,
        InlineExpression::MessageReference { .. } => true,
        InlineExpression::Placeable { .. } => true,
    }
}

/// The expression itself, before `rest`, where it needs no variants.
#[inline(always)]
fn alone<'s>(x: InlineExpression<'s>, rest: &'s str) -> Result<(Expression<'s>, &'s str), Stop>
    ensures { Gives expression_view result (spec.alone (inline_view x.entry) rest.now) }
{
    if !stands_alone(&x) {
        return Err(Stop::Absent);
    }
    Ok((Expression::Inline(x), rest))
}

impl<
    's,
    F: Fn(Global, &'s str, usize) -> Result<(Expression<'s>, &'s str), Stop>,
    G: Fn(Global, &'s str, usize) -> Result<(CallArguments<'s>, &'s str), Stop>,
> Inner<F, G> {
    /// A select or an inline expression. The inline expression is read once, whether `->` follows it or not.
    #[inline(always)]
    #[tactic(auto, unfolding(crate::specs::Expressions::expression))]
    fn expression(&self, s: &'s str) -> Result<(Expression<'s>, &'s str), Stop>
        requires braces { GivesBraces F.pre F.post self.now.depth self.now.braces }
        requires brackets { GivesBrackets G.pre G.post self.now.depth self.now.brackets }
        ensures { Gives expression_view result (spec.expression (level self.now.depth) s.now) }
    {
        let (x, rest) = self.inline_expression(s)?;
        if !is_selector(&x) {
            return alone(x, rest);
        }
        let Some(list) = arrow(rest) else {
            return alone(x, rest);
        };
        match self.variant_list(list) {
            Ok((variants, end)) => Ok((
                Expression::Select {
                    selector: x,
                    variants,
                },
                end,
            )),
            Err(Stop::Absent) => alone(x, rest),
            Err(Stop::Memory) => Err(Stop::Memory),
        }
    }

    #[tactic(auto, unfolding(crate::specs::Expressions::inline_placeable))]
    fn inline_placeable(&self, s: &'s str) -> Result<(Expression<'s>, &'s str), Stop>
        requires braces { GivesBraces F.pre F.post self.now.depth self.now.braces }
        requires brackets { GivesBrackets G.pre G.post self.now.depth self.now.brackets }
        ensures { Gives expression_view result (spec.inline_placeable
            (level self.now.depth) s.now) }
    {
        let opened = eat(s, b'{').ok_or(Stop::Absent)?;
        let (x, rest) = self.expression(after_blank(opened))?;
        let closed = eat(after_blank(rest), b'}').ok_or(Stop::Absent)?;
        Ok((x, closed))
    }
}

/// A placeable, with no more than `depth` of them and of argument lists in one another.
#[cycle(nest)]
#[tactic(auto, unfolding(crate::specs::Expressions::level))]
pub fn inline_placeable<'s>(
    alloc: Global,
    s: &'s str,
    depth: usize,
) -> Result<(Expression<'s>, &'s str), Stop>
    ensures { Gives expression_view result ((level depth).braces s.now) }
{
    if depth == 0 {
        return Err(Stop::Absent);
    }
    Inner {
        alloc,
        depth: depth - 1,
        braces: inline_placeable,
        brackets: call_arguments,
    }
    .inline_placeable(s)
}

/// The arguments of a call, to the same depth.
#[cycle(nest)]
#[tactic(auto, unfolding(crate::specs::Expressions::level))]
pub fn call_arguments<'s>(
    alloc: Global,
    s: &'s str,
    depth: usize,
) -> Result<(CallArguments<'s>, &'s str), Stop>
    ensures { Gives arguments_view result ((level depth).brackets s.now) }
{
    if depth == 0 {
        return Err(Stop::Absent);
    }
    Inner {
        alloc,
        depth: depth - 1, // as a placeable counts
        braces: inline_placeable,
        brackets: call_arguments,
    }
    .call_arguments(s)
}

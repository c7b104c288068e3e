//! References that stand alone between braces, which most placeables are.
ghost use Rattle.std.specs.Prelude.{IfSome};
ghost use Rattle.fluent_syntax.specs.Inside.Bare.{IsBare, IsBarePlaceable};
ghost use Rattle.fluent_ast.specs.View.{inline_view, expression_view};

use crate::parser::bytes::{byte_at, eat};
use crate::parser::lines::{after_blank, identifier};
use fluent_ast::ast::{Expression, InlineExpression};

/// A variable, a message or a term, without an attribute and without arguments.
#[inline(always)]
fn bare_reference<'s>(s: &'s str) -> Option<(InlineExpression<'s>, &'s str)>
    ensures { IfSome result (λ p. IsBare s.now (inline_view p.0) p.1.now) }
{
    if let Some(name) = eat(s, b'$') {
        let (id, rest) = identifier(name)?;
        return Some((InlineExpression::VariableReference { id }, rest));
    }
    if let Some(name) = eat(s, b'-') {
        let (id, rest) = identifier(name)?;
        if byte_at(rest, 0) == b'.' {
            return None;
        }
        return Some((
            InlineExpression::TermReference {
                id,
                attribute: None,
                arguments: None,
            },
            rest,
        ));
    }
    let (id, rest) = identifier(s)?;
    if byte_at(rest, 0) == b'.' {
        return None;
    }
    Some((
        InlineExpression::MessageReference {
            id,
            attribute: None,
        },
        rest,
    ))
}

/// The same between braces, with nothing else there.
#[inline(always)]
pub fn bare_placeable<'s>(s: &'s str) -> Option<(Expression<'s>, &'s str)>
    ensures { IfSome result (λ p. IsBarePlaceable s.now (expression_view p.0) p.1.now) }
{
    let inside = after_blank(eat(s, b'{')?);
    let (x, rest) = bare_reference(inside)?;
    let end = eat(after_blank(rest), b'}')?;
    Some((Expression::Inline(x), end))
}

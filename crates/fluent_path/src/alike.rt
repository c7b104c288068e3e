//! Whether two patterns have one content, by what tells most of them apart first.

ghost use Rattle.std.specs.Prelude.{◌≡◌, IfSome};
ghost use Rattle.fluent_ast.specs.Tree.{is_yes, pattern_same};
ghost use Rattle.fluent_ast.specs.View.{expression_view, pattern_view};
ghost use Rattle.fluent_path.specs.Inside.Alike.{are_alike, begin_alike, only_message, referring};

use fluent_ast::ast::{Expression, InlineExpression, Pattern, PatternElement};

/// Whether two patterns have one content. Of most that differ, the lengths do, or what they begin with.
#[inline(always)]
pub(crate) fn is_like<'s>(one: &Pattern<'s>, other: &Pattern<'s>) -> bool
    ensures { result ≡ is_yes (pattern_same (pattern_view one.now) (pattern_view other.now)) }
{
    if one.elements.len() != other.elements.len() {
        return false;
    }
    if !begin_alike(one, other) {
        return false;
    }
    is_equal(one, other)
}

/// Whether two patterns may begin with the same element: with texts of one length, or with placeables that may be the
/// same.
#[inline(always)]
fn begin_alike(one: &Pattern<'_>, other: &Pattern<'_>) -> bool
    ensures { result ≡ begin_alike (pattern_view one.now) (pattern_view other.now) }
{
    match (one.elements.first(), other.elements.first()) {
        (
            Some(PatternElement::TextElement { value: own }),
            Some(PatternElement::TextElement { value }),
        ) => own.len() == value.len(),
        (
            Some(PatternElement::Placeable { expression: own }),
            Some(PatternElement::Placeable { expression }),
        ) => are_alike(own, expression),
        (None, None) => true,
        _ => false,
    }
}

/// Whether two expressions may be the same, by the lengths of ids where both are references to messages.
#[inline(always)]
fn are_alike(one: &Expression<'_>, other: &Expression<'_>) -> bool
    ensures { result ≡ are_alike (expression_view one.now) (expression_view other.now) }
{
    match (one, other) {
        (
            Expression::Inline(InlineExpression::MessageReference { id: own, .. }),
            Expression::Inline(InlineExpression::MessageReference { id, .. }),
        ) => own.name.len() == id.name.len(),
        _ => true,
    }
}

/// The same of two that have as many elements. It stands by itself, so that calls that differ by length cost little. Of
/// two references to messages, as cycles are made of, the ids tell.
#[inline(never)]
fn is_equal<'s>(one: &Pattern<'s>, other: &Pattern<'s>) -> bool
    ensures { result ≡ is_yes (pattern_same (pattern_view one.now) (pattern_view other.now)) }
{
    match (only_message(one), only_message(other)) {
        (Some(own), Some(id)) => own == id,
        _ => *one == *other,
    }
}

/// The id of the message, without an attribute, that a pattern refers to, where it holds nothing else.
#[inline(always)]
fn only_message<'s>(pattern: &Pattern<'s>) -> Option<&'s str>
    ensures { IfSome result (λ id. pattern_view pattern.now ≡ only_message id.now) }
{
    match pattern.elements.as_slice() {
        [element] => match element {
            PatternElement::Placeable { expression } => message_in(expression),
            PatternElement::TextElement { .. } => None,
        },
        _ => None,
    }
}

/// The id of the message, without an attribute, that an expression refers to.
#[inline(always)]
fn message_in<'s>(expression: &Expression<'s>) -> Option<&'s str>
    ensures { IfSome result (λ id. expression_view expression.now ≡ referring id.now) }
{
    match expression {
        Expression::Inline(inline) => match inline {
            InlineExpression::MessageReference { id, attribute } => match attribute {
                None => Some(id.name),
                Some(_) => None,
            },
            _ => None,
        },
        Expression::Select { .. } => None,
    }
}

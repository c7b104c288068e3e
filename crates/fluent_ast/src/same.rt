//! Whether two parts of a tree have the same content, part by part.

ghost use Rattle.std.specs.Prelude.{◌≡◌, ◌↔◌, IsTrue, map};
ghost use Rattle.fluent_ast.specs.View.{arguments_view, attribute_of, call_view, element_view, expression_view, inline_view, key_view, named_view, pattern_view, variant_view};

use crate::ast::{
    CallArguments, Expression, Identifier, InlineExpression, NamedArgument, Pattern,
    PatternElement, Variant, VariantKey,
};

#[cycle(same)]
pub(crate) fn same_pattern<'s>(a: &Pattern<'s>, b: &Pattern<'s>) -> bool
    ensures { IsTrue result ↔ (pattern_view a.now ≡ pattern_view b.now) }
{
    same_elements(&a.elements, &b.elements)
}

#[cycle(same)]
fn same_elements<'s>(a: &[PatternElement<'s>], b: &[PatternElement<'s>]) -> bool
    ensures { IsTrue result ↔ (map element_view a.now ≡ map element_view b.now) }
{
    if a.len() != b.len() {
        return false;
    }
    'elements: for i in 0..a.len() {
        if !same_element(&a[i], &b[i]) {
            return false;
        }
    }
    true
}

#[cycle(same)]
pub(crate) fn same_element<'s>(a: &PatternElement<'s>, b: &PatternElement<'s>) -> bool
    ensures { IsTrue result ↔ (element_view a.now ≡ element_view b.now) }
{
    match (a, b) {
        (PatternElement::TextElement { value: x }, PatternElement::TextElement { value: y }) => *x
            == *y,
        (
            PatternElement::Placeable { expression: x },
            PatternElement::Placeable { expression: y },
        ) => same_expression(x, y),
        _ => false,
    }
}

#[cycle(same)]
pub(crate) fn same_expression<'s>(a: &Expression<'s>, b: &Expression<'s>) -> bool
    ensures { IsTrue result ↔ (expression_view a.now ≡ expression_view b.now) }
{
    match (a, b) {
        (Expression::Inline(x), Expression::Inline(y)) => same_inline(x, y),
        (
            Expression::Select {
                selector: x,
                variants: xs,
            },
            Expression::Select {
                selector: y,
                variants: ys,
            },
        ) => { same_inline(x, y) && same_variants(xs, ys) }
        _ => false,
    }
}

#[cycle(same)]
fn same_variants<'s>(a: &[Variant<'s>], b: &[Variant<'s>]) -> bool
    ensures { IsTrue result ↔ (map variant_view a.now ≡ map variant_view b.now) }
{
    if a.len() != b.len() {
        return false;
    }
    'variants: for i in 0..a.len() {
        if !same_variant(&a[i], &b[i]) {
            return false;
        }
    }
    true
}

#[cycle(same)]
pub(crate) fn same_variant<'s>(a: &Variant<'s>, b: &Variant<'s>) -> bool
    ensures { IsTrue result ↔ (variant_view a.now ≡ variant_view b.now) }
{
    if a.default != b.default {
        return false;
    }
    same_key(&a.key, &b.key) && same_pattern(&a.value, &b.value)
}

#[cycle(same)]
pub(crate) fn same_inline<'s>(a: &InlineExpression<'s>, b: &InlineExpression<'s>) -> bool
    ensures { IsTrue result ↔ (inline_view a.now ≡ inline_view b.now) }
{
    match (a, b) {
        (
            InlineExpression::StringLiteral { value: x },
            InlineExpression::StringLiteral { value: y },
        ) => *x == *y,
        (
            InlineExpression::NumberLiteral { value: x },
            InlineExpression::NumberLiteral { value: y },
        ) => *x == *y,
        (
            InlineExpression::FunctionReference {
                id: x,
                arguments: xs,
            },
            InlineExpression::FunctionReference {
                id: y,
                arguments: ys,
            },
        ) => x.name == y.name && same_arguments(xs, ys),
        (
            InlineExpression::MessageReference {
                id: x,
                attribute: p,
            },
            InlineExpression::MessageReference {
                id: y,
                attribute: q,
            },
        ) => x.name == y.name && same_attribute_name(p, q),
        (
            InlineExpression::TermReference {
                id: x,
                attribute: p,
                arguments: xs,
            },
            InlineExpression::TermReference {
                id: y,
                attribute: q,
                arguments: ys,
            },
        ) => same_target(x, p, y, q) && same_call(xs, ys),
        (
            InlineExpression::VariableReference { id: x },
            InlineExpression::VariableReference { id: y },
        ) => x.name == y.name,
        (
            InlineExpression::Placeable { expression: x },
            InlineExpression::Placeable { expression: y },
        ) => same_expression(x, y),
        _ => false,
    }
}

#[cycle(same)]
fn same_call<'s>(a: &Option<Box<CallArguments<'s>>>, b: &Option<Box<CallArguments<'s>>>) -> bool
    ensures { IsTrue result ↔ (call_view a.now ≡ call_view b.now) }
{
    match (a, b) {
        (None, None) => true,
        (Some(x), Some(y)) => same_arguments(x, y),
        _ => false,
    }
}

#[cycle(same)]
pub(crate) fn same_arguments<'s>(a: &CallArguments<'s>, b: &CallArguments<'s>) -> bool
    ensures { IsTrue result ↔ (arguments_view a.now ≡ arguments_view b.now) }
{
    same_inlines(&a.positional, &b.positional) && same_nameds(&a.named, &b.named)
}

#[cycle(same)]
fn same_inlines<'s>(a: &[InlineExpression<'s>], b: &[InlineExpression<'s>]) -> bool
    ensures { IsTrue result ↔ (map inline_view a.now ≡ map inline_view b.now) }
{
    if a.len() != b.len() {
        return false;
    }
    'inlines: for i in 0..a.len() {
        if !same_inline(&a[i], &b[i]) {
            return false;
        }
    }
    true
}

#[cycle(same)]
fn same_nameds<'s>(a: &[NamedArgument<'s>], b: &[NamedArgument<'s>]) -> bool
    ensures { IsTrue result ↔ (map named_view a.now ≡ map named_view b.now) }
{
    if a.len() != b.len() {
        return false;
    }
    'nameds: for i in 0..a.len() {
        if !same_named(&a[i], &b[i]) {
            return false;
        }
    }
    true
}

#[cycle(same)]
pub(crate) fn same_named<'s>(a: &NamedArgument<'s>, b: &NamedArgument<'s>) -> bool
    ensures { IsTrue result ↔ (named_view a.now ≡ named_view b.now) }
{
    a.name.name == b.name.name && same_inline(&a.value, &b.value)
}

pub(crate) fn same_key(a: &VariantKey, b: &VariantKey) -> bool
    ensures { IsTrue result ↔ (key_view a.now ≡ key_view b.now) }
{
    match (a, b) {
        (VariantKey::Identifier { name: x }, VariantKey::Identifier { name: y }) => *x == *y,
        (VariantKey::NumberLiteral { value: x }, VariantKey::NumberLiteral { value: y }) => *x
            == *y,
        _ => false,
    }
}

fn same_attribute_name(a: &Option<Identifier>, b: &Option<Identifier>) -> bool
    ensures { IsTrue result ↔ (attribute_of a.now ≡ attribute_of b.now) }
{
    match (a, b) {
        (None, None) => true,
        (Some(x), Some(y)) => x.name == y.name,
        _ => false,
    }
}

/// The same name and attribute.
fn same_target(
    a: &Identifier,
    p: &Option<Identifier>,
    b: &Identifier,
    q: &Option<Identifier>,
) -> bool
    ensures { IsTrue result ↔ ((a.now.name.now ≡ b.now.name.now)
        × (attribute_of p.now ≡ attribute_of q.now)) }
{
    a.name == b.name && same_attribute_name(p, q)
}

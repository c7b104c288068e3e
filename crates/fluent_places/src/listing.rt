//! What a pattern needs, listed.

ghost use Rattle.std.specs.Prelude.{◌≡◌, ◌↔◌, IfOk, OnOk, IsTrue};
ghost use Rattle.fluent_ast.specs.View.{arguments_view, expression_view, inline_view, pattern_view};
ghost use Rattle.fluent_ast.specs.References.{inlines_view, nameds_view, variants_view};
ghost use Rattle.fluent_places.specs.Places.{place_view};
ghost use Rattle.fluent_places.specs.Needs.{has_default, needs, in_expression, in_variants, in_inline, in_arguments, in_positional, in_named};
ghost use Rattle.fluent_places.specs.Inside.Listing.{Appends, missing_default};
ghost use Rattle.fluent_places.specs.NeedsView.{need_view, needs_view, IsOfPlace, Refers};

use crate::place::{Place, same_place};
use fluent_ast::ast::{
    CallArguments, Expression, Identifier, InlineExpression, NamedArgument, Pattern,
    PatternElement, Variant,
};
use std::alloc::{AllocError, Global};

/// What a pattern needs of its bundle, or of the arguments.
#[derive(Clone, Copy, Drop)]
pub enum Need<'t, 's> {
    /// A message's value, or an attribute of it.
    Message(Identifier<'s>, Option<Identifier<'s>>),
    /// A term's value, or an attribute of it, with the arguments of the reference.
    Term(Identifier<'s>, Option<Identifier<'s>>, &'t Option<Box<CallArguments<'s>>>),
    Function(Identifier<'s>),
    Variable(Identifier<'s>),
    /// A default variant, of a select that has none.
    Default,
}

/// Lists what a pattern needs: each message, term and function that it refers to, each variable, and a default for each
/// select that has none. They stand in the order of the tree, those of all variants and arguments, each as often as it
/// stands there.
///
/// # Errors
///
/// An allocation failed.
pub fn needs<'t, 's>(
    alloc: Global,
    pattern: &'t Pattern<'s>,
) -> Result<Vec<Need<'t, 's>>, AllocError>
    ensures { IfOk result (λ list. needs_view list ≡ needs (pattern_view pattern.now)) }
{
    let mut list = Vec::new(alloc);
    add_pattern(&mut list, pattern)?;
    Ok(list)
}

/// Whether a pattern refers to a place: whether a reference to it stands in the pattern itself, in any variant,
/// selector or argument.
///
/// # Errors
///
/// An allocation failed.
pub fn refers_to<'s>(
    alloc: Global,
    pattern: &Pattern<'s>,
    place: &Place<'s>,
) -> Result<bool, AllocError>
    ensures { IfOk result (λ yes. IsTrue yes ↔ Refers pattern.now place.now) }
{
    let list = needs(alloc, pattern)?;
    for need in &list {
        if is_of_place(need, place) {
            return Ok(true);
        }
    }
    Ok(false)
}

/// Whether a need is a reference to a place.
fn is_of_place<'s>(need: &Need<'_, 's>, place: &Place<'s>) -> bool
    ensures { IsTrue result ↔ IsOfPlace (place_view place.now) (need_view need.now) }
{
    match need {
        Need::Message(id, attribute) => same_place(&Place::Message(*id, *attribute), place),
        Need::Term(id, attribute, _) => same_place(&Place::Term(*id, *attribute), place),
        Need::Function(_) | Need::Variable(_) | Need::Default => false,
    }
}

#[cycle(listing)]
fn add_pattern<'t, 's>(
    list: &mut Vec<Need<'t, 's>>,
    pattern: &'t Pattern<'s>,
) -> Result<(), AllocError>
    ensures { OnOk result (Appends list.old list.new (needs (pattern_view pattern.now))) }
{
    for element in &pattern.elements {
        if let PatternElement::Placeable { expression } = element {
            add_expression(list, expression)?;
        }
    }
    Ok(())
}

#[cycle(listing)]
fn add_expression<'t, 's>(
    list: &mut Vec<Need<'t, 's>>,
    expression: &'t Expression<'s>,
) -> Result<(), AllocError>
    ensures { OnOk result
        (Appends list.old list.new (in_expression (expression_view expression.now))) }
{
    match expression {
        Expression::Inline(inline) => add_inline(list, inline),
        Expression::Select { selector, variants } => {
            add_inline(list, selector)?;
            add_variants(list, variants)?;
            add_default(list, variants)
        }
    }
}

/// Lists a default where none of the variants is one.
fn add_default<'t, 's>(
    list: &mut Vec<Need<'t, 's>>,
    variants: &[Variant<'s>],
) -> Result<(), AllocError>
    ensures { OnOk result
        (Appends list.old list.new (missing_default variants.now)) }
{
    if !has_default(variants) {
        list.push(Need::Default)?;
    }
    Ok(())
}

/// Whether one of the variants is a default.
fn has_default(variants: &[Variant<'_>]) -> bool
    ensures { result ≡ has_default (variants_view variants.now) }
{
    for variant in variants {
        if variant.default {
            return true;
        }
    }
    false
}

#[cycle(listing)]
fn add_variants<'t, 's>(
    list: &mut Vec<Need<'t, 's>>,
    variants: &'t [Variant<'s>],
) -> Result<(), AllocError>
    ensures { OnOk result (Appends list.old list.new (in_variants (variants_view variants.now))) }
{
    for variant in variants {
        add_pattern(list, &variant.value)?;
    }
    Ok(())
}

#[cycle(listing)]
fn add_inline<'t, 's>(
    list: &mut Vec<Need<'t, 's>>,
    inline: &'t InlineExpression<'s>,
) -> Result<(), AllocError>
    ensures { OnOk result (Appends list.old list.new (in_inline (inline_view inline.now))) }
{
    match inline {
        InlineExpression::FunctionReference { id, arguments } => {
            list.push(Need::Function(*id))?;
            add_arguments(list, arguments)
        }
        InlineExpression::MessageReference { id, attribute } => {
            list.push(Need::Message(*id, *attribute))?;
            Ok(())
        }
        InlineExpression::TermReference {
            id,
            attribute,
            arguments,
        } => {
            list.push(Need::Term(*id, *attribute, arguments))?;
            match arguments {
                Some(arguments) => add_arguments(list, arguments),
                None => Ok(()),
            }
        }
        InlineExpression::VariableReference { id } => {
            list.push(Need::Variable(*id))?;
            Ok(())
        }
        InlineExpression::Placeable { expression } => add_expression(list, expression),
        InlineExpression::StringLiteral { .. } | InlineExpression::NumberLiteral { .. } => Ok(()),
    }
}

#[cycle(listing)]
fn add_arguments<'t, 's>(
    list: &mut Vec<Need<'t, 's>>,
    arguments: &'t CallArguments<'s>,
) -> Result<(), AllocError>
    ensures { OnOk result (Appends list.old list.new (in_arguments (arguments_view arguments.now))) }
{
    add_positional(list, &arguments.positional)?;
    add_named(list, &arguments.named)
}

#[cycle(listing)]
fn add_positional<'t, 's>(
    list: &mut Vec<Need<'t, 's>>,
    positional: &'t [InlineExpression<'s>],
) -> Result<(), AllocError>
    ensures { OnOk result (Appends list.old list.new (in_positional (inlines_view positional.now))) }
{
    for argument in positional {
        add_inline(list, argument)?;
    }
    Ok(())
}

#[cycle(listing)]
fn add_named<'t, 's>(
    list: &mut Vec<Need<'t, 's>>,
    named: &'t [NamedArgument<'s>],
) -> Result<(), AllocError>
    ensures { OnOk result (Appends list.old list.new (in_named (nameds_view named.now))) }
{
    for argument in named {
        add_inline(list, &argument.value)?;
    }
    Ok(())
}

//! Links gathered in the order of the tree.
ghost use Rattle.std.specs.Prelude.{OnErr, OnOk};
ghost use Rattle.fluent_ast.specs.References.{AreSome};
ghost use Rattle.fluent_ast.specs.ReferencesOf.{of_arguments, of_call, of_element, of_expression, of_inline, of_inlines, of_nameds, of_variants, references_of};
ghost use Rattle.fluent_references.specs.Inside.Adding.{Adds, AddsAtMostOne, AddsOne, AddsPrefix};

use crate::slots::Slots;
use fluent_ast::ast::{
    CallArguments, Expression, InlineExpression, NamedArgument, Pattern, PatternElement, Variant,
};
use std::alloc::AllocError;
use std::borrow::CowStr;

/// Adds the number of one id.
fn link_one<'s, X: Drop>(
    links: &mut Vec<u32>,
    slots: &mut Slots<'s, X>,
    id: &'s str,
) -> Result<(), AllocError>
    ensures ok { OnOk result (AddsOne slots.old slots.new links.old links.new id.now) }
    ensures err { OnErr result (AddsAtMostOne slots.old slots.new id.now) }
{
    links.push(slots.number_of(CowStr::Borrowed(id))?)?;
    Ok(())
}

/// Adds the numbers of what a pattern refers to.
#[cycle(linking)]
pub fn link_pattern<'s, X: Drop>(
    links: &mut Vec<u32>,
    slots: &mut Slots<'s, X>,
    pattern: &Pattern<'s>,
) -> Result<(), AllocError>
    ensures ok { OnOk result (Adds slots.old slots.new links.old links.new (references_of pattern.now)) }
    ensures err { OnErr result (AddsPrefix slots.old slots.new (references_of pattern.now)) }
    ensures alloc_failed { OnErr result (AreSome (references_of pattern.now)) }
{
    for element in &pattern.elements {
        link_element(links, slots, element)?;
    }
    Ok(())
}

#[cycle(linking)]
fn link_element<'s, X: Drop>(
    links: &mut Vec<u32>,
    slots: &mut Slots<'s, X>,
    element: &PatternElement<'s>,
) -> Result<(), AllocError>
    ensures ok { OnOk result (Adds slots.old slots.new links.old links.new (of_element element.now)) }
    ensures err { OnErr result (AddsPrefix slots.old slots.new (of_element element.now)) }
    ensures alloc_failed { OnErr result (AreSome (of_element element.now)) }
{
    match element {
        PatternElement::TextElement { .. } => Ok(()),
        PatternElement::Placeable { expression } => link_expression(links, slots, expression),
    }
}

#[cycle(linking)]
fn link_expression<'s, X: Drop>(
    links: &mut Vec<u32>,
    slots: &mut Slots<'s, X>,
    expression: &Expression<'s>,
) -> Result<(), AllocError>
    ensures ok { OnOk result (Adds slots.old slots.new links.old links.new (of_expression expression.now)) }
    ensures err { OnErr result (AddsPrefix slots.old slots.new (of_expression expression.now)) }
    ensures alloc_failed { OnErr result (AreSome (of_expression expression.now)) }
{
    match expression {
        Expression::Inline(inline) => link_inline(links, slots, inline),
        Expression::Select { selector, variants } => {
            link_inline(links, slots, selector)?;
            link_variants(links, slots, variants)?;
            Ok(())
        }
    }
}

#[cycle(linking)]
fn link_variants<'s, X: Drop>(
    links: &mut Vec<u32>,
    slots: &mut Slots<'s, X>,
    variants: &[Variant<'s>],
) -> Result<(), AllocError>
    ensures ok { OnOk result (Adds slots.old slots.new links.old links.new (of_variants variants.now)) }
    ensures err { OnErr result (AddsPrefix slots.old slots.new (of_variants variants.now)) }
    ensures alloc_failed { OnErr result (AreSome (of_variants variants.now)) }
{
    for variant in variants {
        link_pattern(links, slots, &variant.value)?;
    }
    Ok(())
}

#[cycle(linking)]
fn link_inline<'s, X: Drop>(
    links: &mut Vec<u32>,
    slots: &mut Slots<'s, X>,
    inline: &InlineExpression<'s>,
) -> Result<(), AllocError>
    ensures ok { OnOk result (Adds slots.old slots.new links.old links.new (of_inline inline.now)) }
    ensures err { OnErr result (AddsPrefix slots.old slots.new (of_inline inline.now)) }
    ensures alloc_failed { OnErr result (AreSome (of_inline inline.now)) }
{
    match inline {
        InlineExpression::FunctionReference { id, arguments } => {
            link_one(links, slots, id.name)?;
            link_arguments(links, slots, arguments)?;
            Ok(())
        }
        InlineExpression::MessageReference { id, .. } => link_one(links, slots, id.name),
        InlineExpression::TermReference { id, arguments, .. } => {
            link_one(links, slots, id.name)?;
            link_call(links, slots, arguments)?;
            Ok(())
        }
        InlineExpression::Placeable { expression } => link_expression(links, slots, expression),
        InlineExpression::StringLiteral { .. }
        | InlineExpression::NumberLiteral { .. }
        | InlineExpression::VariableReference { .. } => Ok(()),
    }
}

#[cycle(linking)]
fn link_call<'s, X: Drop>(
    links: &mut Vec<u32>,
    slots: &mut Slots<'s, X>,
    arguments: &Option<Box<CallArguments<'s>>>,
) -> Result<(), AllocError>
    ensures ok { OnOk result (Adds slots.old slots.new links.old links.new (of_call arguments.now)) }
    ensures err { OnErr result (AddsPrefix slots.old slots.new (of_call arguments.now)) }
    ensures alloc_failed { OnErr result (AreSome (of_call arguments.now)) }
{
    match arguments {
        Some(arguments) => link_arguments(links, slots, arguments),
        None => Ok(()),
    }
}

#[cycle(linking)]
fn link_arguments<'s, X: Drop>(
    links: &mut Vec<u32>,
    slots: &mut Slots<'s, X>,
    arguments: &CallArguments<'s>,
) -> Result<(), AllocError>
    ensures ok { OnOk result (Adds slots.old slots.new links.old links.new (of_arguments arguments.now)) }
    ensures err { OnErr result (AddsPrefix slots.old slots.new (of_arguments arguments.now)) }
    ensures alloc_failed { OnErr result (AreSome (of_arguments arguments.now)) }
{
    link_positional(links, slots, &arguments.positional)?;
    link_named(links, slots, &arguments.named)?;
    Ok(())
}

#[cycle(linking)]
fn link_positional<'s, X: Drop>(
    links: &mut Vec<u32>,
    slots: &mut Slots<'s, X>,
    positional: &[InlineExpression<'s>],
) -> Result<(), AllocError>
    ensures ok { OnOk result (Adds slots.old slots.new links.old links.new (of_inlines positional.now)) }
    ensures err { OnErr result (AddsPrefix slots.old slots.new (of_inlines positional.now)) }
    ensures alloc_failed { OnErr result (AreSome (of_inlines positional.now)) }
{
    for argument in positional {
        link_inline(links, slots, argument)?;
    }
    Ok(())
}

#[cycle(linking)]
fn link_named<'s, X: Drop>(
    links: &mut Vec<u32>,
    slots: &mut Slots<'s, X>,
    named: &[NamedArgument<'s>],
) -> Result<(), AllocError>
    ensures ok { OnOk result (Adds slots.old slots.new links.old links.new (of_nameds named.now)) }
    ensures err { OnErr result (AddsPrefix slots.old slots.new (of_nameds named.now)) }
    ensures alloc_failed { OnErr result (AreSome (of_nameds named.now)) }
{
    for argument in named {
        link_inline(links, slots, &argument.value)?;
    }
    Ok(())
}

//! The keys of a pattern's selects on variables.

ghost use Rattle.std.specs.Prelude.{◌≡◌, IfOk, OnOk, take};
ghost use Rattle.fluent_ast.specs.References.{inlines_view, nameds_view, variants_view};
ghost use Rattle.fluent_ast.specs.View.{arguments_view, expression_view, inline_view, pattern_view};
ghost use Rattle.fluent_patterns.specs.Selects.{keys_of};
ghost use Rattle.fluent_patterns.specs.Choices.{choices, choices_in, choices_on, in_arguments, in_expression, in_inline, in_named, in_positional, in_variants, keyed, AddsChoices};

use fluent_ast::ast::{
    CallArguments, Expression, InlineExpression, NamedArgument, Pattern, PatternElement, Variant,
    VariantKey,
};
use std::alloc::{AllocError, Global};

/// How many are tried.
const MOST: usize = 32;

/// A variable, and a key of a select on it.
#[derive(Clone, Copy, Drop)]
pub struct Choice<'s> {
    pub variable: &'s str,
    pub key: VariantKey<'s>,
}

/// The first of these that are tried.
pub fn tried<'c, 's>(list: &'c [Choice<'s>]) -> &'c [Choice<'s>]
    ensures { result.now ≡ take 32 list.now }
{
    if list.len() <= MOST {
        list
    } else {
        &list[..MOST]
    }
}

/// Each select of a pattern that is on a variable, with each of its keys, in the order of the tree.
///
/// # Errors
///
/// An allocation failed.
pub fn choices_of<'s>(alloc: Global, pattern: &Pattern<'s>) -> Result<Vec<Choice<'s>>, AllocError>
    ensures { IfOk result (λ list. choices_in list.items ≡ choices (pattern_view pattern.now)) }
{
    let mut list = Vec::new(alloc);
    add_pattern(&mut list, pattern)?;
    Ok(list)
}

#[cycle(choices)]
fn add_pattern<'s>(list: &mut Vec<Choice<'s>>, pattern: &Pattern<'s>) -> Result<(), AllocError>
    ensures { OnOk result (AddsChoices (choices (pattern_view pattern.now)) list.old list.new) }
{
    for element in &pattern.elements {
        if let PatternElement::Placeable { expression } = element {
            add_expression(list, expression)?;
        }
    }
    Ok(())
}

#[cycle(choices)]
fn add_expression<'s>(
    list: &mut Vec<Choice<'s>>,
    expression: &Expression<'s>,
) -> Result<(), AllocError>
    ensures { OnOk result
        (AddsChoices (in_expression (expression_view expression.now)) list.old list.new) }
{
    match expression {
        Expression::Inline(inline) => add_inline(list, inline),
        Expression::Select { selector, variants } => {
            add_inline(list, selector)?;
            add_select(list, selector, variants)?;
            add_variants(list, variants)
        }
    }
}

#[cycle(choices)]
fn add_variants<'s>(list: &mut Vec<Choice<'s>>, variants: &[Variant<'s>]) -> Result<(), AllocError>
    ensures { OnOk result
        (AddsChoices (in_variants (variants_view variants.now)) list.old list.new) }
{
    for variant in variants {
        add_pattern(list, &variant.value)?;
    }
    Ok(())
}

#[cycle(choices)]
fn add_inline<'s>(
    list: &mut Vec<Choice<'s>>,
    inline: &InlineExpression<'s>,
) -> Result<(), AllocError>
    ensures { OnOk result (AddsChoices (in_inline (inline_view inline.now)) list.old list.new) }
{
    match inline {
        InlineExpression::FunctionReference { arguments, .. } => add_arguments(list, arguments),
        InlineExpression::TermReference { arguments, .. } => match arguments {
            Some(arguments) => add_arguments(list, arguments),
            None => Ok(()),
        },
        InlineExpression::Placeable { expression } => add_expression(list, expression),
        InlineExpression::StringLiteral { .. }
        | InlineExpression::NumberLiteral { .. }
        | InlineExpression::MessageReference { .. }
        | InlineExpression::VariableReference { .. } => Ok(()),
    }
}

#[cycle(choices)]
fn add_arguments<'s>(
    list: &mut Vec<Choice<'s>>,
    arguments: &CallArguments<'s>,
) -> Result<(), AllocError>
    ensures { OnOk result
        (AddsChoices (in_arguments (arguments_view arguments.now)) list.old list.new) }
{
    add_positional(list, &arguments.positional)?;
    add_named(list, &arguments.named)
}

#[cycle(choices)]
fn add_positional<'s>(
    list: &mut Vec<Choice<'s>>,
    positional: &[InlineExpression<'s>],
) -> Result<(), AllocError>
    ensures { OnOk result
        (AddsChoices (in_positional (inlines_view positional.now)) list.old list.new) }
{
    for argument in positional {
        add_inline(list, argument)?;
    }
    Ok(())
}

#[cycle(choices)]
fn add_named<'s>(list: &mut Vec<Choice<'s>>, named: &[NamedArgument<'s>]) -> Result<(), AllocError>
    ensures { OnOk result (AddsChoices (in_named (nameds_view named.now)) list.old list.new) }
{
    for argument in named {
        add_inline(list, &argument.value)?;
    }
    Ok(())
}

/// Adds what a select asks, if it is on a variable.
fn add_select<'s>(
    list: &mut Vec<Choice<'s>>,
    selector: &InlineExpression<'s>,
    variants: &[Variant<'s>],
) -> Result<(), AllocError>
    ensures { OnOk result
        (AddsChoices (choices_on (inline_view selector.now) (keys_of (variants_view variants.now))) list.old list.new) }
{
    match selector {
        InlineExpression::VariableReference { id } => add_keys(list, id.name, variants),
        _ => Ok(()),
    }
}

/// Adds a variable with each key of these variants.
fn add_keys<'s>(
    list: &mut Vec<Choice<'s>>,
    variable: &'s str,
    variants: &[Variant<'s>],
) -> Result<(), AllocError>
    ensures { OnOk result
        (AddsChoices (keyed variable.now (keys_of (variants_view variants.now))) list.old list.new) }
{
    for variant in variants {
        list.push(Choice {
            variable,
            key: variant.key,
        })?;
    }
    Ok(())
}

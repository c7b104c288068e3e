//! Calls of `NUMBER` with what is no number.

ghost use Rattle.std.specs.Prelude.{◌≡◌, OnOk};
ghost use Rattle.fluent_ast.specs.References.{inlines_view, nameds_view, variants_view};
ghost use Rattle.fluent_ast.specs.View.{arguments_view, expression_view, inline_view, pattern_view};
ghost use Rattle.fluent_patterns.specs.Found.{AddsFlaws};
ghost use Rattle.fluent_patterns.specs.Numbers.{calls, in_arguments, in_expression, in_inline, in_named, in_positional, in_variants, is_always_text, is_no_number, lacks_number, no_numbers, AddsCalls};

use crate::finding::{Flaw, Part, Problem};
use fluent_ast::ast::{
    CallArguments, Expression, InlineExpression, NamedArgument, Pattern, PatternElement, Variant,
};
use std::alloc::{AllocError, Global};

/// Adds the calls of `NUMBER` in a pattern whose answer is no number, whatever the arguments are.
pub(crate) fn add_no_numbers<'s>(
    alloc: Global,
    pattern: &Pattern<'s>,
    flaws: &mut Vec<Flaw<'s>>,
) -> Result<(), AllocError>
    ensures { OnOk result (AddsFlaws (no_numbers (pattern_view pattern.now)) flaws.old flaws.new) }
{
    let mut list = Vec::new(alloc);
    add_pattern(&mut list, pattern)?;
    for (number, is_one) in list.iter().enumerate() {
        if *is_one {
            flaws.push(Flaw {
                part: Part::Reference(number),
                problem: Problem::NoNumber,
            })?;
        }
    }
    Ok(())
}

#[cycle(numbers)]
fn add_pattern(list: &mut Vec<bool>, pattern: &Pattern<'_>) -> Result<(), AllocError>
    ensures { OnOk result (AddsCalls (calls (pattern_view pattern.now)) list.old list.new) }
{
    for element in &pattern.elements {
        if let PatternElement::Placeable { expression } = element {
            add_expression(list, expression)?;
        }
    }
    Ok(())
}

#[cycle(numbers)]
fn add_expression(list: &mut Vec<bool>, expression: &Expression<'_>) -> Result<(), AllocError>
    ensures { OnOk result
        (AddsCalls (in_expression (expression_view expression.now)) list.old list.new) }
{
    match expression {
        Expression::Inline(inline) => add_inline(list, inline),
        Expression::Select { selector, variants } => {
            add_inline(list, selector)?;
            add_variants(list, variants)
        }
    }
}

#[cycle(numbers)]
fn add_variants(list: &mut Vec<bool>, variants: &[Variant<'_>]) -> Result<(), AllocError>
    ensures { OnOk result (AddsCalls (in_variants (variants_view variants.now)) list.old list.new) }
{
    for variant in variants {
        add_pattern(list, &variant.value)?;
    }
    Ok(())
}

#[cycle(numbers)]
fn add_inline(list: &mut Vec<bool>, inline: &InlineExpression<'_>) -> Result<(), AllocError>
    ensures { OnOk result (AddsCalls (in_inline (inline_view inline.now)) list.old list.new) }
{
    match inline {
        InlineExpression::FunctionReference { id, arguments } => {
            list.push(is_no_number(id.name, arguments))?;
            add_arguments(list, arguments)
        }
        InlineExpression::MessageReference { .. } | InlineExpression::VariableReference { .. } => {
            list.push(false)?;
            Ok(())
        }
        InlineExpression::TermReference { arguments, .. } => {
            list.push(false)?;
            match arguments {
                Some(arguments) => add_arguments(list, arguments),
                None => Ok(()),
            }
        }
        InlineExpression::Placeable { expression } => add_expression(list, expression),
        InlineExpression::StringLiteral { .. } | InlineExpression::NumberLiteral { .. } => Ok(()),
    }
}

#[cycle(numbers)]
fn add_arguments(list: &mut Vec<bool>, arguments: &CallArguments<'_>) -> Result<(), AllocError>
    ensures { OnOk result
        (AddsCalls (in_arguments (arguments_view arguments.now)) list.old list.new) }
{
    add_positional(list, &arguments.positional)?;
    add_named(list, &arguments.named)
}

#[cycle(numbers)]
fn add_positional(
    list: &mut Vec<bool>,
    positional: &[InlineExpression<'_>],
) -> Result<(), AllocError>
    ensures { OnOk result
        (AddsCalls (in_positional (inlines_view positional.now)) list.old list.new) }
{
    for argument in positional {
        add_inline(list, argument)?;
    }
    Ok(())
}

#[cycle(numbers)]
fn add_named(list: &mut Vec<bool>, named: &[NamedArgument<'_>]) -> Result<(), AllocError>
    ensures { OnOk result (AddsCalls (in_named (nameds_view named.now)) list.old list.new) }
{
    for argument in named {
        add_inline(list, &argument.value)?;
    }
    Ok(())
}

/// Whether a call is one of `NUMBER` with what is no number.
fn is_no_number(id: &str, arguments: &CallArguments<'_>) -> bool
    ensures { result ≡ is_no_number id.now (arguments_view arguments.now) }
{
    id == "NUMBER" && lacks_number(&arguments.positional)
}

/// Whether the first of a call's arguments is no number for certain.
fn lacks_number(inlines: &[InlineExpression<'_>]) -> bool
    ensures { result ≡ lacks_number (inlines_view inlines.now) }
{
    match inlines.first() {
        Some(inline) => is_always_text(inline),
        None => true,
    }
}

/// Whether an argument is a text, whatever it shows.
fn is_always_text(inline: &InlineExpression<'_>) -> bool
    ensures { result ≡ is_always_text (inline_view inline.now) }
{
    match inline {
        InlineExpression::StringLiteral { .. }
        | InlineExpression::MessageReference { .. }
        | InlineExpression::TermReference { .. }
        | InlineExpression::Placeable { .. } => true,
        InlineExpression::NumberLiteral { .. }
        | InlineExpression::FunctionReference { .. }
        | InlineExpression::VariableReference { .. } => false,
    }
}

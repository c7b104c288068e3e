//! The variables that a pattern shows, and the functions whose answers it shows.

ghost use Rattle.std.specs.Prelude.{◌≡◌, IfOk, OnOk};
ghost use Rattle.fluent_ast.specs.References.{inlines_view, variants_view};
ghost use Rattle.fluent_ast.specs.View.{expression_view, inline_view, pattern_view};
ghost use Rattle.fluent_places.specs.Asked.{texts};
ghost use Rattle.fluent_patterns.specs.Names.{once};
ghost use Rattle.fluent_patterns.specs.Shown.{in_expression, in_inline, function_if, in_inlines, in_variants, shown, variable_if, AddsNames};

use crate::names::once;
use fluent_ast::ast::{Expression, InlineExpression, Pattern, PatternElement, Variant};
use indexmap::IndexSet;
use std::alloc::{AllocError, Global};

/// What is looked for.
#[derive(Clone, Copy)]
pub enum Wanted {
    Variables,
    Functions,
}

/// The variables that a pattern shows, or the functions that it calls to show what they answer: outside of selectors, each
/// once.
///
/// # Errors
///
/// An allocation failed.
pub fn shown_in<'s>(
    alloc: Global,
    wanted: Wanted,
    pattern: &Pattern<'s>,
) -> Result<IndexSet<&'s str>, AllocError>
    ensures { IfOk result (λ set. texts set.keys ≡ once (shown wanted (pattern_view pattern.now))) }
{
    let mut names = Vec::new(alloc);
    add_pattern(&mut names, wanted, pattern)?;
    once(alloc, &names)
}

#[cycle(shown)]
fn add_pattern<'s>(
    names: &mut Vec<&'s str>,
    wanted: Wanted,
    pattern: &Pattern<'s>,
) -> Result<(), AllocError>
    ensures { OnOk result (AddsNames (shown wanted (pattern_view pattern.now)) names.old names.new) }
{
    for element in &pattern.elements {
        if let PatternElement::Placeable { expression } = element {
            add_expression(names, wanted, expression)?;
        }
    }
    Ok(())
}

#[cycle(shown)]
fn add_expression<'s>(
    names: &mut Vec<&'s str>,
    wanted: Wanted,
    expression: &Expression<'s>,
) -> Result<(), AllocError>
    ensures { OnOk result
        (AddsNames (in_expression wanted (expression_view expression.now)) names.old names.new) }
{
    match expression {
        Expression::Inline(inline) => add_inline(names, wanted, inline),
        Expression::Select { variants, .. } => add_variants(names, wanted, variants),
    }
}

#[cycle(shown)]
fn add_variants<'s>(
    names: &mut Vec<&'s str>,
    wanted: Wanted,
    variants: &[Variant<'s>],
) -> Result<(), AllocError>
    ensures { OnOk result (AddsNames (in_variants wanted (variants_view variants.now)) names.old names.new) }
{
    for variant in variants {
        add_pattern(names, wanted, &variant.value)?;
    }
    Ok(())
}

#[cycle(shown)]
fn add_inline<'s>(
    names: &mut Vec<&'s str>,
    wanted: Wanted,
    inline: &InlineExpression<'s>,
) -> Result<(), AllocError>
    ensures { OnOk result (AddsNames (in_inline wanted (inline_view inline.now)) names.old names.new) }
{
    match inline {
        InlineExpression::VariableReference { id } => add_variable(names, wanted, id.name),
        InlineExpression::FunctionReference { id, arguments } => {
            add_function(names, wanted, id.name)?;
            add_inlines(names, wanted, &arguments.positional)
        }
        InlineExpression::Placeable { expression } => add_expression(names, wanted, expression),
        InlineExpression::StringLiteral { .. }
        | InlineExpression::NumberLiteral { .. }
        | InlineExpression::MessageReference { .. }
        | InlineExpression::TermReference { .. } => Ok(()),
    }
}

#[cycle(shown)]
fn add_inlines<'s>(
    names: &mut Vec<&'s str>,
    wanted: Wanted,
    inlines: &[InlineExpression<'s>],
) -> Result<(), AllocError>
    ensures { OnOk result (AddsNames (in_inlines wanted (inlines_view inlines.now)) names.old names.new) }
{
    for inline in inlines {
        add_inline(names, wanted, inline)?;
    }
    Ok(())
}

/// Adds a variable, where variables are wanted.
fn add_variable<'s>(
    names: &mut Vec<&'s str>,
    wanted: Wanted,
    name: &'s str,
) -> Result<(), AllocError>
    ensures { OnOk result (AddsNames (variable_if wanted name.now) names.old names.new) }
{
    if let Wanted::Variables = wanted {
        names.push(name)?;
    }
    Ok(())
}

/// Adds a function, where functions are.
fn add_function<'s>(
    names: &mut Vec<&'s str>,
    wanted: Wanted,
    name: &'s str,
) -> Result<(), AllocError>
    ensures { OnOk result (AddsNames (function_if wanted name.now) names.old names.new) }
{
    if let Wanted::Functions = wanted {
        names.push(name)?;
    }
    Ok(())
}

//! How many placeables a pattern opens at most.

ghost use Rattle.std.specs.Prelude.{◌≡◌};
ghost use Rattle.fluent_ast.specs.References.{inlines_view, nameds_view, variants_view};
ghost use Rattle.fluent_ast.specs.View.{arguments_view, element_view, expression_view, inline_view, pattern_view};
ghost use Rattle.fluent_places.specs.Places.{place_view};
ghost use Rattle.fluent_clean.specs.Clean.{most_in_pattern, most_in_element, most_in_expression, most_in_variants, most_in_inline, most_in_arguments, most_in_positional, most_in_named};
ghost use Rattle.fluent_clean.specs.Findings.{capped};
ghost use Rattle.fluent_clean.specs.Inside.Table.{counts};

use fluent_ast::ast::{
    CallArguments, Expression, InlineExpression, NamedArgument, Pattern, PatternElement, Variant,
};
use fluent_places::Place;
use indexmap::IndexMap;

/// What is known of places: how many placeables the pattern opens, if it was found clean.
pub(crate) type Table<'s> = IndexMap<Place<'s>, Option<u64>>;

/// How many placeables a pattern opens at most, by the counts of the patterns that it refers to: 0 where none is
/// known. Takes no memory.
#[cycle(counting)]
pub(crate) fn most_opened<'s>(pattern: &Pattern<'s>, table: &Table<'s>) -> u64
    ensures { result ≡ capped (most_in_pattern (counts table.now) (pattern_view pattern.now)) }
{
    let mut total: u64 = 0;
    for element in &pattern.elements {
        let more = in_element(element, table);
        total = total.saturating_add(more);
    }
    total
}

#[cycle(counting)]
fn in_element<'s>(element: &PatternElement<'s>, table: &Table<'s>) -> u64
    ensures { result ≡ capped (most_in_element (counts table.now) (element_view element.now)) }
{
    match element {
        PatternElement::TextElement { .. } => 0,
        PatternElement::Placeable { expression } => in_expression(expression, table).saturating_add(
            1,
        ),
    }
}

#[cycle(counting)]
fn in_expression<'s>(expression: &Expression<'s>, table: &Table<'s>) -> u64
    ensures { result
        ≡ capped (most_in_expression (counts table.now) (expression_view expression.now)) }
{
    match expression {
        Expression::Inline(inline) => in_inline(inline, table),
        Expression::Select { selector, variants } => {
            let selecting = in_inline(selector, table);
            let largest = in_largest(variants, table);
            selecting.saturating_add(largest)
        }
    }
}

/// Of the variant that opens most.
#[cycle(counting)]
fn in_largest<'s>(variants: &[Variant<'s>], table: &Table<'s>) -> u64
    ensures { result
        ≡ capped (most_in_variants (counts table.now) (variants_view variants.now)) }
{
    let mut largest: u64 = 0;
    for variant in variants {
        let here = most_opened(&variant.value, table);
        if here > largest {
            largest = here;
        }
    }
    largest
}

#[cycle(counting)]
fn in_inline<'s>(inline: &InlineExpression<'s>, table: &Table<'s>) -> u64
    ensures { result ≡ capped (most_in_inline (counts table.now) (inline_view inline.now)) }
{
    match inline {
        InlineExpression::StringLiteral { .. }
        | InlineExpression::NumberLiteral { .. }
        | InlineExpression::VariableReference { .. } => 0,
        InlineExpression::FunctionReference { arguments, .. } => in_arguments(arguments, table),
        InlineExpression::MessageReference { id, attribute } => {
            count_at(&Place::Message(*id, *attribute), table)
        }
        InlineExpression::TermReference {
            id,
            attribute,
            arguments,
        } => {
            let there = count_at(&Place::Term(*id, *attribute), table);
            match arguments {
                Some(arguments) => in_arguments(arguments, table).saturating_add(there),
                None => there,
            }
        }
        InlineExpression::Placeable { expression } => in_expression(expression, table),
    }
}

#[cycle(counting)]
fn in_arguments<'s>(arguments: &CallArguments<'s>, table: &Table<'s>) -> u64
    ensures { result
        ≡ capped (most_in_arguments (counts table.now) (arguments_view arguments.now)) }
{
    let positional = in_positional(&arguments.positional, table);
    let named = in_named(&arguments.named, table);
    positional.saturating_add(named)
}

#[cycle(counting)]
fn in_positional<'s>(positional: &[InlineExpression<'s>], table: &Table<'s>) -> u64
    ensures { result
        ≡ capped (most_in_positional (counts table.now) (inlines_view positional.now)) }
{
    let mut total: u64 = 0;
    for argument in positional {
        let more = in_inline(argument, table);
        total = total.saturating_add(more);
    }
    total
}

#[cycle(counting)]
fn in_named<'s>(named: &[NamedArgument<'s>], table: &Table<'s>) -> u64
    ensures { result ≡ capped (most_in_named (counts table.now) (nameds_view named.now)) }
{
    let mut total: u64 = 0;
    for argument in named {
        let more = in_inline(&argument.value, table);
        total = total.saturating_add(more);
    }
    total
}

/// The count of a place, or 0 where none is known.
fn count_at<'s>(place: &Place<'s>, table: &Table<'s>) -> u64
    ensures { result ≡ capped (counts table.now (place_view place.now)) }
{
    match table.get(place) {
        Some(Some(count)) => *count,
        _ => 0,
    }
}

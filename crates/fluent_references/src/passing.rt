//! How links are passed over part by part, in the order of the tree.
ghost use Rattle.std.specs.Prelude.{◌≡◌};
ghost use Rattle.fluent_ast.specs.ReferencesOf.{of_arguments, of_element, of_expression, of_inline, of_inlines, of_nameds, of_variants, references_of};
ghost use Rattle.fluent_references.specs.Links.{next};
ghost use Rattle.fluent_references.specs.Cursors.{Passes};

use fluent_ast::ast::{
    CallArguments, Expression, InlineExpression, NamedArgument, Pattern, PatternElement, Variant,
};

/// The links after one reference.
pub fn pass_one(links: &[u32]) -> &[u32]
    ensures { result.now ≡ next links.now }
{
    match links.split_first() {
        Some((_, rest)) => rest,
        None => links,
    }
}

/// The links after a pattern.
#[cycle(passing)]
pub fn pass_pattern<'b>(links: &'b [u32], pattern: &Pattern<'_>) -> &'b [u32]
    ensures { Passes links.entry.now result.now (references_of pattern.now) }
{
    let mut links = links;
    for element in &pattern.elements {
        links = pass_element(links, element);
    }
    links
}

/// The links after an element of a pattern.
#[cycle(passing)]
pub fn pass_element<'b>(links: &'b [u32], element: &PatternElement<'_>) -> &'b [u32]
    ensures { Passes links.entry.now result.now (of_element element.now) }
{
    match element {
        PatternElement::TextElement { .. } => links,
        PatternElement::Placeable { expression } => pass_expression(links, expression),
    }
}

/// The links after what stands between the braces of a placeable.
#[cycle(passing)]
pub fn pass_expression<'b>(links: &'b [u32], expression: &Expression<'_>) -> &'b [u32]
    ensures { Passes links.entry.now result.now (of_expression expression.now) }
{
    // After the last link no part is walked, which saves up to a tenth of the instructions where selects are passed
    // that refer to nothing.
    if links.is_empty() {
        return links;
    }
    match expression {
        Expression::Inline(inline) => pass_inline(links, inline),
        Expression::Select { selector, variants } => {
            pass_variants(pass_inline(links, selector), variants)
        }
    }
}

/// The links after these variants.
#[cycle(passing)]
#[inline(never)]
pub fn pass_variants<'b>(links: &'b [u32], variants: &[Variant<'_>]) -> &'b [u32]
    ensures { Passes links.entry.now result.now (of_variants variants.now) }
{
    let mut links = links;
    for variant in variants {
        links = pass_pattern(links, &variant.value);
    }
    links
}

/// The links after an inline expression.
#[cycle(passing)]
pub fn pass_inline<'b>(links: &'b [u32], inline: &InlineExpression<'_>) -> &'b [u32]
    ensures { Passes links.entry.now result.now (of_inline inline.now) }
{
    match inline {
        InlineExpression::FunctionReference { arguments, .. } => {
            pass_arguments(pass_one(links), arguments)
        }
        InlineExpression::MessageReference { .. } => pass_one(links),
        InlineExpression::TermReference { arguments, .. } => match arguments {
            Some(arguments) => pass_arguments(pass_one(links), arguments),
            None => pass_one(links),
        },
        InlineExpression::Placeable { expression } => pass_expression(links, expression),
        InlineExpression::StringLiteral { .. }
        | InlineExpression::NumberLiteral { .. }
        | InlineExpression::VariableReference { .. } => links,
    }
}

/// The links after the arguments of a function or a term.
#[cycle(passing)]
#[inline(never)]
pub fn pass_arguments<'b>(links: &'b [u32], arguments: &CallArguments<'_>) -> &'b [u32]
    ensures { Passes links.entry.now result.now (of_arguments arguments.now) }
{
    pass_named(
        pass_positional(links, &arguments.positional),
        &arguments.named,
    )
}

/// The links after positional arguments.
#[cycle(passing)]
pub fn pass_positional<'b>(links: &'b [u32], positional: &[InlineExpression<'_>]) -> &'b [u32]
    ensures { Passes links.entry.now result.now (of_inlines positional.now) }
{
    let mut links = links;
    for argument in positional {
        links = pass_inline(links, argument);
    }
    links
}

#[cycle(passing)]
fn pass_named<'b>(links: &'b [u32], named: &[NamedArgument<'_>]) -> &'b [u32]
    ensures { Passes links.entry.now result.now (of_nameds named.now) }
{
    let mut links = links;
    for argument in named {
        links = pass_inline(links, &argument.value);
    }
    links
}

//! What a pattern refers to, listed.

ghost use Rattle.std.specs.Prelude.{◌≡◌, ◌↔◌, [], IfOk, IsOk, IsTrue, OnErr, OnOk};
ghost use Rattle.fluent_ast.specs.References.{AreSome};
ghost use Rattle.fluent_ast.specs.ReferencesOf.{of_arguments, of_expression, of_inline, of_inlines, of_nameds, of_variants, references_of};
ghost use Rattle.fluent_syntax.specs.Listing.{AddsReferences, reference_view, references_view};

use fluent_ast::ast::{
    CallArguments, Expression, InlineExpression, NamedArgument, Pattern, PatternElement, Variant,
};
use std::alloc::{AllocError, Global};

/// A reference to a message, a term or a function, by its id as the tree has it: a term's stands without the dash.
/// Whether it asks for an attribute isn't told.
#[derive(Clone, Copy, Debug, Drop)]
pub enum Reference<'s> {
    Message(&'s str),
    Term(&'s str),
    Function(&'s str),
}

impl<'s> PartialEq for Reference<'s> {
    ghost use Rattle.std.specs.Cmp.{partial_equiv_from_equiv};
    ghost use Rattle.fluent_ast.specs.Tree.{is_yes};
    ghost use Rattle.fluent_ast.specs.Same.{equivalent, reference_same};
    ghost use Rattle.fluent_syntax.specs.Listing.{reference_view};

    ghost eq = { λ a b. is_yes (reference_same (reference_view a) (reference_view b)) };

    ghost laws = { partial_equiv_from_equiv (equivalent reference_view reference_same) };

    #[tactic(auto, using(crate::proofs::Decided::decided))]
    fn eq(&self, other: &Self) -> bool {
        same_reference(self, other)
    }
}

impl<'s> Eq for Reference<'s> {
    ghost use Rattle.fluent_ast.specs.Same.{equivalent, reference_same};
    ghost use Rattle.fluent_syntax.specs.Listing.{reference_view};

    ghost laws = { equivalent reference_view reference_same };
}

fn same_reference(a: &Reference, b: &Reference) -> bool
    ensures { IsTrue result ↔ (reference_view a.now ≡ reference_view b.now) }
{
    match (a, b) {
        (Reference::Message(x), Reference::Message(y)) => *x == *y,
        (Reference::Term(x), Reference::Term(y)) => *x == *y,
        (Reference::Function(x), Reference::Function(y)) => *x == *y,
        _ => false,
    }
}

/// Lists what a pattern refers to, in the order of the tree and as often as it stands there: a reference before what
/// stands in its arguments, positional ones before named ones, a select's selector before its variants. Of what is
/// referred to it looks at nothing. The ids are borrowed from the source.
///
/// Memory is taken for the list alone, and none where the pattern refers to nothing: that call never fails. Where
/// an allocation fails, nothing is left of the list, and the call can be made again.
pub fn references<'s>(
    alloc: Global,
    pattern: &Pattern<'s>,
) -> Result<Vec<Reference<'s>>, AllocError>
    ensures listed { IfOk result (λ list. references_view list ≡ references_of pattern.now) }
    ensures succeeds { references_of pattern.now ≡ [] → IsOk result }
{
    let mut list = Vec::new(alloc);
    add_pattern(&mut list, pattern)?;
    Ok(list)
}

#[cycle(listing)]
fn add_pattern<'s>(list: &mut Vec<Reference<'s>>, pattern: &Pattern<'s>) -> Result<(), AllocError>
    ensures added { OnOk result (AddsReferences list.old list.new (references_of pattern.now)) }
    ensures alloc_failed { OnErr result (AreSome (references_of pattern.now)) }
{
    for element in &pattern.elements {
        if let PatternElement::Placeable { expression } = element {
            add_expression(list, expression)?;
        }
    }
    Ok(())
}

#[cycle(listing)]
fn add_expression<'s>(
    list: &mut Vec<Reference<'s>>,
    expression: &Expression<'s>,
) -> Result<(), AllocError>
    ensures added { OnOk result (AddsReferences list.old list.new (of_expression expression.now)) }
    ensures alloc_failed { OnErr result (AreSome (of_expression expression.now)) }
{
    match expression {
        Expression::Inline(inline) => add_inline(list, inline),
        Expression::Select { selector, variants } => {
            add_inline(list, selector)?;
            add_variants(list, variants)
        }
    }
}

#[cycle(listing)]
fn add_variants<'s>(
    list: &mut Vec<Reference<'s>>,
    variants: &[Variant<'s>],
) -> Result<(), AllocError>
    ensures added { OnOk result (AddsReferences list.old list.new (of_variants variants.now)) }
    ensures alloc_failed { OnErr result (AreSome (of_variants variants.now)) }
{
    for variant in variants {
        add_pattern(list, &variant.value)?;
    }
    Ok(())
}

#[cycle(listing)]
fn add_inline<'s>(
    list: &mut Vec<Reference<'s>>,
    inline: &InlineExpression<'s>,
) -> Result<(), AllocError>
    ensures added { OnOk result (AddsReferences list.old list.new (of_inline inline.now)) }
    ensures alloc_failed { OnErr result (AreSome (of_inline inline.now)) }
{
    match inline {
        InlineExpression::FunctionReference { id, arguments } => {
            list.push(Reference::Function(id.name))?;
            add_arguments(list, arguments)
        }
        InlineExpression::MessageReference { id, .. } => {
            list.push(Reference::Message(id.name))?;
            Ok(())
        }
        InlineExpression::TermReference { id, arguments, .. } => {
            list.push(Reference::Term(id.name))?;
            match arguments {
                Some(arguments) => add_arguments(list, arguments),
                None => Ok(()),
            }
        }
        InlineExpression::Placeable { expression } => add_expression(list, expression),
        InlineExpression::StringLiteral { .. }
        | InlineExpression::NumberLiteral { .. }
        | InlineExpression::VariableReference { .. } => Ok(()),
    }
}

#[cycle(listing)]
fn add_arguments<'s>(
    list: &mut Vec<Reference<'s>>,
    arguments: &CallArguments<'s>,
) -> Result<(), AllocError>
    ensures added { OnOk result (AddsReferences list.old list.new (of_arguments arguments.now)) }
    ensures alloc_failed { OnErr result (AreSome (of_arguments arguments.now)) }
{
    add_positional(list, &arguments.positional)?;
    add_named(list, &arguments.named)
}

#[cycle(listing)]
fn add_positional<'s>(
    list: &mut Vec<Reference<'s>>,
    positional: &[InlineExpression<'s>],
) -> Result<(), AllocError>
    ensures added { OnOk result (AddsReferences list.old list.new (of_inlines positional.now)) }
    ensures alloc_failed { OnErr result (AreSome (of_inlines positional.now)) }
{
    for argument in positional {
        add_inline(list, argument)?;
    }
    Ok(())
}

#[cycle(listing)]
fn add_named<'s>(
    list: &mut Vec<Reference<'s>>,
    named: &[NamedArgument<'s>],
) -> Result<(), AllocError>
    ensures added { OnOk result (AddsReferences list.old list.new (of_nameds named.now)) }
    ensures alloc_failed { OnErr result (AreSome (of_nameds named.now)) }
{
    for argument in named {
        add_inline(list, &argument.value)?;
    }
    Ok(())
}

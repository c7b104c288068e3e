//! What of a pattern is hashed: each part after a byte for its kind, and a byte where each list ends.
ghost use Rattle.std.specs.Prelude.{◌≡◌, fold};
ghost use Rattle.fluent_ast.specs.View.{arguments_view, attribute_of, call_view, element_view, expression_view, inline_view, key_view, pattern_view};
ghost use Rattle.fluent_ast.specs.References.{inlines_view, nameds_view, variants_view};
ghost use Rattle.fluent_references.specs.Inside.Hashed.{hashed, hashed_arguments, hashed_attribute, hashed_call, hashed_element, hashed_expression, hashed_inline, hashed_key, hashed_kind, hashed_named, hashed_positional, hashed_variants};

use fluent_ast::ast::{
    CallArguments, Expression, Identifier, InlineExpression, NamedArgument, Pattern,
    PatternElement, Variant, VariantKey,
};
use std::hash::{Hash, Hasher};

/// Hashes a pattern by its content.
#[cycle(hashing)]
pub fn hash_pattern<H: Hasher>(pattern: &Pattern<'_>, state: &mut H)
    ensures { state.new ≡ fold H.write state.old (hashed (pattern_view pattern.now)) }
{
    for element in &pattern.elements {
        hash_element(element, state);
    }
    state.write_u8(255);
}

#[cycle(hashing)]
fn hash_element<H: Hasher>(element: &PatternElement<'_>, state: &mut H)
    ensures { state.new ≡ fold H.write state.old (hashed_element (element_view element.now)) }
{
    match element {
        PatternElement::TextElement { value } => hash_kind(8, value, state),
        PatternElement::Placeable { expression } => hash_expression(expression, state),
    }
}

#[cycle(hashing)]
fn hash_expression<H: Hasher>(expression: &Expression<'_>, state: &mut H)
    ensures { state.new
        ≡ fold H.write state.old (hashed_expression (expression_view expression.now)) }
{
    match expression {
        Expression::Inline(inline) => hash_inline(inline, state),
        Expression::Select { selector, variants } => {
            state.write_u8(0);
            hash_inline(selector, state);
            hash_variants(variants, state);
        }
    }
}

#[cycle(hashing)]
fn hash_variants<H: Hasher>(variants: &[Variant<'_>], state: &mut H)
    ensures { state.new ≡ fold H.write state.old (hashed_variants (variants_view variants.now)) }
{
    for variant in variants {
        hash_key(&variant.key, state);
        variant.default.hash(state);
        hash_pattern(&variant.value, state);
    }
    state.write_u8(255);
}

/// The key of a variant.
fn hash_key<H: Hasher>(key: &VariantKey<'_>, state: &mut H)
    ensures { state.new ≡ fold H.write state.old (hashed_key (key_view key.now)) }
{
    match key {
        VariantKey::Identifier { name } => hash_kind(9, name, state),
        VariantKey::NumberLiteral { value } => hash_kind(10, value, state),
    }
}

#[cycle(hashing)]
fn hash_inline<H: Hasher>(inline: &InlineExpression<'_>, state: &mut H)
    ensures { state.new ≡ fold H.write state.old (hashed_inline (inline_view inline.now)) }
{
    match inline {
        InlineExpression::StringLiteral { value } => hash_kind(1, value, state),
        InlineExpression::NumberLiteral { value } => hash_kind(2, value, state),
        InlineExpression::FunctionReference { id, arguments } => {
            hash_kind(3, id.name, state);
            hash_arguments(arguments, state);
        }
        InlineExpression::MessageReference { id, attribute } => {
            hash_kind(4, id.name, state);
            hash_attribute(attribute, state);
        }
        InlineExpression::TermReference {
            id,
            attribute,
            arguments,
        } => {
            hash_kind(5, id.name, state);
            hash_attribute(attribute, state);
            hash_call(arguments, state);
        }
        InlineExpression::VariableReference { id } => hash_kind(6, id.name, state),
        InlineExpression::Placeable { expression } => {
            state.write_u8(11);
            hash_expression(expression, state);
        }
    }
}

/// A name or a literal, after its kind.
fn hash_kind<H: Hasher>(kind: u8, text: &str, state: &mut H)
    ensures { state.new ≡ fold H.write state.old (hashed_kind kind text.now) }
{
    state.write_u8(kind);
    text.hash(state);
}

/// The attribute that a reference asks for.
fn hash_attribute<H: Hasher>(attribute: &Option<Identifier<'_>>, state: &mut H)
    ensures { state.new ≡ fold H.write state.old (hashed_attribute (attribute_of attribute.now)) }
{
    if let Some(attribute) = attribute {
        hash_kind(7, attribute.name, state);
    }
}

#[cycle(hashing)]
fn hash_call<H: Hasher>(arguments: &Option<Box<CallArguments<'_>>>, state: &mut H)
    ensures { state.new ≡ fold H.write state.old (hashed_call (call_view arguments.now)) }
{
    if let Some(arguments) = arguments {
        state.write_u8(12);
        hash_arguments(arguments, state);
    }
}

#[cycle(hashing)]
fn hash_arguments<H: Hasher>(arguments: &CallArguments<'_>, state: &mut H)
    ensures { state.new ≡ fold H.write state.old (hashed_arguments (arguments_view arguments.now)) }
{
    hash_positional(&arguments.positional, state);
    hash_named(&arguments.named, state);
}

#[cycle(hashing)]
fn hash_positional<H: Hasher>(positional: &[InlineExpression<'_>], state: &mut H)
    ensures { state.new
        ≡ fold H.write state.old (hashed_positional (inlines_view positional.now)) }
{
    for argument in positional {
        hash_inline(argument, state);
    }
    state.write_u8(255);
}

#[cycle(hashing)]
fn hash_named<H: Hasher>(named: &[NamedArgument<'_>], state: &mut H)
    ensures { state.new ≡ fold H.write state.old (hashed_named (nameds_view named.now)) }
{
    for argument in named {
        hash_kind(13, argument.name.name, state);
        hash_inline(&argument.value, state);
    }
    state.write_u8(255);
}

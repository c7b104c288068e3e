//! How links are passed over while a pattern is written, mostly without a call.

ghost use Rattle.std.specs.Prelude.{◌≡◌};
ghost use Rattle.fluent_ast.specs.ReferencesOf.{of_arguments, of_element, of_inline};
ghost use Rattle.fluent_references.specs.Cursors.{seen};
ghost use Rattle.fluent_references.specs.Links.{next, past};

use fluent_ast::ast::{CallArguments, Expression, InlineExpression, PatternElement};
use fluent_references::Cursor;

/// After an element of a pattern. No call is needed where no link is left, of a text and of most inline expressions.
#[inline(always)]
pub(crate) fn passed<'b>(cursor: Cursor<'b>, element: &PatternElement<'_>) -> Cursor<'b>
    ensures { seen result ≡ past (of_element element.now) (seen cursor.entry) }
{
    if cursor.first().is_none() {
        return cursor;
    }
    match element {
        PatternElement::TextElement { .. } => cursor,
        PatternElement::Placeable {
            expression: Expression::Inline(inline),
        } => passed_inline(cursor, inline),
        PatternElement::Placeable { .. } => cursor.after_element(element),
    }
}

/// After an inline expression. No call is needed of a variable and of a reference without arguments.
#[inline(always)]
pub(crate) fn passed_inline<'b>(cursor: Cursor<'b>, inline: &InlineExpression<'_>) -> Cursor<'b>
    ensures { seen result ≡ past (of_inline inline.now) (seen cursor.entry) }
{
    match inline {
        InlineExpression::VariableReference { .. } => cursor,
        InlineExpression::MessageReference { .. } => cursor.after_one(),
        InlineExpression::TermReference {
            arguments: None,
            ..
        } => cursor.after_one(),
        InlineExpression::FunctionReference { arguments, .. } => passed_call(cursor, arguments),
        _ => cursor.after_inline(inline),
    }
}

/// After a reference with arguments, which are passed over where a link is left behind it.
#[inline(always)]
fn passed_call<'b>(cursor: Cursor<'b>, arguments: &CallArguments<'_>) -> Cursor<'b>
    ensures { seen result ≡ past (of_arguments arguments.now) (next (seen cursor.entry)) }
{
    let after = cursor.after_one();
    if after.first().is_none() {
        return after;
    }
    after.after_arguments(arguments)
}

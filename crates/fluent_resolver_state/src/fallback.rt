//! Fallbacks: how an expression shows where it can't be resolved.

ghost use Rattle.std.specs.Prelude.{◌≢◌, ◌++◌, ◌∷◌, [], Err};
ghost use Rattle.fluent_values.specs.Sinks.{GoesThrough};
ghost use Rattle.fluent_ast.specs.Fallback.{fallback, dotted, in_braces};
ghost use Rattle.fluent_ast.specs.View.{inline_view, attribute_of};
ghost use Rattle.fluent_resolver_state.specs.StateCalls.{Puts};

use fluent_ast::ast::{Expression, Identifier, InlineExpression};
use fluent_values::output::{Halt, Output, put_here, put_text, put_three};
use std::io::Write;

/// Writes a message's id in braces.
#[inline(never)]
#[cold]
pub fn put_id_in_braces<W: Write>(out: &mut Output<W>, id: &str) -> Result<(), Halt>
    ensures took { Puts W.contents (in_braces id.now) result out }
    ensures memory { GoesThrough out.old → result ≢ Err Halt.Memory }
{
    put_between(out, "{", id, "}")
}

/// Writes a term's id in braces.
#[inline(never)]
#[cold]
fn put_term_id_in_braces<W: Write>(out: &mut Output<W>, id: &str) -> Result<(), Halt>
    ensures took { Puts W.contents (in_braces (45 ∷ id.now)) result out }
    ensures memory { GoesThrough out.old → result ≢ Err Halt.Memory }
{
    put_between(out, "{-", id, "}")
}

/// Writes a function's id in braces.
#[inline(never)]
#[cold]
fn put_function_in_braces<W: Write>(out: &mut Output<W>, id: &str) -> Result<(), Halt>
    ensures took { Puts W.contents (123 ∷ (id.now ++ 40 ∷ 41 ∷ 125 ∷ [])) result out }
    ensures memory { GoesThrough out.old → result ≢ Err Halt.Memory }
{
    put_between(out, "{", id, "()}")
}

/// Writes a variable's name in braces.
#[inline(never)]
#[cold]
fn put_variable_in_braces<W: Write>(out: &mut Output<W>, id: &str) -> Result<(), Halt>
    ensures took { Puts W.contents (in_braces (36 ∷ id.now)) result out }
    ensures memory { GoesThrough out.old → result ≢ Err Halt.Memory }
{
    put_between(out, "{$", id, "}")
}

/// Writes a text between two that are literals: each function that calls it knows their lengths, so no copying is called
/// for them.
#[inline(always)]
fn put_between<W: Write>(
    out: &mut Output<W>,
    before: &str,
    text: &str,
    after: &str,
) -> Result<(), Halt>
    ensures took { Puts W.contents (before.now ++ (text.now ++ after.now)) result out }
    ensures memory { GoesThrough out.old → result ≢ Err Halt.Memory }
{
    put_here(out, before)?;
    put_here(out, text)?;
    put_here(out, after)
}

/// Writes an expression's fallback in braces.
#[inline(never)]
#[cold]
pub fn put_in_braces<W: Write>(
    out: &mut Output<W>,
    expression: &InlineExpression,
) -> Result<(), Halt>
    ensures took { Puts W.contents (in_braces (fallback (inline_view expression.now))) result out }
    ensures memory { GoesThrough out.old → result ≢ Err Halt.Memory }
{
    match expression {
        InlineExpression::FunctionReference { id, .. } => put_function_in_braces(out, id.name),
        InlineExpression::MessageReference { id, attribute } => {
            put_message_in_braces(out, id, attribute)
        }
        InlineExpression::TermReference { id, attribute, .. } => {
            put_term_in_braces(out, id, attribute)
        }
        InlineExpression::VariableReference { id } => put_variable_in_braces(out, id.name),
        _ => {
            put_text(out, "{")?;
            put_fallback(out, expression)?;
            put_text(out, "}")
        }
    }
}

/// Writes the fallback of a reference to a message in braces.
#[inline(always)]
fn put_message_in_braces<W: Write>(
    out: &mut Output<W>,
    id: &Identifier,
    attribute: &Option<Identifier>,
) -> Result<(), Halt>
    ensures took { Puts W.contents (in_braces (dotted id.now.name.now (attribute_of attribute.now))) result out }
    ensures memory { GoesThrough out.old → result ≢ Err Halt.Memory }
{
    match attribute {
        None => put_id_in_braces(out, id.name),
        Some(_) => put_dotted_in(out, "{", id, attribute, "}"),
    }
}

/// Writes the fallback of a reference to a term in braces.
#[inline(always)]
fn put_term_in_braces<W: Write>(
    out: &mut Output<W>,
    id: &Identifier,
    attribute: &Option<Identifier>,
) -> Result<(), Halt>
    ensures took { Puts W.contents (in_braces (45 ∷ dotted id.now.name.now (attribute_of attribute.now))) result out }
    ensures memory { GoesThrough out.old → result ≢ Err Halt.Memory }
{
    match attribute {
        None => put_term_id_in_braces(out, id.name),
        Some(_) => put_dotted_in(out, "{-", id, attribute, "}"),
    }
}

/// Writes an expression's fallback, without braces.
pub(crate) fn put_fallback<W: Write>(
    out: &mut Output<W>,
    expression: &InlineExpression,
) -> Result<(), Halt>
    ensures took { Puts W.contents (fallback (inline_view expression.now)) result out }
    ensures memory { GoesThrough out.old → result ≢ Err Halt.Memory }
{
    match expression {
        InlineExpression::StringLiteral { value } => {
            put_text(out, "\"")?;
            put_text(out, value)?;
            put_text(out, "\"")
        }
        InlineExpression::NumberLiteral { value } => put_text(out, value),
        InlineExpression::FunctionReference { id, .. } => put_three(out, "", id.name, "()"),
        InlineExpression::MessageReference { id, attribute } => {
            put_dotted_in(out, "", id, attribute, "")
        }
        InlineExpression::TermReference { id, attribute, .. } => {
            put_dotted_in(out, "-", id, attribute, "")
        }
        InlineExpression::VariableReference { id } => put_three(out, "$", id.name, ""),
        InlineExpression::Placeable { expression } => match &**expression {
            Expression::Inline(shown)
            | Expression::Select {
                selector: shown,
                ..
            } => put_fallback(out, shown),
        },
    }
}

/// Writes a name, and after a point that of an attribute, between two texts.
fn put_dotted_in<W: Write>(
    out: &mut Output<W>,
    before: &str,
    id: &Identifier,
    attribute: &Option<Identifier>,
    after: &str,
) -> Result<(), Halt>
    ensures took { Puts W.contents
        (before.now ++ (dotted id.now.name.now (attribute_of attribute.now) ++ after.now)) result out }
    ensures memory { GoesThrough out.old → result ≢ Err Halt.Memory }
{
    match attribute {
        Some(attribute) => {
            put_three(out, before, id.name, ".")?;
            put_three(out, attribute.name, after, "")
        }
        None => put_three(out, before, id.name, after),
    }
}

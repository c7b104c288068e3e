//! Identifiers, blanks and line ends.
ghost use Rattle.std.specs.Prelude.{◌≡◌, ◌<◌, ◌≤◌, Some, length, IfSome};
ghost use Rattle.fluent_text.specs.Parser as parser;
ghost use Rattle.fluent_text.specs.Lexical as spec;
ghost use Rattle.fluent_syntax.specs.Expressions as expression;
ghost use Rattle.fluent_text.specs.Reading.{found, passed};
ghost use Rattle.fluent_syntax.specs.Inside.Reading.{IsIndent};
ghost use Rattle.fluent_ast.specs.View.{name_view, inline_view};

use crate::parser::bytes::{Class, byte_at, eat, split_indent, split_run};
use fluent_ast::ast::{Identifier, InlineExpression};

#[inline(always)]
#[tactic(auto, unfolding(fluent_text::specs::Lexical::identifier))]
pub fn identifier<'s>(s: &'s str) -> Option<(Identifier<'s>, &'s str)>
    ensures { found name_view result ≡ spec.identifier s.now }
{
    if !byte_at(s, 0).is_ascii_alphabetic() {
        return None;
    }
    let (name, rest) = split_run(s, Class::Identifier);
    Some((Identifier { name }, rest))
}

#[inline(always)]
#[tactic(auto, unfolding(fluent_text::specs::Lexical::blank_inline, fluent_text::specs::Parser::run1))]
pub fn blank_inline(s: &str) -> Option<(usize, &str)>
    ensures gives { found (λ n. n) result ≡ spec.blank_inline s.now }
    ensures indent { IfSome result (λ p. IsIndent s.now p.0 p.1.now) }
{
    let (spaces, rest) = split_run(s, Class::Space);
    let len = spaces.len();
    if len == 0 {
        return None;
    }
    Some((len, rest))
}

/// The same at the start of a line, where mostly several stand.
#[inline(always)]
#[tactic(auto, unfolding(fluent_text::specs::Lexical::blank_inline, fluent_text::specs::Parser::run1))]
pub fn line_indent(s: &str) -> Option<(usize, &str)>
    ensures gives { found (λ n. n) result ≡ spec.blank_inline s.now }
    ensures indent { IfSome result (λ p. IsIndent s.now p.0 p.1.now) }
{
    let (spaces, rest) = split_indent(s);
    let len = spaces.len();
    if len == 0 {
        return None;
    }
    Some((len, rest))
}

/// What follows a line feed, or a carriage return and a line feed.
#[inline(always)]
#[tactic(auto, unfolding(fluent_text::specs::Lexical::line_break))]
pub fn line_break(s: &str) -> Option<&str>
    ensures { passed result ≡ spec.line_break s.now }
{
    if let Some(after_return) = eat(s, b'\r')
        && let Some(rest) = eat(after_return, b'\n')
    {
        return Some(rest);
    }
    eat(s, b'\n')
}

#[inline(always)]
#[tactic(auto, unfolding(fluent_text::specs::Lexical::line_end))]
pub fn line_end(s: &str) -> Option<&str>
    ensures { passed result ≡ spec.line_end s.now }
{
    if let Some(rest) = line_break(s) {
        return Some(rest);
    }
    if s.is_empty() { Some(s) } else { None }
}

#[inline(always)]
pub fn after_spaces(s: &str) -> &str
    ensures { parser.skip spec.blank_inline s.now ≡ Some (tt, result.now) }
{
    match blank_inline(s) {
        Some((_, rest)) => rest,
        None => s,
    }
}

/// After blanks and line ends.
#[inline(always)]
pub fn after_blank(s: &str) -> &str
    ensures { parser.skip spec.blank s.now ≡ Some (tt, result.now) }
{
    let rest = after_spaces(s);
    if byte_at(rest, 0) > b' ' {
        return rest;
    }
    after_lines(s)
}

/// The same at the start of a line.
#[inline(always)]
pub fn after_indent(s: &str) -> &str
    ensures { parser.skip spec.blank s.now ≡ Some (tt, result.now) }
{
    let rest = after_line_spaces(s);
    if byte_at(rest, 0) > b' ' {
        return rest;
    }
    after_lines(s)
}

#[inline(always)]
fn after_line_spaces(s: &str) -> &str
    ensures { parser.skip spec.blank_inline s.now ≡ Some (tt, result.now) }
{
    match line_indent(s) {
        Some((_, rest)) => rest,
        None => s,
    }
}

/// The same where line ends stand among the blanks.
#[inline(never)]
fn after_lines(s: &str) -> &str
    ensures { parser.skip spec.blank s.now ≡ Some (tt, result.now) }
{
    match blank(s) {
        Some(rest) => rest,
        None => s,
    }
}

#[tactic(auto, unfolding(fluent_text::specs::Lexical::blank))]
fn blank(s: &str) -> Option<&str>
    ensures { passed result ≡ spec.blank s.now }
{
    let rest = blank_turn(s)?;
    let (_, rest) = more_blanks(rest);
    Some(rest)
}

#[tactic(auto, using(fluent_text::specs::Facts::Turns::turns))]
fn more_blanks(s: &str) -> (usize, &str)
    ensures { parser.count spec.blank_turn s.now ≡ Some (result.0, result.1.now) }
{
    let mut count = 0;
    let mut rest = s;
    'blanks: for _turn in 0..s.len() {
        let Some(next) = blank_turn(rest) else {
            return (count, rest);
        };
        if next.len() >= rest.len() {
            return (count, rest);
        }
        count += 1;
        rest = next;
    }
    (count, rest)
}

#[inline(always)]
#[tactic(auto, unfolding(fluent_text::specs::Lexical::blank_turn))]
fn blank_turn(s: &str) -> Option<&str>
    ensures { passed result ≡ spec.blank_turn s.now }
{
    if let Some((_, rest)) = blank_inline(s) {
        return Some(rest);
    }
    line_end(s)
}

#[inline(always)]
#[tactic(auto, unfolding(fluent_text::specs::Lexical::blank_line))]
pub fn blank_line(s: &str) -> Option<&str>
    ensures { passed result ≡ spec.blank_line s.now }
{
    line_end(after_spaces(s))
}

/// How many line ends.
#[tactic(auto, unfolding(fluent_text::specs::Lexical::blank_block))]
pub fn blank_block(s: &str) -> Option<(usize, &str)>
    ensures { found (λ n. n) result ≡ spec.blank_block s.now }
{
    let rest = blank_line(s)?;
    let (more, rest) = more_lines(rest);
    Some((more + 1, rest))
}

#[tactic(auto, using(fluent_text::specs::Facts::Turns::turns))]
fn more_lines(s: &str) -> (usize, &str)
    ensures count { parser.count spec.blank_line s.now ≡ Some (result.0, result.1.now) }
    ensures within { result.0 ≤ length s.now }
{
    let mut count = 0;
    let mut rest = s;
    'lines: for _turn in 0..s.len() {
        let Some(next) = blank_line(rest) else {
            return (count, rest);
        };
        if next.len() >= rest.len() {
            return (count, rest);
        }
        count += 1;
        rest = next;
    }
    (count, rest)
}

#[inline(always)]
#[tactic(auto, unfolding(crate::specs::Expressions::variable_reference))]
pub fn variable_reference<'s>(s: &'s str) -> Option<(InlineExpression<'s>, &'s str)>
    ensures { found inline_view result ≡ expression.variable_reference s.now }
{
    let (id, rest) = identifier(eat(s, b'$')?)?;
    Some((InlineExpression::VariableReference { id }, rest))
}

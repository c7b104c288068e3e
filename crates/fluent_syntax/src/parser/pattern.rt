//! Patterns, over a reader of placeables.
ghost use Rattle.std.specs.Prelude.{◌≡◌, true, Some, IfOk};
ghost use Rattle.fluent_text.specs.Lexical.{is_text};
ghost use Rattle.fluent_text.specs.Parser.{run};
ghost use Rattle.fluent_syntax.specs.Expressions.{level};
ghost use Rattle.fluent_syntax.specs.Inside.FirstLine.{IsPattern};
ghost use Rattle.fluent_syntax.specs.Pieces as spec;
ghost use Rattle.fluent_syntax.specs.Layout.{unless_empty, trim_spaces};
ghost use Rattle.fluent_syntax.specs.Inside.Reading.{Gives, all};
ghost use Rattle.fluent_syntax.specs.Inside.Nests.{GivesBraces};
ghost use Rattle.fluent_syntax.specs.Inside.Progress.{GivesWhole, pieces_of};
ghost use Rattle.fluent_ast.specs.View.{element_view, pattern_view};

use crate::parser::bytes::{Class, split_run};
use crate::parser::first_line::{Line, ends_pattern, first_line};
use crate::parser::layout::{elements, trim_last, without_spaces};
use crate::parser::pieces::{as_pieces, more_pieces};
use crate::parser::stop::Stop;
use fluent_ast::ast::{Expression, Pattern, PatternElement};
use std::alloc::{AllocError, Global};

/// A pattern whose placeables are read by `braces`, no deeper than `depth`.
#[inline(always)]
pub fn pattern<'s, F: Fn(Global, &'s str, usize) -> Result<(Expression<'s>, &'s str), Stop>>(
    alloc: Global,
    s: &'s str,
    depth: usize,
    braces: &F,
) -> Result<(Pattern<'s>, &'s str), Stop>
    requires braces { GivesBraces F.pre F.post depth braces.now }
    ensures { Gives pattern_view result (spec.pattern (level depth).braces s.now) }
{
    let (line, after) = split_run(s, Class::Text);
    if is_whole(line, after) {
        return match one_element(alloc, line) {
            Ok(elements) => Ok((Pattern { elements }, after)),
            Err(_) => Err(Stop::Memory),
        };
    }
    long_pattern(alloc, s, line, after, depth, braces)
}

/// Whether the text of a line is a whole pattern: nothing after it goes on with it.
#[inline(always)]
fn is_whole(line: &str, rest: &str) -> bool
    ensures { (result ≡ true) → IsPattern line.now rest.now }
{
    !line.is_empty() && ends_pattern(rest)
}

/// The text of a line as the only element, without the spaces at its end.
#[inline(always)]
fn one_element<'s>(alloc: Global, line: &'s str) -> Result<Vec<PatternElement<'s>>, AllocError>
    ensures { IfOk result (λ v. all element_view v ≡ unless_empty (trim_spaces line.now)) }
{
    let value = without_spaces(line);
    if value.is_empty() {
        return Ok(Vec::new(alloc));
    }
    let mut elements = Vec::new(alloc);
    elements.reserve_exact(1)?;
    elements.push_reserved(PatternElement::TextElement { value });
    Ok(elements)
}

/// A pattern with placeables, or with several lines, which begins with a text, maybe an empty one.
#[inline(never)]
fn long_pattern<'s, F: Fn(Global, &'s str, usize) -> Result<(Expression<'s>, &'s str), Stop>>(
    alloc: Global,
    s: &'s str,
    value: &'s str,
    after: &'s str,
    depth: usize,
    braces: &F,
) -> Result<(Pattern<'s>, &'s str), Stop>
    requires begin { run is_text s.now ≡ Some (value.now, after.now) }
    requires braces { GivesBraces F.pre F.post depth braces.now }
    ensures { Gives pattern_view result (spec.pattern (level depth).braces s.now) }
{
    let mut elements = Vec::new(alloc);
    let line = first_line(alloc, s, value, after, depth, braces, &mut elements)?;
    match line {
        Line::Whole(rest) => {
            if elements.is_empty() {
                return Err(Stop::Absent);
            }
            trim_last(&mut elements)?;
            Ok((Pattern { elements }, rest))
        }
        Line::Open(rest) => many_lines(alloc, rest, depth, braces, elements),
    }
}

/// The rest of a pattern that may have several lines, after the elements of its first line.
#[inline(never)]
fn many_lines<'s, F: Fn(Global, &'s str, usize) -> Result<(Expression<'s>, &'s str), Stop>>(
    alloc: Global,
    s: &'s str,
    depth: usize,
    braces: &F,
    prefix: Vec<PatternElement<'s>>,
) -> Result<(Pattern<'s>, &'s str), Stop>
    requires braces { GivesBraces F.pre F.post depth braces.now }
    ensures { GivesWhole depth (pieces_of (all element_view prefix.entry)) s.now pattern_view result spec.pattern }
{
    let found = as_pieces(alloc, prefix)?;
    let (pieces, rest) = more_pieces(alloc, s, depth, braces, found)?;
    let elements = elements(alloc, pieces)?;
    Ok((Pattern { elements }, rest))
}

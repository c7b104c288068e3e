//! The first line of a pattern, read straight into its elements.
ghost use Rattle.std.specs.Prelude.{◌≡◌, ◌==◌, ◌+◌, ◌++◌, [], true, false, length, Some, OnOk, IfOk};
ghost use Rattle.fluent_text.specs.Lexical.{is_text};
ghost use Rattle.fluent_text.specs.Parser.{first, run};
ghost use Rattle.fluent_syntax.specs.Expressions.{level};
ghost use Rattle.fluent_syntax.specs.Inside.FirstLine.{AppendsBoth, EndsFirstLine};
ghost use Rattle.fluent_syntax.specs.Layout.{unless_empty};
ghost use Rattle.fluent_syntax.specs.Inside.Nests.{GivesBraces};
ghost use Rattle.fluent_syntax.specs.Inside.Progress.{closes_pattern, LineEndsPattern, IsFirstLine};
ghost use Rattle.fluent_syntax.specs.Inside.Pushing.{Appends};
ghost use Rattle.fluent_syntax.specs.Inside.Reading.{Gives, all};
ghost use Rattle.fluent_ast.specs.View.{element_view, expression_view};

use crate::parser::bare::bare_placeable;
use crate::parser::bytes::{Class, byte_at, split_run};
use crate::parser::lines::{blank_block, line_break, line_indent};
use crate::parser::list::push;
use crate::parser::stop::Stop;
use fluent_ast::ast::{Expression, PatternElement};
use std::alloc::{AllocError, Global};

/// What follows the elements of a pattern's first line.
#[derive(Drop)]
pub enum Line<'s> {
    /// They are the whole pattern, and this stands after it.
    Whole(&'s str),
    /// The pattern may go on with this.
    Open(&'s str),
}

/// Whether a pattern may go on with the lines after a line's text. It may not before an attribute, a variant or the end of a select.
///
/// The next line is mostly not blank: then its indent is passed over once, and the byte after it tells.
fn may_go_on(s: &str) -> bool
    ensures { (result ≡ false) → LineEndsPattern s.now }
{
    let Some(line) = line_break(s) else {
        return may_go_on_below(s);
    };
    let Some((_, text)) = line_indent(line) else {
        let next = byte_at(line, 0);
        if next > b' ' {
            return next == b'{';
        }
        return may_go_on_below(s);
    };
    let next = byte_at(text, 0);
    if next > b' ' {
        return !closes_pattern(next);
    }
    may_go_on_below(s)
}

/// The same where blank lines may follow.
#[inline(never)]
fn may_go_on_below(s: &str) -> bool
    ensures { (result ≡ false) → LineEndsPattern s.now }
{
    let Some((_, line)) = blank_block(s) else {
        return true;
    };
    let Some((_, text)) = line_indent(line) else {
        return byte_at(line, 0) == b'{';
    };
    if closes_pattern(byte_at(text, 0)) {
        return false;
    }
    true
}

/// Whether an indented line that begins with this byte belongs to what follows a pattern: a variant, an attribute, or the end of a select.
fn closes_pattern(byte: u8) -> bool
    ensures { result ≡ closes_pattern byte }
{
    byte == b'[' || byte == b'*' || byte == b'.' || byte == b'}'
}

/// Adds a text, unless it is empty.
#[inline(always)]
fn push_text<'s>(found: &mut Vec<PatternElement<'s>>, value: &'s str) -> Result<(), AllocError>
    ensures { OnOk result (Appends element_view found.old found.new (unless_empty value.now)) }
{
    if value.is_empty() {
        return Ok(());
    }
    push(found, PatternElement::TextElement { value })
}

/// A placeable. One that holds a reference alone, as most do, is read at once.
#[inline(always)]
fn placeable<'s, F: Fn(Global, &'s str, usize) -> Result<(Expression<'s>, &'s str), Stop>>(
    alloc: Global,
    s: &'s str,
    depth: usize,
    braces: &F,
) -> Result<(Expression<'s>, &'s str), Stop>
    requires braces { GivesBraces F.pre F.post depth braces.now }
    ensures { Gives expression_view result ((level depth).braces s.now) }
{
    if depth > 0
        && let Some(read) = bare_placeable(s)
    {
        return Ok(read);
    }
    braces(alloc, s, depth)
}

/// Whether a pattern ends with the text of a line that this stands after.
#[inline(always)]
pub fn ends_pattern(s: &str) -> bool
    ensures { (result ≡ true) → ((first s.now == 123) ≡ false) × LineEndsPattern s.now }
{
    if byte_at(s, 0) == b'{' || may_go_on(s) {
        return false;
    }
    true
}

/// How many elements a placeable makes with these texts before and after it.
#[inline(always)]
fn room(before: &str, after: &str) -> usize
    ensures { result ≡ length (unless_empty before.now ++ unless_empty after.now) + 1 }
{
    match (before.is_empty(), after.is_empty()) {
        (true, true) => 1,
        (false, false) => 3,
        _ => 2,
    }
}

/// Makes room for just these, where the pattern ends with them.
#[inline(always)]
fn make_room(
    found: &mut Vec<PatternElement<'_>>,
    ends: bool,
    before: &str,
    after: &str,
) -> Result<(), AllocError>
    ensures { OnOk result (found.new.items ≡ found.old.items) }
{
    if ends {
        found.reserve_exact(room(before, after))?;
    }
    Ok(())
}

/// Adds a placeable and the text before it, unless that is empty.
#[inline(always)]
fn push_both<'s>(
    found: &mut Vec<PatternElement<'s>>,
    value: &'s str,
    expression: Expression<'s>,
) -> Result<(), AllocError>
    ensures { OnOk result (AppendsBoth found.old found.new value.now expression.entry) }
{
    push_text(found, value)?;
    push(found, PatternElement::Placeable { expression })
}

/// Adds the elements of a first line, from a brace on, before which a text stands, maybe an empty one.
///
/// What follows a placeable is looked at before it is added: mostly the pattern ends there, and the list needs room
/// for just what was read.
#[inline(always)]
fn from_brace<'s, F: Fn(Global, &'s str, usize) -> Result<(Expression<'s>, &'s str), Stop>>(
    alloc: Global,
    before: &'s str,
    s: &'s str,
    depth: usize,
    braces: &F,
    found: &mut Vec<PatternElement<'s>>,
) -> Result<Line<'s>, AllocError>
    requires none { all element_view found.old ≡ [] }
    requires braces { GivesBraces F.pre F.post depth braces.now }
    ensures { EndsFirstLine depth before.now s.now found.new result }
{
    let mut value = before;
    let mut rest = s;
    'elements: for _turn in 0..s.len() {
        let (expression, next) = match placeable(alloc, rest, depth, braces) {
            Ok(read) => read,
            Err(Stop::Absent) => {
                push_text(found, value)?;
                return Ok(Line::Whole(rest));
            }
            Err(Stop::Memory) => return Err(AllocError),
        };
        let (text, after) = split_run(next, Class::Text);
        let ends = ends_pattern(after);
        make_room(found, ends, value, text)?;
        push_both(found, value, expression)?;
        if ends {
            push_text(found, text)?;
            return Ok(Line::Whole(after));
        }
        if byte_at(after, 0) != b'{' {
            return Ok(Line::Open(next));
        }
        value = text;
        rest = after;
    }
    push_text(found, value)?;
    Ok(Line::Open(rest))
}

/// Adds the texts and placeables of a pattern's first line, which begins with a text, maybe an empty one. Where the
/// pattern may go on, the line's last text is left. The list stays where the caller has it: handed back beside the
/// line, it would be copied four times.
pub fn first_line<'s, F: Fn(Global, &'s str, usize) -> Result<(Expression<'s>, &'s str), Stop>>(
    alloc: Global,
    s: &'s str,
    value: &'s str,
    after: &'s str,
    depth: usize,
    braces: &F,
    found: &mut Vec<PatternElement<'s>>,
) -> Result<Line<'s>, AllocError>
    requires none { all element_view found.old ≡ [] }
    requires begin { run is_text s.now ≡ Some (value.now, after.now) }
    requires braces { GivesBraces F.pre F.post depth braces.now }
    ensures { IfOk result (λ line. IsFirstLine depth s.now (all element_view found.new) line) }
{
    if byte_at(after, 0) != b'{' {
        if value.is_empty() && !may_go_on(after) {
            return Ok(Line::Whole(after));
        }
        return Ok(Line::Open(s));
    }
    from_brace(alloc, value, after, depth, braces, found)
}

//! The pieces of a pattern that has several lines.
ghost use Rattle.std.specs.Prelude.{◌≡◌, IfOk};
ghost use Rattle.fluent_syntax.specs.Expressions.{level};
ghost use Rattle.fluent_syntax.specs.Inside.Nests.{GivesBraces};
ghost use Rattle.fluent_syntax.specs.Pieces.{pattern_element, pieces};
ghost use Rattle.fluent_syntax.specs.Inside.PieceView.{piece_view};
ghost use Rattle.fluent_syntax.specs.Inside.Progress.{GivesWhole, PushesPieces, piece_of, pieces_of, ended, text_pieces, hole_pieces};
ghost use Rattle.fluent_syntax.specs.Inside.Reading.{Gives, all};
ghost use Rattle.fluent_ast.specs.View.{element_view, expression_view};

use crate::parser::bare::bare_placeable;
use crate::parser::bytes::byte_at;
use crate::parser::lines::blank_block;
use crate::parser::list::push;
use crate::parser::piece::{Piece, Slice, block_text, indent, inline_text};
use crate::parser::stop::Stop;
use fluent_ast::ast::{Expression, PatternElement};
use std::alloc::{AllocError, Global};

/// How many pieces a list of them has room for at first: a pattern of three or four lines needs no more.
const ROOM: usize = 8;

/// The elements of a pattern's first line, as pieces.
pub fn as_pieces<'s>(
    alloc: Global,
    prefix: Vec<PatternElement<'s>>,
) -> Result<Vec<Piece<'s>>, AllocError>
    ensures { IfOk result (λ v. all piece_view v ≡ pieces_of (all element_view prefix.entry)) }
{
    let mut pieces = Vec::with_capacity(alloc, prefix.len().max(ROOM))?;
    'elements: for element in prefix {
        push(&mut pieces, as_piece(element))?;
    }
    Ok(pieces)
}

fn as_piece<'s>(element: PatternElement<'s>) -> Piece<'s>
    ensures { piece_view result ≡ piece_of (element_view element.entry) }
{
    match element {
        PatternElement::TextElement { value } => Piece::Words(Slice::in_line(value)),
        PatternElement::Placeable { expression } => Piece::Placeable(expression),
    }
}

/// All pieces of a pattern, of which the first were found already.
pub fn more_pieces<'s, F: Fn(Global, &'s str, usize) -> Result<(Expression<'s>, &'s str), Stop>>(
    alloc: Global,
    s: &'s str,
    depth: usize,
    braces: &F,
    mut found: Vec<Piece<'s>>,
) -> Result<(Vec<Piece<'s>>, &'s str), Stop>
    requires braces { GivesBraces F.pre F.post depth braces.now }
    ensures { GivesWhole depth (all piece_view found.entry) s.now (all piece_view) result pieces }
{
    let mut rest = s;
    'pieces: while !rest.is_empty() {
        match push_element(alloc, rest, depth, braces, &mut found) {
            Ok(after) => rest = after,
            Err(Stop::Absent) => return all_found(found, rest),
            Err(Stop::Memory) => return Err(Stop::Memory),
        }
    }
    all_found(found, rest)
}

/// The pieces before what follows them, if there are any.
fn all_found<'s>(found: Vec<Piece<'s>>, rest: &'s str) -> Result<(Vec<Piece<'s>>, &'s str), Stop>
    ensures { Gives (all piece_view) result (ended (all piece_view found.entry) rest.now) }
{
    if found.is_empty() {
        return Err(Stop::Absent);
    }
    Ok((found, rest))
}

/// Reads a text or a placeable with what stands before it on its line, and adds it.
fn push_element<'s, F: Fn(Global, &'s str, usize) -> Result<(Expression<'s>, &'s str), Stop>>(
    alloc: Global,
    s: &'s str,
    depth: usize,
    braces: &F,
    found: &mut Vec<Piece<'s>>,
) -> Result<&'s str, Stop>
    requires braces { GivesBraces F.pre F.post depth braces.now }
    ensures { PushesPieces result found.old found.new
        (pattern_element (level depth).braces s.now) }
{
    match push_words(s, found) {
        Ok(rest) => Ok(rest),
        Err(Stop::Memory) => Err(Stop::Memory),
        Err(Stop::Absent) => push_hole(alloc, s, depth, braces, found),
    }
}

fn push_words<'s>(s: &'s str, found: &mut Vec<Piece<'s>>) -> Result<&'s str, Stop>
    ensures { PushesPieces result found.old found.new
        (text_pieces s.now) }
{
    if byte_at(s, 0) == b'{' {
        return Err(Stop::Absent);
    }
    if let Some((words, rest)) = inline_text(s) {
        push(found, Piece::Words(words))?;
        return Ok(rest);
    }
    if let Some((parts, rest)) = block_text(s) {
        let (ends, words) = parts;
        push(found, Piece::Line(ends))?;
        push(found, Piece::Words(words))?;
        return Ok(rest);
    }
    Err(Stop::Absent)
}

/// Reads a placeable, with what stands before it on its line, and adds it. One that holds a reference alone is read at once.
#[inline(never)]
fn push_hole<'s, F: Fn(Global, &'s str, usize) -> Result<(Expression<'s>, &'s str), Stop>>(
    alloc: Global,
    s: &'s str,
    depth: usize,
    braces: &F,
    found: &mut Vec<Piece<'s>>,
) -> Result<&'s str, Stop>
    requires braces { GivesBraces F.pre F.post depth braces.now }
    ensures { PushesPieces result found.old found.new
        (hole_pieces depth s.now) }
{
    if depth > 0
        && let Some((x, rest)) = bare_placeable(s)
    {
        push(found, Piece::Placeable(x))?;
        return Ok(rest);
    }
    push_any_hole(alloc, s, depth, braces, found)
}

#[inline(never)]
#[tactic(auto, unfolding(crate::specs::Pieces::block_placeable))]
fn push_any_hole<'s, F: Fn(Global, &'s str, usize) -> Result<(Expression<'s>, &'s str), Stop>>(
    alloc: Global,
    s: &'s str,
    depth: usize,
    braces: &F,
    found: &mut Vec<Piece<'s>>,
) -> Result<&'s str, Stop>
    requires braces { GivesBraces F.pre F.post depth braces.now }
    ensures { PushesPieces result found.old found.new
        (hole_pieces depth s.now) }
{
    match at_brace(alloc, s, depth, braces) {
        Ok((x, rest)) => {
            push(found, Piece::Placeable(x))?;
            return Ok(rest);
        }
        Err(Stop::Memory) => return Err(Stop::Memory),
        Err(Stop::Absent) => {}
    }
    let Some((ends, line)) = blank_block(s) else {
        return Err(Stop::Absent);
    };
    let (words, rest) = indent(line);
    let (x, rest) = braces(alloc, rest, depth)?;
    push(found, Piece::Line(ends))?;
    push(found, Piece::Words(words))?;
    push(found, Piece::Placeable(x))?;
    Ok(rest)
}

/// A placeable, which is looked for only at a brace.
#[inline(always)]
#[tactic(auto, using(crate::proofs::Braces::no_brace))]
fn at_brace<'s, F: Fn(Global, &'s str, usize) -> Result<(Expression<'s>, &'s str), Stop>>(
    alloc: Global,
    s: &'s str,
    depth: usize,
    braces: &F,
) -> Result<(Expression<'s>, &'s str), Stop>
    requires braces { GivesBraces F.pre F.post depth braces.now }
    ensures { Gives expression_view result ((level depth).braces s.now) }
{
    if byte_at(s, 0) != b'{' {
        return Err(Stop::Absent);
    }
    braces(alloc, s, depth)
}

//! From the pieces of a pattern to its elements.
ghost use Rattle.std.specs.Prelude.{true, ◌≡◌, map, replicate, IfOk, OnOk};
ghost use Rattle.fluent_syntax.specs.Layout as spec;
ghost use Rattle.fluent_ast.specs.View.{element_view};
ghost use Rattle.fluent_syntax.specs.Inside.PieceView.{piece_view};
ghost use Rattle.fluent_syntax.specs.Inside.Reading.{all};
ghost use Rattle.fluent_syntax.specs.Inside.Trimmed.{AllStay, Stays};
ghost use Rattle.fluent_syntax.specs.Inside.Backwards.{HoldsLines, Prepends, PrependsPiece, TellsStart};

use crate::parser::list::push;
use crate::parser::piece::{Piece, Slice};
use fluent_ast::ast::PatternElement;
use std::alloc::{AllocError, Global};

/// The elements of a pattern's pieces.
#[tactic(auto, unfolding(crate::specs::Layout::elements))]
pub fn elements<'s>(
    alloc: Global,
    pieces: Vec<Piece<'s>>,
) -> Result<Vec<PatternElement<'s>>, AllocError>
    ensures { IfOk result (λ v. all element_view v ≡ spec.elements (all piece_view pieces.entry)) }
{
    let common = common_indent(&pieces);
    let mut out = backwards(alloc, pieces, common)?;
    drop_feeds(&mut out);
    out.reverse();
    trim_last(&mut out)?;
    Ok(out)
}

/// Adds `count` line feeds.
fn push_feeds<'s>(out: &mut Vec<PatternElement<'s>>, count: usize) -> Result<(), AllocError>
    ensures { OnOk result (Prepends out.old out.new (replicate count spec.feed)) }
{
    'feeds: for _turn in 0..count {
        push(out, PatternElement::TextElement { value: "\n" })?;
    }
    Ok(())
}

/// Adds a text, with the line feed that follows it, which was added before, if it does so directly.
#[inline(always)]
#[tactic(auto, unfolding(crate::specs::Layout::lines))]
fn push_words<'s>(
    out: &mut Vec<PatternElement<'s>>,
    words: &Slice<'s>,
    common: usize,
    after_line: bool,
) -> Result<(), AllocError>
    ensures { OnOk result (PrependsPiece common after_line out.old out.new (spec.words words.now)) }
{
    if after_line && let Some(value) = words.fed_text(common) {
        let _ = out.pop();
        push(out, PatternElement::TextElement { value })?;
        return Ok(());
    }
    let value = words.text(common);
    if value.is_empty() {
        return Ok(());
    }
    push(out, PatternElement::TextElement { value })?;
    Ok(())
}

/// Adds a piece before those that were added, of which the first is a line start or isn't. Answers whether this piece is one.
#[inline(always)]
#[tactic(auto, unfolding(crate::specs::Layout::lines))]
fn push_piece<'s>(
    out: &mut Vec<PatternElement<'s>>,
    piece: Piece<'s>,
    common: usize,
    after_line: bool,
) -> Result<bool, AllocError>
    ensures out { OnOk result (PrependsPiece common after_line out.old out.new (piece_view piece.entry)) }
    ensures line { IfOk result (TellsStart (piece_view piece.entry)) }
{
    match piece {
        Piece::Line(count) => {
            push_feeds(out, count)?;
            Ok(true)
        }
        Piece::Words(words) => {
            push_words(out, &words, common, after_line)?;
            Ok(false)
        }
        Piece::Placeable(expression) => {
            push(out, PatternElement::Placeable { expression })?;
            Ok(false)
        }
    }
}

/// The elements of the pieces, from the last, before anything is trimmed.
fn backwards<'s>(
    alloc: Global,
    pieces: Vec<Piece<'s>>,
    common: usize,
) -> Result<Vec<PatternElement<'s>>, AllocError>
    ensures { IfOk result (λ v. HoldsLines common v (all piece_view pieces.entry)) }
{
    let mut out = Vec::with_capacity(alloc, pieces.len())?;
    let mut left = pieces;
    let mut after_line = false;
    'pieces: while let Some(piece) = left.pop() {
        after_line = push_piece(&mut out, piece, common, after_line)?;
    }
    Ok(out)
}

#[tactic(auto, using(crate::proofs::Least::leasts))]
fn common_indent(pieces: &[Piece<'_>]) -> usize
    ensures { result ≡ spec.common_indent (map piece_view pieces.now) }
{
    let mut least: Option<usize> = None;
    'pieces: for piece in pieces {
        least = smaller(least, indent_in(piece));
    }
    least.unwrap_or(0)
}

fn indent_in(piece: &Piece<'_>) -> Option<usize>
    ensures { result ≡ spec.indent_in (piece_view piece.now) }
{
    match piece {
        Piece::Words(words) => words.indent(),
        _ => None,
    }
}

fn smaller(a: Option<usize>, b: Option<usize>) -> Option<usize>
    ensures { result ≡ spec.smaller a b }
{
    match (a, b) {
        (None, b) => b,
        (Some(m), None) => Some(m),
        (Some(m), Some(n)) => Some(m.min(n)),
    }
}

/// Takes the line feeds off the end, which is the start of the pattern.
#[inline(always)]
fn drop_feeds<'s>(out: &mut Vec<PatternElement<'s>>)
    ensures { all element_view out.new ≡ spec.without_last spec.is_feed (all element_view out.old) }
{
    let mut end = out.len();
    'feeds: while end > 0 && is_feed(&out[end - 1]) {
        end -= 1;
    }
    out.truncate(end);
}

#[inline(always)]
fn is_feed(element: &PatternElement<'_>) -> bool
    ensures { result ≡ spec.is_feed (element_view element.now) }
{
    match element {
        PatternElement::TextElement { value } => *value == "\n",
        PatternElement::Placeable { .. } => false,
    }
}

/// Whether the last element stays as it is where it is trimmed, and so need not be moved.
#[inline(always)]
fn is_trimmed(elements: &[PatternElement<'_>]) -> bool
    ensures { (result ≡ true) → AllStay (map element_view elements.now) }
{
    match elements.last() {
        None => true,
        Some(last) => stays(last),
    }
}

/// Whether an element is a placeable, or a text with no spaces at its end.
#[inline(always)]
fn stays(element: &PatternElement<'_>) -> bool
    ensures { (result ≡ true) → Stays (element_view element.now) }
{
    match element {
        PatternElement::TextElement { value } => {
            let text = without_spaces(value);
            if text.is_empty() {
                return false;
            }
            text.len() == value.len()
        }
        PatternElement::Placeable { .. } => true,
    }
}

/// Where the last element is text, takes the spaces off its end, and takes it away where nothing is left.
#[inline(always)]
pub fn trim_last<'s>(out: &mut Vec<PatternElement<'s>>) -> Result<(), AllocError>
    ensures { OnOk result (all element_view out.new ≡ spec.trim_last (all element_view out.old)) }
{
    if is_trimmed(out) {
        return Ok(());
    }
    match out.pop() {
        None => Ok(()),
        Some(PatternElement::TextElement { value }) => {
            let value = without_spaces(value);
            if !value.is_empty() {
                push(out, PatternElement::TextElement { value })?;
            }
            Ok(())
        }
        Some(PatternElement::Placeable { expression }) => {
            push(out, PatternElement::Placeable { expression })?;
            Ok(())
        }
    }
}

/// The text without the spaces at its end.
pub fn without_spaces(text: &str) -> &str
    ensures { result.now ≡ spec.trim_spaces text.now }
{
    let bytes = text.as_bytes();
    let mut end = bytes.len();
    'spaces: while end > 0 && bytes[end - 1] == b' ' {
        end -= 1;
    }
    &text[..end]
}

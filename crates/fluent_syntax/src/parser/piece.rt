//! The pieces of a pattern, as they are read.
ghost use Rattle.std.specs.Prelude.{None, ◌≡◌, ◌<◌, ◌≤◌, ℕ, false, Some, length, drop, slice_index, unwrap_or, IfSome};
ghost use Rattle.fluent_syntax.specs.Layout.{dedented};
ghost use Rattle.fluent_syntax.specs.Pieces as spec;
ghost use Rattle.fluent_syntax.specs.Inside.Slice.{IsFed};
ghost use Rattle.fluent_text.specs.Reading.{found};

use crate::parser::bytes::{Class, byte_at, run_len};
use crate::parser::lines::{blank_block, line_indent};
use fluent_ast::ast::Expression;
use std::marker::Model;

/// Text of one line, after its indent where it stands at the start of the line.
#[derive(Drop)]
pub struct Slice<'s> {
    indent: Option<usize>,
    /// The indent and the text.
    whole: &'s str,
    /// The same with the line feed that follows directly, if one does.
    fed: Option<&'s str>,
}

impl<'s> Model for Slice<'s> {
    ghost use Rattle.fluent_syntax.specs.Layout.{Words, words_code};

    ghost Value = { Words };

    ghost coded = { words_code };

    ghost use Rattle.fluent_syntax.specs.Inside.Slice.{words_of, HoldsInside};

    ghost view = { words_of };

    ghost invariant = { HoldsInside };
}

impl<'s> Slice<'s> {
    /// The text at the start of `text`, which follows the indent in `line`.
    #[inline(always)]
    #[tactic(auto, unfolding(crate::specs::Pieces::words_after, fluent_text::specs::Parser::run1))]
    fn read(line: &'s str, indent: Option<usize>, text: &'s str) -> Option<(Slice<'s>, &'s str)>
        requires within { unwrap_or indent 0 ≤ length line.now }
        requires spaces { (k : ℕ) → k < unwrap_or indent 0 → slice_index line.now k ≡ 32 }
        requires follows { text.now ≡ drop (unwrap_or indent 0) line.now }
        ensures gives { found (λ w. w) result ≡ spec.words_after indent text.now }
        ensures shorter { IfSome result (λ p. length p.1.now < length text.now) }
    {
        let len = run_len(text, Class::Text);
        if len == 0 {
            return None;
        }
        let (whole, rest) = line.split_at(indent.unwrap_or(0) + len);
        if byte_at(rest, 0) == b'\n' {
            let fed = Some(&line[..whole.len() + 1]);
            return Some((Slice { indent, whole, fed }, rest));
        }
        Some((
            Slice {
                indent,
                whole,
                fed: None,
            },
            rest,
        ))
    }

    /// Text that no indent stands before, and no line feed after.
    pub fn in_line(whole: &'s str) -> Slice<'s>
        ensures { result ≡ record { indent = None; bytes = whole.now; fed = false } }
    {
        Slice {
            indent: None,
            whole,
            fed: None,
        }
    }

    /// The text without a common indent.
    pub fn text(&self, common: usize) -> &'s str
        ensures { result.now ≡ dedented common self.now }
    {
        let whole = self.whole;
        &whole[common.min(self.indent.unwrap_or(0))..]
    }

    /// The same with the line feed that follows directly, if one does.
    pub fn fed_text(&self, common: usize) -> Option<&'s str>
        ensures { IsFed common self.now result }
    {
        let fed = self.fed?;
        Some(&fed[common.min(self.indent.unwrap_or(0))..])
    }

    #[inline(always)]
    pub fn indent(&self) -> Option<usize>
        ensures { result ≡ self.now.indent }
    {
        self.indent
    }
}

/// What a pattern is read into before its text is laid out.
#[derive(Drop)]
pub enum Piece<'s> {
    /// So many line ends.
    Line(usize),
    Words(Slice<'s>),
    Placeable(Expression<'s>),
}

/// `inline_text`
#[inline(always)]
pub fn inline_text<'s>(s: &'s str) -> Option<(Slice<'s>, &'s str)>
    ensures { found (λ w. w) result ≡ spec.inline_text s.now }
{
    Slice::read(s, None, s)
}

/// `block_text`, by its line ends and its text.
#[inline(always)]
#[tactic(auto, unfolding(crate::specs::Pieces::block_text))]
pub fn block_text<'s>(s: &'s str) -> Option<((usize, Slice<'s>), &'s str)>
    ensures { found (λ p. p) result ≡ spec.block_text s.now }
{
    let (ends, line) = blank_block(s)?;
    let (n, text) = line_indent(line)?;
    let next = byte_at(text, 0);
    if next == b'[' || next == b'*' || next == b'.' {
        return None;
    }
    let (words, rest) = Slice::read(line, Some(n), text)?;
    Some(((ends, words), rest))
}

/// The indent before a placeable that begins a line.
#[inline(always)]
#[tactic(auto, unfolding(crate::specs::Pieces::indent))]
pub fn indent<'s>(s: &'s str) -> (Slice<'s>, &'s str)
    ensures { spec.indent s.now ≡ Some (result.0, result.1.now) }
{
    match line_indent(s) {
        Some((n, rest)) => (
            Slice {
                indent: Some(n),
                whole: &s[..n],
                fed: None,
            },
            rest,
        ),
        None => (
            Slice {
                indent: Some(0),
                whole: "",
                fed: None,
            },
            s,
        ),
    }
}

//! Selects: keys, variants and lists of them.
ghost use Rattle.std.specs.Prelude.{◌≡◌};
ghost use Rattle.fluent_reasons.specs.Reasons as spec;
ghost use Rattle.fluent_reasons.specs.Reasons.{level};
ghost use Rattle.fluent_reasons.specs.Stopping.{repeat};
ghost use Rattle.fluent_reasons.specs.ReasonRead.{Gives, Passes};
ghost use Rattle.fluent_reasons.specs.ReasonLevel.{GivesLevel};
ghost use Rattle.fluent_reasons.specs.declared.kind.Seen.TheVariants as seen;

use crate::bytes::{byte_at, eat, over};
use crate::expected::Expected;
use crate::inner::Inner;
use crate::kind::{Kind, Seen};
use crate::literal::{identifier, number};
use crate::spaces::{after_blank, after_spaces, line_end};
use crate::stop::Stop;
use std::alloc::Global;

fn selector_fault(kind: Kind) -> Option<Expected>
    ensures { result ≡ spec.selector_fault kind }
{
    match kind {
        Kind::Message => Some(Expected::NoMessageSelector),
        Kind::MessageAttribute => Some(Expected::NoAttributeSelector),
        Kind::Term => Some(Expected::NoTermSelector),
        Kind::Placeable => Some(Expected::SimpleSelector),
        Kind::TermAttribute => None,
        Kind::Literal => None,
        Kind::Variable => None,
        Kind::Function => None,
    }
}

fn with_variant(before: Seen) -> Seen
    ensures { result ≡ spec.with_variant before }
{
    match before {
        Seen::NoVariant => Seen::Variants,
        Seen::Variants => Seen::Variants,
        Seen::Default => Seen::Default,
    }
}

fn list_fault(all: Seen) -> Option<Expected>
    ensures { result ≡ spec.list_fault all }
{
    match all {
        Seen::NoVariant => Some(Expected::Variant),
        Seen::Variants => Some(Expected::DefaultVariant),
        Seen::Default => None,
    }
}

fn second_default(before: Seen) -> Option<Expected>
    ensures { result ≡ spec.second_default before }
{
    match before {
        Seen::NoVariant => None,
        Seen::Variants => None,
        Seen::Default => Some(Expected::OneDefault),
    }
}

/// What follows, unless there is a fault of what begins at `start`.
pub fn without<'s>(
    start: &'s [u8],
    s: &'s [u8],
    fault: Option<Expected>,
) -> Result<&'s [u8], Stop<'s>>
    ensures { Passes result (spec.without start.now fault s.now) }
{
    match fault {
        Some(expected) => Err(Stop::At(start, expected)),
        None => Ok(s),
    }
}

/// A name or a number.
#[tactic(auto, unfolding(crate::specs::Reasons::key))]
fn key<'s>(s: &'s [u8]) -> Result<&'s [u8], Stop<'s>>
    ensures { Passes result (spec.key s.now) }
{
    let byte = byte_at(s, 0);
    if byte.is_ascii_alphabetic() {
        return identifier(s);
    }
    if byte.is_ascii_digit() || byte == b'-' {
        return number(s);
    }
    Err(Stop::At(s, Expected::VariantKey))
}

/// A key between its brackets, and the spaces after it.
#[tactic(auto, unfolding(crate::specs::Reasons::variant_key))]
fn variant_key<'s>(s: &'s [u8]) -> Result<&'s [u8], Stop<'s>>
    ensures { Passes result (spec.variant_key s.now) }
{
    let opened = eat(s, b'[').ok_or(Stop::At(s, Expected::OpeningBracket))?;
    let end = after_blank(key(after_blank(opened))?);
    let closed = eat(end, b']').ok_or(Stop::At(end, Expected::ClosingBracket))?;
    Ok(after_spaces(closed))
}

impl<'s, F: Fn(Global, &'s [u8], usize) -> Result<&'s [u8], Stop<'s>>> Inner<F> {
    #[tactic(auto, unfolding(crate::specs::Reasons::variant))]
    fn variant(&self, s: &'s [u8]) -> Result<&'s [u8], Stop<'s>>
        requires { GivesLevel F.pre F.post self.now.depth self.now.enclosed }
        ensures { Passes result (spec.variant (level self.now.depth) s.now) }
    {
        self.value(variant_key(s)?, Expected::Value)
    }

    /// A variant, if one is there, and which there are with it.
    #[tactic(auto, unfolding(crate::specs::Reasons::variant_turn))]
    fn variant_turn(&self, s: &'s [u8], before: Seen) -> Result<(Option<Seen>, &'s [u8]), Stop<'s>>
        requires { GivesLevel F.pre F.post self.now.depth self.now.enclosed }
        ensures { Gives (λ x. x) result (spec.variant_turn (level self.now.depth) before s.now) }
    {
        let start = after_blank(s);
        let byte = byte_at(start, 0);
        if byte == b'*' {
            let star = without(start, start, second_default(before))?;
            let rest = self.variant(over(star))?;
            return Ok((Some(Seen::Default), rest));
        }
        if byte == b'[' {
            let rest = self.variant(start)?;
            return Ok((Some(with_variant(before)), rest));
        }
        Ok((None, start))
    }

    /// All variants, and what follows them.
    #[tactic(auto, using(crate::proofs::Turns::turns_of))]
    fn variant_turns(&self, s: &'s [u8]) -> Result<(Seen, &'s [u8]), Stop<'s>>
        requires { GivesLevel F.pre F.post self.now.depth self.now.enclosed }
        ensures { Gives (λ x. x) result
            (repeat (spec.variant_turn (level self.now.depth)) seen.NoVariant s.now) }
    {
        let mut all = Seen::NoVariant;
        let mut rest = s;
        'variants: for _turn in 0..s.len() {
            let (more, next) = self.variant_turn(rest, all)?;
            let Some(with) = more else {
                return Ok((all, next));
            };
            all = with;
            rest = next;
        }
        Ok((all, rest))
    }

    /// The variants after an arrow.
    #[tactic(auto, unfolding(crate::specs::Reasons::variants))]
    fn variants(&self, s: &'s [u8]) -> Result<&'s [u8], Stop<'s>>
        requires { GivesLevel F.pre F.post self.now.depth self.now.enclosed }
        ensures { Passes result (spec.variants (level self.now.depth) s.now) }
    {
        let line = line_end(s).ok_or(Stop::At(s, Expected::LineEnd))?;
        let (all, end) = self.variant_turns(line)?;
        without(end, end, list_fault(all))
    }

    /// The arrow, after a selector that begins at `start`, and the variants.
    #[tactic(auto, unfolding(crate::specs::Reasons::select))]
    pub fn select(&self, start: &'s [u8], kind: Kind, s: &'s [u8]) -> Result<&'s [u8], Stop<'s>>
        requires { GivesLevel F.pre F.post self.now.depth self.now.enclosed }
        ensures { Passes result (spec.select (level self.now.depth) start.now kind s.now) }
    {
        let arrow = without(start, s, selector_fault(kind))?;
        self.variants(after_spaces(over(over(arrow))))
    }
}

//! Messages and terms, with their attributes, and why none of them can be read.
ghost use Rattle.std.specs.Prelude.{◌≡◌, ◌≤◌, length, drop, IfOk};
ghost use Rattle.fluent_reasons.specs.Reasons as spec;
ghost use Rattle.fluent_reasons.specs.Reasons.{level, reason};
ghost use Rattle.fluent_reasons.specs.ReasonRead.{Passes, GivesTurn};
ghost use Rattle.fluent_reasons.specs.ReasonLevel.{GivesLevel};

use crate::bytes::{byte_at, over};
use crate::expected::{Expected, Reason};
use crate::expression::enclosed;
use crate::inner::Inner;
use crate::literal::name_of_value;
use crate::pattern::some_since;
use crate::spaces::{after_blank, after_spaces};
use crate::stop::{Stop, Turn};
use std::alloc::{AllocError, Global};

/// How many placeables and argument lists of an entry may stand in one another.
const DEPTH: usize = 100;

impl<'s, F: Fn(Global, &'s [u8], usize) -> Result<&'s [u8], Stop<'s>>> Inner<F> {
    /// An attribute, of which the dot was seen.
    #[tactic(auto, unfolding(crate::specs::Reasons::attribute))]
    fn attribute(&self, s: &'s [u8]) -> Result<&'s [u8], Stop<'s>>
        requires { GivesLevel F.pre F.post self.now.depth self.now.enclosed }
        ensures { Passes result (spec.attribute (level self.now.depth) s.now) }
    {
        self.value(name_of_value(over(s))?, Expected::Value)
    }

    /// An attribute below, if one is there.
    #[tactic(auto, unfolding(crate::specs::Reasons::attribute_turn))]
    fn attribute_turn(&self, s: &'s [u8]) -> Result<Turn<'s>, Stop<'s>>
        requires { GivesLevel F.pre F.post self.now.depth self.now.enclosed }
        ensures { GivesTurn result (spec.attribute_turn (level self.now.depth) s.now) }
    {
        let dot = after_blank(s);
        if byte_at(dot, 0) != b'.' {
            return Ok(Turn::Last(s));
        }
        let rest = self.attribute(dot)?;
        Ok(Turn::Again(rest))
    }

    #[tactic(auto, using(crate::proofs::Turns::turns_of))]
    fn attributes(&self, s: &'s [u8]) -> Result<&'s [u8], Stop<'s>>
        requires { GivesLevel F.pre F.post self.now.depth self.now.enclosed }
        ensures { Passes result (spec.attributes (level self.now.depth) s.now) }
    {
        let mut rest = s;
        'attributes: for _turn in 0..s.len() {
            let turn = self.attribute_turn(rest)?;
            match turn {
                Turn::Again(next) => rest = next,
                Turn::Last(end) => return Ok(end),
            }
        }
        Ok(rest)
    }

    #[tactic(auto, unfolding(crate::specs::Reasons::message))]
    fn message(&self, s: &'s [u8]) -> Result<&'s [u8], Stop<'s>>
        requires { GivesLevel F.pre F.post self.now.depth self.now.enclosed }
        ensures { Passes result (spec.message (level self.now.depth) s.now) }
    {
        let start = name_of_value(s)?;
        let end = self.attributes(self.pattern(start)?)?;
        some_since(start, end, Expected::ValueOrAttributes)
    }

    /// A term, of which the dash was seen.
    #[tactic(auto, unfolding(crate::specs::Reasons::term))]
    fn term(&self, s: &'s [u8]) -> Result<&'s [u8], Stop<'s>>
        requires { GivesLevel F.pre F.post self.now.depth self.now.enclosed }
        ensures { Passes result (spec.term (level self.now.depth) s.now) }
    {
        let start = name_of_value(over(s))?;
        self.attributes(self.value(start, Expected::TermValue)?)
    }

    /// What begins no entry. It may be an attribute or a placeable that the entry before could not go on with.
    #[tactic(auto, unfolding(crate::specs::Reasons::misplaced))]
    fn misplaced(&self, s: &'s [u8]) -> Result<&'s [u8], Stop<'s>>
        requires { GivesLevel F.pre F.post self.now.depth self.now.enclosed }
        ensures { Passes result (spec.misplaced (level self.now.depth) s.now) }
    {
        let part = after_spaces(s);
        let byte = byte_at(part, 0);
        if byte == b'.' {
            self.attribute(part)?;
        } else if byte == b'{' {
            self.enclosed(part)?;
        }
        Err(Stop::At(s, Expected::EntryStart))
    }

    #[tactic(auto, unfolding(crate::specs::Reasons::entry))]
    fn entry(&self, s: &'s [u8]) -> Result<&'s [u8], Stop<'s>>
        requires { GivesLevel F.pre F.post self.now.depth self.now.enclosed }
        ensures { Passes result (spec.entry (level self.now.depth) s.now) }
    {
        let byte = byte_at(s, 0);
        if byte.is_ascii_alphabetic() {
            return self.message(s);
        }
        if byte == b'-' {
            return self.term(s);
        }
        self.misplaced(s)
    }
}

/// Reads an entry.
fn read_entry<'s>(alloc: Global, s: &'s [u8]) -> Result<&'s [u8], Stop<'s>>
    ensures { Passes result (spec.entry (level 100) s.now) }
{
    Inner {
        alloc,
        depth: DEPTH,
        enclosed,
    }
    .entry(s)
}

/// Why no entry can be read where Junk of a source begins: at which byte from there on reading stopped, and what was
/// expected at that byte.
///
/// # Errors
///
/// An allocation failed.
#[tactic(auto, unfolding(crate::specs::Reasons::reason))]
pub fn reason_of(alloc: Global, source: &str, start: usize) -> Result<Reason, AllocError>
    ensures is { IfOk result (λ r. r ≡ reason (drop start source.now)) }
    ensures within { IfOk result (λ r. r.offset ≤ length (drop start source.now)) }
{
    let bytes = source.as_bytes();
    let s = &bytes[start.min(bytes.len())..];
    match read_entry(alloc, s) {
        Ok(_) => Ok(Reason {
            offset: 0,
            expected: Expected::EntryStart,
        }),
        Err(Stop::At(rest, expected)) => Ok(Reason {
            offset: s.len().saturating_sub(rest.len()),
            expected,
        }),
        Err(Stop::Memory) => Err(AllocError),
    }
}

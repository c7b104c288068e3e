//! Placeables and argument lists, to a depth.
ghost use Rattle.std.specs.Prelude.{◌≡◌};
ghost use Rattle.fluent_reasons.specs.Reasons as spec;
ghost use Rattle.fluent_reasons.specs.Reasons.{level};
ghost use Rattle.fluent_reasons.specs.ReasonRead.{Passes};
ghost use Rattle.fluent_reasons.specs.ReasonLevel.{GivesLevel};

use crate::bytes::{byte_at, eat, over};
use crate::expected::Expected;
use crate::inner::Inner;
use crate::kind::Kind;
use crate::select::without;
use crate::spaces::after_blank;
use crate::stop::Stop;
use std::alloc::Global;

fn placeable_fault(kind: Kind) -> Option<Expected>
    ensures { result ≡ spec.placeable_fault kind }
{
    match kind {
        Kind::TermAttribute => Some(Expected::NoAttributePlaceable),
        Kind::Message => None,
        Kind::MessageAttribute => None,
        Kind::Term => None,
        Kind::Placeable => None,
        Kind::Literal => None,
        Kind::Variable => None,
        Kind::Function => None,
    }
}

impl<'s, F: Fn(Global, &'s [u8], usize) -> Result<&'s [u8], Stop<'s>>> Inner<F> {
    /// A select or another expression.
    #[tactic(auto, unfolding(crate::specs::Reasons::expression))]
    fn expression(&self, s: &'s [u8]) -> Result<&'s [u8], Stop<'s>>
        requires { GivesLevel F.pre F.post self.now.depth self.now.enclosed }
        ensures { Passes result (spec.expression (level self.now.depth) s.now) }
    {
        let (kind, after) = self.inline_expression(s)?;
        let rest = after_blank(after);
        if byte_at(rest, 0) == b'-' && byte_at(rest, 1) == b'>' {
            return self.select(s, kind, rest);
        }
        without(s, rest, placeable_fault(kind))
    }

    /// A placeable, of which the brace was seen.
    #[tactic(auto, unfolding(crate::specs::Reasons::placeable))]
    fn placeable(&self, s: &'s [u8]) -> Result<&'s [u8], Stop<'s>>
        requires { GivesLevel F.pre F.post self.now.depth self.now.enclosed }
        ensures { Passes result (spec.placeable (level self.now.depth) s.now) }
    {
        let end = after_blank(self.expression(after_blank(over(s)))?);
        eat(end, b'}').ok_or(Stop::At(end, Expected::ClosingBrace))
    }

    /// A placeable, else an argument list.
    fn braced(&self, s: &'s [u8]) -> Result<&'s [u8], Stop<'s>>
        requires { GivesLevel F.pre F.post self.now.depth self.now.enclosed }
        ensures { Passes result (spec.braced (level self.now.depth) s.now) }
    {
        if byte_at(s, 0) == b'{' {
            self.placeable(s)
        } else {
            self.call_arguments(s)
        }
    }
}

/// What stands in braces or in an argument list, with no more than `depth` of them in one another.
#[tactic(auto, unfolding(crate::specs::Reasons::level))]
pub fn enclosed<'s>(alloc: Global, s: &'s [u8], depth: usize) -> Result<&'s [u8], Stop<'s>>
    ensures { Passes result (level depth s.now) }
{
    if depth == 0 {
        return Err(Stop::At(s, Expected::FewerLevels));
    }
    Inner {
        alloc,
        depth: depth - 1,
        enclosed,
    }
    .braced(s)
}

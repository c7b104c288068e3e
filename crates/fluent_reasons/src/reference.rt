//! Expressions that are no select.
ghost use Rattle.std.specs.Prelude.{◌≡◌};
ghost use Rattle.fluent_reasons.specs.Reasons as spec;
ghost use Rattle.fluent_reasons.specs.Reasons.{level};
ghost use Rattle.fluent_reasons.specs.ReasonRead.{Gives, Passes};
ghost use Rattle.fluent_reasons.specs.ReasonLevel.{GivesLevel};

use crate::bytes::{byte_at, over};
use crate::expected::Expected;
use crate::inner::Inner;
use crate::kind::Kind;
use crate::literal::{
    attributed, begins_number, identifier, is_function_name, name_at, number, string,
};
use crate::spaces::after_blank;
use crate::stop::Stop;
use std::alloc::Global;

impl<'s, F: Fn(Global, &'s [u8], usize) -> Result<&'s [u8], Stop<'s>>> Inner<F> {
    /// What stands in braces or in an argument list.
    pub fn enclosed(&self, s: &'s [u8]) -> Result<&'s [u8], Stop<'s>>
        requires { GivesLevel F.pre F.post self.now.depth self.now.enclosed }
        ensures { Passes result (level self.now.depth s.now) }
    {
        (self.enclosed)(self.alloc, s, self.depth)
    }

    /// The arguments of a function whose name begins at `start`.
    #[tactic(auto, unfolding(crate::specs::Reasons::called))]
    fn called(&self, start: &'s [u8], s: &'s [u8]) -> Result<(Kind, &'s [u8]), Stop<'s>>
        requires { GivesLevel F.pre F.post self.now.depth self.now.enclosed }
        ensures { Gives (λ k. k) result (spec.called (level self.now.depth) start.now s.now) }
    {
        if !is_function_name(name_at(start)) {
            return Err(Stop::At(start, Expected::FunctionName));
        }
        let rest = self.enclosed(after_blank(s))?;
        Ok((Kind::Function, rest))
    }

    /// A message or a function.
    #[tactic(auto, unfolding(crate::specs::Reasons::reference))]
    fn reference(&self, s: &'s [u8]) -> Result<(Kind, &'s [u8]), Stop<'s>>
        requires { GivesLevel F.pre F.post self.now.depth self.now.enclosed }
        ensures { Gives (λ k. k) result (spec.reference (level self.now.depth) s.now) }
    {
        let rest = identifier(s)?;
        if byte_at(after_blank(rest), 0) == b'(' {
            return self.called(s, rest);
        }
        attributed(rest, Kind::Message, Kind::MessageAttribute)
    }

    /// A term, of which the dash was seen.
    #[tactic(auto, unfolding(crate::specs::Reasons::term_reference))]
    fn term_reference(&self, s: &'s [u8]) -> Result<(Kind, &'s [u8]), Stop<'s>>
        requires { GivesLevel F.pre F.post self.now.depth self.now.enclosed }
        ensures { Gives (λ k. k) result (spec.term_reference (level self.now.depth) s.now) }
    {
        let name = identifier(over(s))?;
        let (kind, rest) = attributed(name, Kind::Term, Kind::TermAttribute)?;
        let opened = after_blank(rest);
        if byte_at(opened, 0) != b'(' {
            return Ok((kind, rest));
        }
        let end = self.enclosed(opened)?;
        Ok((kind, end))
    }

    /// A variable, a term, a message or a function.
    #[tactic(auto, unfolding(crate::specs::Reasons::any_reference))]
    fn any_reference(&self, s: &'s [u8]) -> Result<(Kind, &'s [u8]), Stop<'s>>
        requires { GivesLevel F.pre F.post self.now.depth self.now.enclosed }
        ensures { Gives (λ k. k) result (spec.any_reference (level self.now.depth) s.now) }
    {
        let byte = byte_at(s, 0);
        if byte == b'$' {
            let rest = identifier(over(s))?;
            return Ok((Kind::Variable, rest));
        }
        if byte == b'-' {
            return self.term_reference(s);
        }
        if byte.is_ascii_alphabetic() {
            return self.reference(s);
        }
        Err(Stop::At(s, Expected::Expression))
    }

    /// An expression that is no select.
    #[tactic(auto, unfolding(crate::specs::Reasons::inline_expression))]
    pub fn inline_expression(&self, s: &'s [u8]) -> Result<(Kind, &'s [u8]), Stop<'s>>
        requires { GivesLevel F.pre F.post self.now.depth self.now.enclosed }
        ensures { Gives (λ k. k) result (spec.inline_expression (level self.now.depth) s.now) }
    {
        let byte = byte_at(s, 0);
        if byte == b'{' {
            let rest = self.enclosed(s)?;
            return Ok((Kind::Placeable, rest));
        }
        if byte == b'"' {
            let rest = string(s)?;
            return Ok((Kind::Literal, rest));
        }
        if begins_number(s) {
            let rest = number(s)?;
            return Ok((Kind::Literal, rest));
        }
        self.any_reference(s)
    }
}

//! The arguments of a call.
ghost use Rattle.std.specs.Prelude.{◌≡◌};
ghost use Rattle.fluent_reasons.specs.Reasons as spec;
ghost use Rattle.fluent_reasons.specs.Reasons.{level};
ghost use Rattle.fluent_reasons.specs.ReasonRead.{Gives, Passes, name_view};
ghost use Rattle.fluent_reasons.specs.ReasonLevel.{GivesLevel};

use crate::bytes::{byte_at, eat, over};
use crate::expected::Expected;
use crate::inner::Inner;
use crate::kind::Kind;
use crate::literal::{literal, name_at};
use crate::spaces::after_blank;
use crate::stop::Stop;
use std::alloc::Global;
use std::collections::BTreeSet;

fn is_message(kind: Kind) -> bool
    ensures { result ≡ spec.is_message kind }
{
    match kind {
        Kind::Message => true,
        Kind::MessageAttribute => false,
        Kind::Term => false,
        Kind::TermAttribute => false,
        Kind::Placeable => false,
        Kind::Literal => false,
        Kind::Variable => false,
        Kind::Function => false,
    }
}

/// The value of an argument whose name begins at `start`, from the colon on, and the name.
#[tactic(auto, unfolding(crate::specs::Reasons::named))]
fn named<'s>(start: &'s [u8], s: &'s [u8]) -> Result<(Option<&'s [u8]>, &'s [u8]), Stop<'s>>
    ensures { Gives name_view result (spec.named start.now s.now) }
{
    let end = literal(after_blank(over(s)))?;
    Ok((Some(name_at(start)), end))
}

impl<'s, F: Fn(Global, &'s [u8], usize) -> Result<&'s [u8], Stop<'s>>> Inner<F> {
    /// An argument, and its name, if it has one.
    #[tactic(auto, unfolding(crate::specs::Reasons::argument))]
    fn argument(
        &self,
        s: &'s [u8],
        after_names: bool,
    ) -> Result<(Option<&'s [u8]>, &'s [u8]), Stop<'s>>
        requires { GivesLevel F.pre F.post self.now.depth self.now.enclosed }
        ensures { Gives name_view result (spec.argument (level self.now.depth) after_names s.now) }
    {
        let (kind, after) = self.inline_expression(s)?;
        let rest = after_blank(after);
        if byte_at(rest, 0) == b':' {
            if is_message(kind) {
                return named(s, rest);
            }
            return Err(Stop::At(s, Expected::ArgumentName));
        }
        if after_names {
            return Err(Stop::At(s, Expected::NoPositional));
        }
        Ok((None, rest))
    }

    /// The arguments, up to the bracket after them.
    #[tactic(auto, using(crate::proofs::ArgumentTurns::list_turns))]
    fn argument_list(&self, s: &'s [u8]) -> Result<&'s [u8], Stop<'s>>
        requires { GivesLevel F.pre F.post self.now.depth self.now.enclosed }
        ensures { Passes result (spec.argument_list (level self.now.depth) s.now) }
    {
        let mut names = BTreeSet::new(self.alloc);
        let mut named = false;
        let mut rest = s;
        'arguments: for _turn in 0..s.len() {
            if byte_at(rest, 0) == b')' {
                return Ok(rest);
            }
            let (name, after) = self.argument(rest, named)?;
            if let Some(name) = name {
                if !names.insert(name)? {
                    return Err(Stop::At(rest, Expected::NewName));
                }
                named = true;
            }
            let end = after_blank(after);
            if byte_at(end, 0) != b',' {
                return Ok(end);
            }
            rest = after_blank(over(end));
        }
        Ok(rest)
    }

    /// An argument list, of which the bracket was seen.
    #[tactic(auto, unfolding(crate::specs::Reasons::call_arguments))]
    pub fn call_arguments(&self, s: &'s [u8]) -> Result<&'s [u8], Stop<'s>>
        requires { GivesLevel F.pre F.post self.now.depth self.now.enclosed }
        ensures { Passes result (spec.call_arguments (level self.now.depth) s.now) }
    {
        let end = self.argument_list(after_blank(over(s)))?;
        eat(end, b')').ok_or(Stop::At(end, Expected::ClosingParenthesis))
    }
}

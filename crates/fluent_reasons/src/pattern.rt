//! Patterns.
ghost use Rattle.std.specs.Prelude.{◌≡◌};
ghost use Rattle.fluent_reasons.specs.Reasons as spec;
ghost use Rattle.fluent_reasons.specs.Reasons.{level};
ghost use Rattle.fluent_reasons.specs.Stopping.{some_since};
ghost use Rattle.fluent_reasons.specs.ReasonRead.{Passes, GivesTurn};
ghost use Rattle.fluent_reasons.specs.ReasonLevel.{GivesLevel};

use crate::bytes::{Class, byte_at, run_len};
use crate::expected::Expected;
use crate::inner::Inner;
use crate::spaces::{after_blank_block, after_spaces};
use crate::stop::{Stop, Turn};
use std::alloc::Global;

/// Whether a line goes on with the pattern above it; `text` stands after its spaces.
fn goes_on(line: &[u8], text: &[u8]) -> bool
    ensures { result ≡ spec.goes_on line.now text.now }
{
    let byte = byte_at(text, 0);
    if byte == b'{' {
        return true;
    }
    let closes = byte == b'[' || byte == b'*' || byte == b'.' || byte == b'}';
    byte_at(line, 0) == b' ' && !text.is_empty() && !closes
}

/// From the end of a line to where the pattern goes on below, if it does.
#[tactic(auto, unfolding(crate::specs::Reasons::next_line))]
fn next_line<'s>(s: &'s [u8]) -> Result<Turn<'s>, Stop<'s>>
    ensures { GivesTurn result (spec.next_line s.now) }
{
    let line = after_blank_block(s);
    let text = after_spaces(line);
    if goes_on(line, text) {
        Ok(Turn::Again(text))
    } else {
        Ok(Turn::Last(s))
    }
}

/// Something was read between two texts, or this was expected at the first.
pub fn some_since<'s>(
    start: &'s [u8],
    end: &'s [u8],
    expected: Expected,
) -> Result<&'s [u8], Stop<'s>>
    ensures { Passes result (some_since start.now expected end.now) }
{
    if end.len() == start.len() {
        Err(Stop::At(start, expected))
    } else {
        Ok(end)
    }
}

impl<'s, F: Fn(Global, &'s [u8], usize) -> Result<&'s [u8], Stop<'s>>> Inner<F> {
    /// A text or a placeable, if one is there.
    #[tactic(auto, unfolding(crate::specs::Reasons::element))]
    fn element(&self, s: &'s [u8]) -> Result<Turn<'s>, Stop<'s>>
        requires { GivesLevel F.pre F.post self.now.depth self.now.enclosed }
        ensures { GivesTurn result (spec.element (level self.now.depth) s.now) }
    {
        let len = run_len(s, Class::Text);
        if len != 0 {
            return Ok(Turn::Again(&s[len..]));
        }
        match byte_at(s, 0) {
            b'{' => {
                let rest = (self.enclosed)(self.alloc, s, self.depth)?;
                Ok(Turn::Again(rest))
            }
            b'}' => Err(Stop::At(s, Expected::NoClosingBrace)),
            _ => next_line(s),
        }
    }

    /// Texts and placeables, maybe none.
    #[tactic(auto, using(crate::proofs::Turns::turns_of))]
    pub fn pattern(&self, s: &'s [u8]) -> Result<&'s [u8], Stop<'s>>
        requires { GivesLevel F.pre F.post self.now.depth self.now.enclosed }
        ensures { Passes result (spec.pattern (level self.now.depth) s.now) }
    {
        let mut rest = s;
        'elements: for _turn in 0..s.len() {
            let turn = self.element(rest)?;
            match turn {
                Turn::Again(next) => rest = next,
                Turn::Last(end) => return Ok(end),
            }
        }
        Ok(rest)
    }

    /// A pattern, or this was expected.
    #[tactic(auto, unfolding(crate::specs::Reasons::value))]
    pub fn value(&self, s: &'s [u8], expected: Expected) -> Result<&'s [u8], Stop<'s>>
        requires { GivesLevel F.pre F.post self.now.depth self.now.enclosed }
        ensures { Passes result (spec.value (level self.now.depth) expected s.now) }
    {
        let end = self.pattern(s)?;
        some_since(s, end, expected)
    }
}

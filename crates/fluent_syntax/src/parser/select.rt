//! Selects: keys, variants and lists of them.
ghost use Rattle.std.specs.Prelude.{◌≡◌, false};
ghost use Rattle.fluent_syntax.specs.Expressions as spec;
ghost use Rattle.fluent_syntax.specs.Expressions.{level, variant};
ghost use Rattle.fluent_syntax.specs.Inside.Parts as parts;
ghost use Rattle.fluent_text.specs.Reading.{found, passed};
ghost use Rattle.fluent_syntax.specs.Inside.Reading.{Gives, GivesMore, all};
ghost use Rattle.fluent_syntax.specs.Inside.Nests.{GivesBraces};
ghost use Rattle.fluent_syntax.specs.Inside.Pushing.{Pushes};
ghost use Rattle.fluent_ast.specs.View.{key_view, inline_view, variant_view};

use crate::parser::bytes::eat;
use crate::parser::inner::Inner;
use crate::parser::lines::{after_blank, after_indent, after_spaces, identifier, line_end};
use crate::parser::list::push;
use crate::parser::literal::number_literal;
use crate::parser::pattern::pattern;
use crate::parser::stop::Stop;
use fluent_ast::ast::{CallArguments, Expression, InlineExpression, Variant, VariantKey};
use std::alloc::Global;

/// Whether an expression may select a variant.
pub fn is_selector(x: &InlineExpression) -> bool
    ensures { result ≡ spec.is_selector (inline_view x.now) }
{
    match x {
        InlineExpression::StringLiteral { .. } => true,
        InlineExpression::NumberLiteral { .. } => true,
        InlineExpression::FunctionReference { .. } => true,
        InlineExpression::VariableReference { .. } => true,
        InlineExpression::TermReference { attribute, .. } => attribute.is_some(),
        InlineExpression::MessageReference { .. } => false,
        InlineExpression::Placeable { .. } => false,
    }
}

#[tactic(auto, unfolding(crate::specs::Expressions::arrow))]
pub fn arrow(s: &str) -> Option<&str>
    ensures { passed result ≡ spec.arrow s.now }
{
    let rest = eat(eat(after_blank(s), b'-')?, b'>')?;
    Some(after_spaces(rest))
}

/// A name, which most keys are and no number begins as, or a number.
fn key_inside<'s>(s: &'s str) -> Option<(VariantKey<'s>, &'s str)>
    ensures { found key_view result ≡ spec.key_inside s.now }
{
    if let Some((id, rest)) = identifier(s) {
        return Some((VariantKey::Identifier { name: id.name }, rest));
    }
    let (value, rest) = number_literal(s)?;
    Some((VariantKey::NumberLiteral { value }, rest))
}

/// What follows the bracket that opens a key.
#[inline(always)]
fn key_opened(s: &str, default: bool) -> Option<&str>
    ensures { passed result ≡ parts.key_opened default s.now }
{
    let rest = after_indent(line_end(s)?);
    let rest = if default { eat(rest, b'*')? } else { rest };
    eat(rest, b'[')
}

/// The key after its bracket, up to the pattern.
fn key_closed<'s>(s: &'s str) -> Option<(VariantKey<'s>, &'s str)>
    ensures { found key_view result ≡ parts.key_closed s.now }
{
    let (key, rest) = key_inside(after_blank(s))?;
    let rest = eat(after_blank(rest), b']')?;
    Some((key, after_spaces(rest)))
}

impl<
    's,
    F: Fn(Global, &'s str, usize) -> Result<(Expression<'s>, &'s str), Stop>,
    G: Fn(Global, &'s str, usize) -> Result<(CallArguments<'s>, &'s str), Stop>,
> Inner<F, G> {
    /// Reads a variant and adds it.
    #[inline(always)]
    fn push_variant(
        &self,
        s: &'s str,
        default: bool,
        found: &mut Vec<Variant<'s>>,
    ) -> Result<&'s str, Stop>
        requires braces { GivesBraces F.pre F.post self.now.depth self.now.braces }
        ensures { Pushes variant_view result found.old found.new
            (variant (level self.now.depth) default s.now) }
    {
        let Some(opened) = key_opened(s, default) else {
            return Err(Stop::Absent);
        };
        self.push_opened(opened, default, found)
    }

    /// Reads a variant after the bracket of its key, and adds it.
    #[inline(never)]
    fn push_opened(
        &self,
        s: &'s str,
        default: bool,
        found: &mut Vec<Variant<'s>>,
    ) -> Result<&'s str, Stop>
        requires braces { GivesBraces F.pre F.post self.now.depth self.now.braces }
        ensures { Pushes variant_view result found.old found.new
            (parts.opened_variant (level self.now.depth) default s.now) }
    {
        let Some((key, rest)) = key_closed(s) else {
            return Err(Stop::Absent);
        };
        match pattern(self.alloc, rest, self.depth, &self.braces) {
            Ok((value, end)) => {
                let variant = Variant {
                    key,
                    value,
                    default,
                };
                push(found, variant)?;
                Ok(end)
            }
            Err(stop) => Err(stop),
        }
    }

    /// Variants in order, of which exactly one is the default.
    #[inline(never)]
    #[tactic(auto, unfolding(crate::specs::Expressions::variant_list))]
    pub fn variant_list(&self, s: &'s str) -> Result<(Vec<Variant<'s>>, &'s str), Stop>
        requires braces { GivesBraces F.pre F.post self.now.depth self.now.braces }
        ensures { Gives (all variant_view) result (spec.variant_list
            (level self.now.depth) s.now) }
    {
        let (mut found, rest) = self.variants(s, Vec::new(self.alloc))?;
        let rest = self.push_variant(rest, true, &mut found)?;
        let (all, rest) = self.variants(rest, found)?;
        let rest = line_end(rest).ok_or(Stop::Absent)?;
        Ok((all, rest))
    }

    /// Adds the variants that come next, none of which is the default.
    #[tactic(auto, using(fluent_text::specs::Facts::Turns::turns))]
    fn variants(
        &self,
        s: &'s str,
        mut found: Vec<Variant<'s>>,
    ) -> Result<(Vec<Variant<'s>>, &'s str), Stop>
        requires braces { GivesBraces F.pre F.post self.now.depth self.now.braces }
        ensures { GivesMore variant_view result found.entry (variant (level self.now.depth) false) s.now }
    {
        let mut rest = s;
        'variants: for _turn in 0..s.len() {
            match self.push_variant(rest, false, &mut found) {
                Ok(after) => rest = after,
                Err(Stop::Absent) => return Ok((found, rest)),
                Err(Stop::Memory) => return Err(Stop::Memory),
            }
        }
        Ok((found, rest))
    }
}

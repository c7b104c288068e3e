//! References to messages, terms and functions, and the expressions that are no select.
ghost use Rattle.std.specs.Prelude.{◌≡◌, Some};
ghost use Rattle.fluent_syntax.specs.Expressions as spec;
ghost use Rattle.fluent_syntax.specs.Expressions.{level};
ghost use Rattle.fluent_syntax.specs.Inside.Parts as parts;
ghost use Rattle.fluent_text.specs.Reading.{found};
ghost use Rattle.fluent_syntax.specs.Inside.Reading.{Gives};
ghost use Rattle.fluent_syntax.specs.Inside.Nests.{GivesBraces, GivesBrackets};
ghost use Rattle.fluent_ast.specs.View.{name_view, inline_view, attribute_of, call_view};

use crate::parser::bytes::{Class, byte_at, eat, run_len};
use crate::parser::inner::Inner;
use crate::parser::lines::{identifier, variable_reference};
use crate::parser::literal::{number_literal, string_literal};
use crate::parser::stop::Stop;
use fluent_ast::ast::{CallArguments, Expression, Identifier, InlineExpression};
use std::alloc::Global;

/// A string or a number.
#[inline(always)]
#[tactic(auto, unfolding(crate::specs::Expressions::literal))]
pub fn literal<'s>(s: &'s str) -> Option<(InlineExpression<'s>, &'s str)>
    ensures { found inline_view result ≡ spec.literal s.now }
{
    if let Some((value, rest)) = string_literal(s) {
        return Some((InlineExpression::StringLiteral { value }, rest));
    }
    let (value, rest) = number_literal(s)?;
    Some((InlineExpression::NumberLiteral { value }, rest))
}

#[inline(always)]
#[tactic(auto, unfolding(crate::specs::Expressions::attribute_access))]
pub fn attribute_access<'s>(s: &'s str) -> (Option<Identifier<'s>>, &'s str)
    ensures { spec.attribute_access s.now ≡ Some (attribute_of result.0, result.1.now) }
{
    if let Some(name) = eat(s, b'.')
        && let Some((id, rest)) = identifier(name)
    {
        return (Some(id), rest);
    }
    (None, s)
}

/// The message whose name was read.
#[inline(always)]
fn message_reference<'s>(id: Identifier<'s>, s: &'s str) -> (InlineExpression<'s>, &'s str)
    ensures { parts.message_to (name_view id.entry) s.now
        ≡ Some (inline_view result.0, result.1.now) }
{
    let (attribute, rest) = attribute_access(s);
    (InlineExpression::MessageReference { id, attribute }, rest)
}

/// In upper case: capital letters, digits, `_` and `-`, a letter first.
#[inline(always)]
pub fn is_function_name(name: &str) -> bool
    ensures { result ≡ spec.is_function_name name.now }
{
    byte_at(name, 0).is_ascii_uppercase() && run_len(name, Class::Function) == name.len()
}

impl<
    's,
    F: Fn(Global, &'s str, usize) -> Result<(Expression<'s>, &'s str), Stop>,
    G: Fn(Global, &'s str, usize) -> Result<(CallArguments<'s>, &'s str), Stop>,
> Inner<F, G> {
    /// What a name refers to that was read: a function before its arguments, else a message.
    #[inline(never)]
    fn reference(
        &self,
        id: Identifier<'s>,
        s: &'s str,
    ) -> Result<(InlineExpression<'s>, &'s str), Stop>
        requires brackets { GivesBrackets G.pre G.post self.now.depth self.now.brackets }
        ensures { Gives inline_view result
            (parts.reference_to (level self.now.depth) (name_view id.entry) s.now) }
    {
        if !is_function_name(id.name) {
            return Ok(message_reference(id, s));
        }
        match (self.brackets)(self.alloc, s, self.depth) {
            Ok((arguments, rest)) => {
                let arguments = Box::new(self.alloc, arguments)?;
                Ok((InlineExpression::FunctionReference { id, arguments }, rest))
            }
            Err(Stop::Memory) => Err(Stop::Memory),
            Err(Stop::Absent) => Ok(message_reference(id, s)),
        }
    }

    #[inline(always)]
    #[tactic(auto, unfolding(crate::specs::Expressions::optional_call))]
    fn optional_call(&self, s: &'s str) -> Result<(Option<Box<CallArguments<'s>>>, &'s str), Stop>
        requires brackets { GivesBrackets G.pre G.post self.now.depth self.now.brackets }
        ensures { Gives call_view result (spec.optional_call (level self.now.depth) s.now) }
    {
        match (self.brackets)(self.alloc, s, self.depth) {
            Ok((arguments, rest)) => Ok((Some(Box::new(self.alloc, arguments)?), rest)),
            Err(Stop::Absent) => Ok((None, s)),
            Err(Stop::Memory) => Err(Stop::Memory),
        }
    }

    #[inline(always)]
    #[tactic(auto, unfolding(crate::specs::Expressions::term_reference))]
    fn term_reference(&self, s: &'s str) -> Result<(InlineExpression<'s>, &'s str), Stop>
        requires brackets { GivesBrackets G.pre G.post self.now.depth self.now.brackets }
        ensures { Gives inline_view result (spec.term_reference (level self.now.depth) s.now) }
    {
        let name = eat(s, b'-').ok_or(Stop::Absent)?;
        let (id, rest) = identifier(name).ok_or(Stop::Absent)?;
        let (attribute, rest) = attribute_access(rest);
        let (arguments, rest) = self.optional_call(rest)?;
        Ok((
            InlineExpression::TermReference {
                id,
                attribute,
                arguments,
            },
            rest,
        ))
    }

    /// An expression that is no select, told by how it begins: as a variable, which most are, with a name, or neither.
    #[inline(always)]
    #[tactic(auto, using(crate::proofs::Arguments::inline_kinds))]
    pub fn inline_expression(&self, s: &'s str) -> Result<(InlineExpression<'s>, &'s str), Stop>
        requires braces { GivesBraces F.pre F.post self.now.depth self.now.braces }
        requires brackets { GivesBrackets G.pre G.post self.now.depth self.now.brackets }
        ensures { Gives inline_view result (spec.inline_expression
            (level self.now.depth) s.now) }
    {
        if let Some((x, rest)) = variable_reference(s) {
            return Ok((x, rest));
        }
        if let Some((id, rest)) = identifier(s) {
            return self.reference(id, rest);
        }
        self.nameless_expression(s)
    }

    /// A literal, a term or a placeable.
    #[inline(never)]
    fn nameless_expression(&self, s: &'s str) -> Result<(InlineExpression<'s>, &'s str), Stop>
        requires braces { GivesBraces F.pre F.post self.now.depth self.now.braces }
        requires brackets { GivesBrackets G.pre G.post self.now.depth self.now.brackets }
        ensures { Gives inline_view result (parts.nameless (level self.now.depth) s.now) }
    {
        if let Some((x, rest)) = literal(s) {
            return Ok((x, rest));
        }
        match self.term_reference(s) {
            Ok((x, rest)) => return Ok((x, rest)),
            Err(Stop::Memory) => return Err(Stop::Memory),
            Err(Stop::Absent) => {}
        }
        let (inner, rest) = (self.braces)(self.alloc, s, self.depth)?;
        let expression = Box::new(self.alloc, inner)?;
        Ok((InlineExpression::Placeable { expression }, rest))
    }
}

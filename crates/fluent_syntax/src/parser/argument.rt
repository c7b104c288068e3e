//! The arguments of a call.
ghost use Rattle.std.specs.Prelude.{◌≡◌, map, OnOk, IfOk};
ghost use Rattle.fluent_syntax.specs.Expressions as spec;
ghost use Rattle.fluent_syntax.specs.Expressions.{level};
ghost use Rattle.fluent_text.specs.Reading.{found, passed};
ghost use Rattle.fluent_syntax.specs.Inside.Reading.{Gives};
ghost use Rattle.fluent_syntax.specs.Inside.Gathering.{argument_view, gathered_view, positional_argument, value_argument, call_argument, message_argument, reference_argument, Adds, Gathers, GathersNamed};
ghost use Rattle.fluent_syntax.specs.Inside.Nests.{GivesBraces, GivesBrackets};
ghost use Rattle.fluent_ast.specs.View.{named_view, name_view, arguments_view};

use crate::parser::bytes::{byte_at, eat};
use crate::parser::inner::Inner;
use crate::parser::lines::{after_blank, identifier};
use crate::parser::list::push;
use crate::parser::reference::{attribute_access, is_function_name, literal};
use crate::parser::stop::Stop;
use fluent_ast::ast::{CallArguments, Expression, Identifier, InlineExpression, NamedArgument};
use std::alloc::{AllocError, Global};
use std::collections::BTreeSet;

#[derive(Drop)]
pub enum Argument<'s> {
    Positional(InlineExpression<'s>),
    Named(NamedArgument<'s>),
}

/// The arguments that were read.
#[derive(Drop)]
pub struct Gathered<'s> {
    pub positional: Vec<InlineExpression<'s>>,
    pub named: Vec<NamedArgument<'s>>,
    /// No positional argument followed a named one.
    pub ordered: bool,
}

impl<'s> Gathered<'s> {
    #[inline(always)]
    fn add(&mut self, argument: Argument<'s>) -> Result<(), AllocError>
        ensures { OnOk result (Adds self.old self.new (argument_view argument.entry)) }
    {
        match argument {
            Argument::Positional(x) => {
                self.ordered = self.ordered && self.named.is_empty();
                push(&mut self.positional, x)?;
            }
            Argument::Named(n) => push(&mut self.named, n)?,
        }
        Ok(())
    }
}

#[inline(always)]
#[tactic(auto, unfolding(crate::specs::Expressions::comma))]
fn comma(s: &str) -> Option<&str>
    ensures { passed result ≡ spec.comma s.now }
{
    let rest = eat(after_blank(s), b',')?;
    Some(after_blank(rest))
}

/// Reads the value of an argument whose name and colon were read, and adds the argument.
#[inline(never)]
fn push_named<'s>(
    name: Identifier<'s>,
    s: &'s str,
    found: &mut Gathered<'s>,
) -> Result<&'s str, Stop>
    ensures { Gathers result found.old found.new
        (value_argument (name_view name.entry) s.now) }
{
    let Some((value, end)) = literal(s) else {
        return Err(Stop::Absent);
    };
    found.add(Argument::Named(NamedArgument { name, value }))?;
    Ok(end)
}

/// Reads the attribute after the name of a message, if one is there, and adds the reference.
#[inline(always)]
fn push_message<'s>(
    id: Identifier<'s>,
    s: &'s str,
    found: &mut Gathered<'s>,
) -> Result<&'s str, Stop>
    ensures { Gathers result found.old found.new
        (message_argument (name_view id.entry) s.now) }
{
    let (attribute, end) = attribute_access(s);
    found.add(Argument::Positional(InlineExpression::MessageReference { id, attribute }))?;
    Ok(end)
}

impl<
    's,
    F: Fn(Global, &'s str, usize) -> Result<(Expression<'s>, &'s str), Stop>,
    G: Fn(Global, &'s str, usize) -> Result<(CallArguments<'s>, &'s str), Stop>,
> Inner<F, G> {
    /// Reads an argument and adds it. A name is read once, whether an argument's, a function's or a message's. Before a
    /// comma it is a message's, which needs no room for anything else.
    #[inline(always)]
    fn push_argument(&self, s: &'s str, found: &mut Gathered<'s>) -> Result<&'s str, Stop>
        requires braces { GivesBraces F.pre F.post self.now.depth self.now.braces }
        requires brackets { GivesBrackets G.pre G.post self.now.depth self.now.brackets }
        ensures { Gathers result found.old found.new
            (spec.argument (level self.now.depth) s.now) }
    {
        let Some((id, rest)) = identifier(s) else {
            return self.push_nameless(s, found);
        };
        if byte_at(rest, 0) == b',' {
            found.add(Argument::Positional(InlineExpression::MessageReference {
                id,
                attribute: None,
            }))?;
            return Ok(rest);
        }
        self.push_named_or_reference(id, rest, found)
    }

    /// Reads what follows a name, the name of an argument or of what one refers to, and adds the argument.
    #[inline(never)]
    fn push_named_or_reference(
        &self,
        id: Identifier<'s>,
        rest: &'s str,
        found: &mut Gathered<'s>,
    ) -> Result<&'s str, Stop>
        requires brackets { GivesBrackets G.pre G.post self.now.depth self.now.brackets }
        ensures { GathersNamed (name_view id.entry) rest.now result found.old found.new (spec.argument (level self.now.depth)) }
    {
        let Some(colon) = eat(after_blank(rest), b':') else {
            return self.push_reference(id, rest, found);
        };
        match push_named(id, after_blank(colon), found) {
            Ok(end) => Ok(end),
            Err(Stop::Memory) => Err(Stop::Memory),
            Err(Stop::Absent) => self.push_reference(id, rest, found),
        }
    }

    /// Reads what follows the name of a function or a message, and adds the reference.
    #[inline(always)]
    fn push_reference(
        &self,
        id: Identifier<'s>,
        s: &'s str,
        found: &mut Gathered<'s>,
    ) -> Result<&'s str, Stop>
        requires brackets { GivesBrackets G.pre G.post self.now.depth self.now.brackets }
        ensures { Gathers result found.old found.new
            (reference_argument (level self.now.depth) (name_view id.entry) s.now) }
    {
        if !is_function_name(id.name) {
            return push_message(id, s, found);
        }
        match self.push_call(id, s, found) {
            Ok(end) => Ok(end),
            Err(Stop::Memory) => Err(Stop::Memory),
            Err(Stop::Absent) => push_message(id, s, found),
        }
    }

    /// Reads the arguments of a function whose name was read, and adds the call.
    #[inline(never)]
    fn push_call(
        &self,
        id: Identifier<'s>,
        s: &'s str,
        found: &mut Gathered<'s>,
    ) -> Result<&'s str, Stop>
        requires brackets { GivesBrackets G.pre G.post self.now.depth self.now.brackets }
        ensures { Gathers result found.old found.new
            (call_argument (level self.now.depth) (name_view id.entry) s.now) }
    {
        let (arguments, end) = (self.brackets)(self.alloc, s, self.depth)?;
        let arguments = Box::new(self.alloc, arguments)?;
        found.add(Argument::Positional(InlineExpression::FunctionReference { id, arguments }))?;
        Ok(end)
    }

    /// Reads an argument that begins with no name, and adds it.
    #[inline(never)]
    fn push_nameless(&self, s: &'s str, found: &mut Gathered<'s>) -> Result<&'s str, Stop>
        requires braces { GivesBraces F.pre F.post self.now.depth self.now.braces }
        requires brackets { GivesBrackets G.pre G.post self.now.depth self.now.brackets }
        ensures { Gathers result found.old found.new
            (positional_argument (level self.now.depth) s.now) }
    {
        let (x, rest) = self.inline_expression(s)?;
        found.add(Argument::Positional(x))?;
        Ok(rest)
    }

    /// The arguments and the commas between them. Each argument is read once, whether a comma follows it or not.
    fn argument_list(&self, s: &'s str) -> Result<(Gathered<'s>, &'s str), Stop>
        requires braces { GivesBraces F.pre F.post self.now.depth self.now.braces }
        requires brackets { GivesBrackets G.pre G.post self.now.depth self.now.brackets }
        ensures { Gives gathered_view result (spec.argument_list
            (level self.now.depth) s.now) }
    {
        let mut found = Gathered {
            positional: Vec::new(self.alloc),
            named: Vec::new(self.alloc),
            ordered: true,
        };
        let mut rest = s;
        'arguments: for _turn in 0..s.len() {
            match self.push_argument(rest, &mut found) {
                Ok(after) => {
                    let Some(past) = comma(after) else {
                        return Ok((found, after));
                    };
                    if past.len() >= rest.len() {
                        return Ok((found, after));
                    }
                    rest = past;
                }
                Err(Stop::Absent) => return Ok((found, rest)),
                Err(Stop::Memory) => return Err(Stop::Memory),
            }
        }
        self.last_argument(rest, found)
    }

    /// Adds an argument that may come next.
    #[inline(never)]
    fn last_argument(
        &self,
        s: &'s str,
        mut found: Gathered<'s>,
    ) -> Result<(Gathered<'s>, &'s str), Stop>
        requires braces { GivesBraces F.pre F.post self.now.depth self.now.braces }
        requires brackets { GivesBrackets G.pre G.post self.now.depth self.now.brackets }
        ensures { Gives gathered_view result (spec.last_argument (level self.now.depth)
            (gathered_view found.entry) s.now) }
    {
        match self.push_argument(s, &mut found) {
            Ok(rest) => Ok((found, rest)),
            Err(Stop::Absent) => Ok((found, s)),
            Err(Stop::Memory) => Err(Stop::Memory),
        }
    }

    #[tactic(auto, unfolding(crate::specs::Expressions::call_arguments))]
    pub fn call_arguments(&self, s: &'s str) -> Result<(CallArguments<'s>, &'s str), Stop>
        requires braces { GivesBraces F.pre F.post self.now.depth self.now.braces }
        requires brackets { GivesBrackets G.pre G.post self.now.depth self.now.brackets }
        ensures { Gives arguments_view result (spec.call_arguments
            (level self.now.depth) s.now) }
    {
        let opened = eat(after_blank(s), b'(').ok_or(Stop::Absent)?;
        let (all, rest) = self.argument_list(after_blank(opened))?;
        if !all.ordered || !differ(self.alloc, &all.named)? {
            return Err(Stop::Absent);
        }
        let rest = eat(after_blank(rest), b')').ok_or(Stop::Absent)?;
        Ok((
            CallArguments {
                positional: all.positional,
                named: all.named,
            },
            rest,
        ))
    }
}

fn name_of<'s>(argument: &NamedArgument<'s>) -> &'s str
    ensures { result.now ≡ (named_view argument.now).0 }
{
    argument.name.name
}

/// Whether no two arguments have one name.
fn differ(alloc: Global, named: &[NamedArgument]) -> Result<bool, AllocError>
    ensures { IfOk result (λ yes. yes ≡ spec.differ (spec.names (map named_view named.now))) }
{
    if named.len() < 2 {
        return Ok(true);
    }
    let mut later = BTreeSet::new(alloc);
    let mut at = named.len();
    'names: while 0 < at {
        at -= 1;
        if !later.insert(name_of(&named[at]))? {
            return Ok(false);
        }
    }
    Ok(true)
}

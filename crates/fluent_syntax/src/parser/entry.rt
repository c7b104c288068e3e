//! Messages and terms, with their attributes.
ghost use Rattle.std.specs.Prelude.{◌≡◌};
ghost use Rattle.fluent_syntax.specs.Entries as spec;
ghost use Rattle.fluent_syntax.specs.Inside.Parts as parts;
ghost use Rattle.fluent_text.specs.Reading.{found, passed};
ghost use Rattle.fluent_syntax.specs.Inside.Reading.{Gives, GivesMore};
ghost use Rattle.fluent_syntax.specs.Inside.ContentView.{content_view};
ghost use Rattle.fluent_ast.specs.View.{name_view, pattern_view, attribute_view, entry_view};

use crate::parser::bytes::eat;
use crate::parser::expression::inline_placeable;
use crate::parser::lines::{after_blank, after_spaces, identifier, line_end};
use crate::parser::list::push;
use crate::parser::pattern::pattern;
use crate::parser::stop::Stop;
use fluent_ast::ast::{Attribute, Entry, Identifier, Message, Pattern, Term};
use std::alloc::Global;

/// How many placeables and argument lists of an entry may stand in one another.
const DEPTH: usize = 100;

/// What follows the name of a message.
#[derive(Drop)]
struct Content<'s> {
    value: Option<Pattern<'s>>,
    attributes: Vec<Attribute<'s>>,
}

/// An entry, with the end of its last line.
#[tactic(auto, unfolding(crate::specs::Entries::entry))]
pub fn entry<'s>(alloc: Global, s: &'s str) -> Result<(Entry<'s>, &'s str), Stop>
    ensures { Gives entry_view result (spec.entry s.now) }
{
    match message(alloc, s) {
        Ok((entry, rest)) => {
            let rest = line_end(rest).ok_or(Stop::Absent)?;
            return Ok((entry, rest));
        }
        Err(Stop::Memory) => return Err(Stop::Memory),
        Err(Stop::Absent) => {}
    }
    let (entry, rest) = term(alloc, s)?;
    let rest = line_end(rest).ok_or(Stop::Absent)?;
    Ok((entry, rest))
}

#[tactic(auto, unfolding(crate::specs::Entries::message))]
fn message<'s>(alloc: Global, s: &'s str) -> Result<(Entry<'s>, &'s str), Stop>
    ensures { Gives entry_view result (spec.message s.now) }
{
    let (id, rest) = name_of_value(s).ok_or(Stop::Absent)?;
    match value_first(alloc, rest) {
        Ok((content, rest)) => {
            let Content { value, attributes } = content;
            let message = Message {
                id,
                value,
                attributes,
            };
            return Ok((Entry::Message(message), rest));
        }
        Err(Stop::Memory) => return Err(Stop::Memory),
        Err(Stop::Absent) => {}
    }
    let (content, rest) = attributes_alone(alloc, rest)?;
    let Content { value, attributes } = content;
    let message = Message {
        id,
        value,
        attributes,
    };
    Ok((Entry::Message(message), rest))
}

#[tactic(auto, unfolding(crate::specs::Entries::value_first))]
fn value_first<'s>(alloc: Global, s: &'s str) -> Result<(Content<'s>, &'s str), Stop>
    ensures { Gives content_view result (spec.value_first s.now) }
{
    let (value, rest) = value(alloc, s)?;
    let (attributes, rest) = attributes(alloc, rest, Vec::new(alloc))?;
    let value = Some(value);
    Ok((Content { value, attributes }, rest))
}

#[tactic(auto, unfolding(crate::specs::Entries::attributes_alone))]
fn attributes_alone<'s>(alloc: Global, s: &'s str) -> Result<(Content<'s>, &'s str), Stop>
    ensures { Gives content_view result (spec.attributes_alone s.now) }
{
    let (prefix, rest) = attribute(alloc, s)?;
    let mut found = Vec::new(alloc);
    push(&mut found, prefix)?;
    let (attributes, rest) = attributes(alloc, rest, found)?;
    let value = None;
    Ok((Content { value, attributes }, rest))
}

#[tactic(auto, unfolding(crate::specs::Entries::term))]
fn term<'s>(alloc: Global, s: &'s str) -> Result<(Entry<'s>, &'s str), Stop>
    ensures { Gives entry_view result (spec.term s.now) }
{
    let name = eat(s, b'-').ok_or(Stop::Absent)?;
    let (id, rest) = name_of_value(name).ok_or(Stop::Absent)?;
    let (value, rest) = value(alloc, rest)?;
    let (attributes, rest) = attributes(alloc, rest, Vec::new(alloc))?;
    let term = Term {
        id,
        value,
        attributes,
    };
    Ok((Entry::Term(term), rest))
}

/// Adds the attributes that come next. Most entries have none, which is told at once.
#[inline(always)]
#[tactic(auto, using(crate::proofs::Parts::no_attributes))]
fn attributes<'s>(
    alloc: Global,
    s: &'s str,
    found: Vec<Attribute<'s>>,
) -> Result<(Vec<Attribute<'s>>, &'s str), Stop>
    ensures { GivesMore attribute_view result found.entry spec.attribute s.now }
{
    if attribute_dot(s).is_none() {
        return Ok((found, s));
    }
    more_attributes(alloc, s, found)
}

#[inline(never)]
#[tactic(auto, using(fluent_text::specs::Facts::Turns::turns))]
fn more_attributes<'s>(
    alloc: Global,
    s: &'s str,
    mut found: Vec<Attribute<'s>>,
) -> Result<(Vec<Attribute<'s>>, &'s str), Stop>
    ensures { GivesMore attribute_view result found.entry spec.attribute s.now }
{
    let mut rest = s;
    'attributes: for _turn in 0..s.len() {
        match attribute(alloc, rest) {
            Ok((next, after)) => {
                if after.len() >= rest.len() {
                    return Ok((found, rest));
                }
                push(&mut found, next)?;
                rest = after;
            }
            Err(Stop::Absent) => return Ok((found, rest)),
            Err(Stop::Memory) => return Err(Stop::Memory),
        }
    }
    Ok((found, rest))
}

/// What follows the dot of an attribute.
#[inline(always)]
fn attribute_dot(s: &str) -> Option<&str>
    ensures { passed result ≡ parts.attribute_dot s.now }
{
    eat(after_blank(line_end(s)?), b'.')
}

#[inline(always)]
#[tactic(auto, using(crate::proofs::Parts::attribute_parts))]
fn attribute<'s>(alloc: Global, s: &'s str) -> Result<(Attribute<'s>, &'s str), Stop>
    ensures { Gives attribute_view result (spec.attribute s.now) }
{
    let name = attribute_dot(s).ok_or(Stop::Absent)?;
    named_attribute(alloc, name)
}

/// An attribute after its dot. It stands in a function of its own, since most entries end where an attribute could
/// stand.
#[inline(never)]
fn named_attribute<'s>(alloc: Global, s: &'s str) -> Result<(Attribute<'s>, &'s str), Stop>
    ensures { Gives attribute_view result (parts.named_attribute s.now) }
{
    let (id, rest) = name_of_value(s).ok_or(Stop::Absent)?;
    let (value, rest) = value(alloc, rest)?;
    Ok((Attribute { id, value }, rest))
}

#[inline(always)]
#[tactic(auto, unfolding(crate::specs::Entries::value))]
fn value<'s>(alloc: Global, s: &'s str) -> Result<(Pattern<'s>, &'s str), Stop>
    ensures { Gives pattern_view result (spec.value s.now) }
{
    pattern(alloc, s, DEPTH, &inline_placeable)
}

/// A name, the equals sign after it and the spaces round that.
#[tactic(auto, unfolding(crate::specs::Entries::name_of_value))]
fn name_of_value<'s>(s: &'s str) -> Option<(Identifier<'s>, &'s str)>
    ensures { found name_view result ≡ spec.name_of_value s.now }
{
    let (id, rest) = identifier(s)?;
    let rest = eat(after_spaces(rest), b'=')?;
    Some((id, after_spaces(rest)))
}

//! What references lead to.

ghost use Rattle.std.specs.Prelude.{◌≡◌, ◌∷◌, [], IfSome, IsTrue, Option, drop, map};
ghost use Rattle.fluent_ast.specs.References.{a_function, a_message, a_term};
ghost use Rattle.fluent_ast.specs.View.{attribute_view, pattern_view, value_view as optional_view};
ghost use Rattle.fluent_semantics.specs.Bundle.{Function, value_target, first_of};
ghost use Rattle.fluent_bundle_entries.specs.KeptLinks.{IsLinked};
ghost use Rattle.fluent_bundle_entries.specs.Named.{is_named};
ghost use Rattle.fluent_resolver_state.specs.FoundView.{IsLed, IsLedAmong, IsLedAs, IsMessage, IsNamed, IsStoredAs, IsTerm, content_at, found_view};
ghost use Rattle.fluent_bundle_entries.specs.IdNumbers.{IsNumberOf, IsPlaced, numbers, table};
ghost use Rattle.fluent_resolver_state.specs.StateCalls.{Answers};

use fluent_ast::ast::{Attribute, Identifier, Pattern};
use fluent_bundle_entries::{Entry, Ids, Slot};
use fluent_references::{Cursor, Linked};
use fluent_values::builtins::NUMBER;
use fluent_values::{FluentArgs, FluentFunction, FluentType, FluentValue};
use std::alloc::{AllocError, Global};

/// A pattern that a reference leads to, the class of its content, if it refers to anything, and where it begins.
#[derive(Clone, Copy, Drop)]
pub struct Target<'p, 's> {
    pub pattern: &'p Pattern<'s>,
    pub class: Option<u32>,
    pub cursor: Cursor<'p>,
}

/// What a reference leads to: nothing, a message without a value, or a pattern.
#[derive(Clone, Copy, Drop)]
pub enum Found<'p, 's> {
    Unknown,
    WithoutValue,
    Pattern(Target<'p, 's>),
}

/// What an id names, with what is kept of its patterns; by its number, where that is known.
#[inline(always)]
fn slot_of<'p, 'r, 's, F>(
    ids: &'p Ids<'r, 's, F>,
    id: &str,
    number: Option<u32>,
) -> Option<&'p Slot<'r, 's, F>>
    requires { IsNumberOf ids.now id.now number }
    ensures content { IsNamed ids.now id.now result }
    ensures own { IfSome result (λ s. IsTrue (is_named id.now s.now.entry)) }
    ensures linked { IfSome result (λ s. IsLinked (numbers ids.now) (table ids.now) s.now) }
{
    ids.slot(id, number)
}

/// What a message's id leads to, or its attribute of a name. Takes no memory.
#[inline(always)]
pub fn message<'p, 's, F>(
    ids: &'p Ids<'_, 's, F>,
    id: &str,
    attribute: &Option<Identifier<'_>>,
    cursor: Cursor<'_>,
) -> Found<'p, 's>
    requires { IsPlaced ids.now (a_message id.now ∷ []) cursor }
    ensures content { IsMessage ids.now id.now attribute.now result }
    ensures led { IsLed ids.now result }
{
    let Some(slot) = slot_of(ids, id, cursor.first()) else {
        return Found::Unknown;
    };
    match &slot.entry {
        Entry::Message(message) => match attribute {
            None => value_of(&message.value, slot.value()),
            Some(name) => first_of(&message.attributes, slot.attributes(), name.name),
        },
        _ => Found::Unknown,
    }
}

/// The same by look-up, from outside a pattern.
#[inline(always)]
pub fn by_id<'p, 's, F>(
    ids: &'p Ids<'_, 's, F>,
    id: &str,
    attribute: &Option<Identifier<'_>>,
) -> Found<'p, 's>
    ensures content { IsMessage ids.now id.now attribute.now result }
    ensures led { IsLed ids.now result }
{
    message(ids, id, attribute, Cursor::by_name())
}

/// What a term's id leads to, or its attribute of a name. Takes no memory.
#[inline(always)]
pub fn term<'p, 's, F>(
    ids: &'p Ids<'_, 's, F>,
    id: &str,
    attribute: &Option<Identifier<'_>>,
    cursor: Cursor<'_>,
) -> Found<'p, 's>
    requires { IsPlaced ids.now (a_term id.now ∷ []) cursor }
    ensures content { IsTerm ids.now id.now attribute.now result }
    ensures led { IsLed ids.now result }
{
    let Some(slot) = slot_of(ids, id, cursor.first()) else {
        return Found::Unknown;
    };
    match &slot.entry {
        Entry::Term(term) => match attribute {
            None => Found::Pattern(Target::of(&term.value, slot.value())),
            Some(name) => first_of(&term.attributes, slot.attributes(), name.name),
        },
        _ => Found::Unknown,
    }
}

impl<'p, 's> Target<'p, 's> {
    /// A pattern with what is kept of it. Of one of which nothing is kept, ids are looked up.
    fn of(pattern: &'p Pattern<'s>, linked: Option<&'p Linked>) -> Self
        ensures content { content_at result ≡ pattern_view pattern.now }
        ensures stored { IsStoredAs (pattern_view pattern.now) linked.entry result }
    {
        match linked {
            Some(linked) => Target {
                pattern,
                class: linked.class(),
                cursor: linked.cursor(),
            },
            None => Target {
                pattern,
                class: None,
                cursor: Cursor::by_name(),
            },
        }
    }
}

/// What a function answers; `None` where the id names none.
#[inline(always)]
pub fn answer_of<'a, C: FluentType, F: FluentFunction<C>>(
    ids: &Ids<'_, '_, F>,
    alloc: Global,
    id: &str,
    positional: &[FluentValue<'a, C>],
    arguments: &FluentArgs<'a, C>,
    cursor: Cursor<'_>,
) -> Result<Option<FluentValue<'a, C>>, AllocError>
    requires { IsPlaced ids.now (a_function id.now ∷ []) cursor }
    ensures { Answers F.answer C.content ids.now id.now positional.now arguments.now result }
{
    let Some(slot) = slot_of(ids, id, cursor.first()) else {
        return Ok(None);
    };
    match &slot.entry {
        Entry::Function(function) => Ok(Some(function.call(alloc, positional, arguments)?)),
        Entry::Number => Ok(Some(NUMBER(alloc, positional, arguments)?)),
        _ => Ok(None),
    }
}

/// A message's value, if it has one.
fn value_of<'p, 's>(value: &'p Option<Pattern<'s>>, linked: Option<&'p Linked>) -> Found<'p, 's>
    ensures content { found_view result ≡ value_target (optional_view value.now) }
    ensures led { IsLedAs (optional_view value.now) linked.entry result }
{
    match value {
        None => Found::WithoutValue,
        Some(pattern) => Found::Pattern(Target::of(pattern, linked)),
    }
}

/// The first attribute of a name.
fn first_of<'p, 's>(
    attributes: &'p [Attribute<'s>],
    linked: &'p [Linked],
    name: &str,
) -> Found<'p, 's>
    ensures content { found_view result ≡ first_of name.now (map attribute_view attributes.now) }
    ensures led { IsLedAmong (map (λ a. pattern_view a.value) attributes.now) linked.now result }
{
    let mut kept = linked;
    for attribute in attributes {
        if attribute.id.name == name {
            return Found::Pattern(Target::of(&attribute.value, kept.first()));
        }
        kept = after_first(kept);
    }
    Found::Unknown
}

/// All but the first.
fn after_first(kept: &[Linked]) -> &[Linked]
    ensures { result.now ≡ drop 1 kept.now }
{
    match kept.split_first() {
        Some((_, rest)) => rest,
        None => kept,
    }
}

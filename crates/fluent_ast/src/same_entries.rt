//! Whether two entries have the same content, and two sources.

ghost use Rattle.std.specs.Prelude.{◌≡◌, ◌↔◌, IsTrue, map};
ghost use Rattle.fluent_ast.specs.View.{attribute_view, entry_view, message_view, term_view, value_view};

use crate::ast::{Attribute, Entry, Message, Pattern, Term};
use crate::same::same_pattern;

pub(crate) fn same_entries<'s>(a: &[Entry<'s>], b: &[Entry<'s>]) -> bool
    ensures { IsTrue result ↔ (map entry_view a.now ≡ map entry_view b.now) }
{
    if a.len() != b.len() {
        return false;
    }
    'entries: for i in 0..a.len() {
        if !same_entry(&a[i], &b[i]) {
            return false;
        }
    }
    true
}

pub(crate) fn same_entry<'s>(a: &Entry<'s>, b: &Entry<'s>) -> bool
    ensures { IsTrue result ↔ (entry_view a.now ≡ entry_view b.now) }
{
    match (a, b) {
        (Entry::Message(x), Entry::Message(y)) => same_message(x, y),
        (Entry::Term(x), Entry::Term(y)) => same_term(x, y),
        (Entry::Junk { content: x }, Entry::Junk { content: y }) => *x == *y,
        _ => false,
    }
}

pub(crate) fn same_message<'s>(a: &Message<'s>, b: &Message<'s>) -> bool
    ensures { IsTrue result ↔ (message_view a.now ≡ message_view b.now) }
{
    if a.id.name != b.id.name {
        return false;
    }
    same_value(&a.value, &b.value) && same_attributes(&a.attributes, &b.attributes)
}

pub(crate) fn same_term<'s>(a: &Term<'s>, b: &Term<'s>) -> bool
    ensures { IsTrue result ↔ (term_view a.now ≡ term_view b.now) }
{
    if a.id.name != b.id.name {
        return false;
    }
    same_pattern(&a.value, &b.value) && same_attributes(&a.attributes, &b.attributes)
}

fn same_value<'s>(a: &Option<Pattern<'s>>, b: &Option<Pattern<'s>>) -> bool
    ensures { IsTrue result ↔ (value_view a.now ≡ value_view b.now) }
{
    match (a, b) {
        (None, None) => true,
        (Some(x), Some(y)) => same_pattern(x, y),
        _ => false,
    }
}

fn same_attributes<'s>(a: &[Attribute<'s>], b: &[Attribute<'s>]) -> bool
    ensures { IsTrue result ↔ (map attribute_view a.now ≡ map attribute_view b.now) }
{
    if a.len() != b.len() {
        return false;
    }
    'attributes: for i in 0..a.len() {
        if !same_attribute(&a[i], &b[i]) {
            return false;
        }
    }
    true
}

pub(crate) fn same_attribute<'s>(a: &Attribute<'s>, b: &Attribute<'s>) -> bool
    ensures { IsTrue result ↔ (attribute_view a.now ≡ attribute_view b.now) }
{
    a.id.name == b.id.name && same_pattern(&a.value, &b.value)
}

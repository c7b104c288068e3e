//! Patterns of a bundle, by how they are referred to.

ghost use Rattle.std.specs.Prelude.{◌≡◌, ◌↔◌, IsTrue, map};
ghost use Rattle.fluent_ast.specs.View.{attribute_of, attribute_view};
ghost use Rattle.fluent_semantics.specs.Bundle.{first_of};
ghost use Rattle.fluent_places.specs.PlaceView.{pattern_in, pattern_at, pattern_seen};
ghost use Rattle.fluent_places.specs.Places.{place_view};

use fluent_ast::ast::{Attribute, Identifier, Pattern};
use fluent_bundle_entries::GetEntry;
use std::fmt;
use std::hash::{Hash, Hasher};

/// The value of a message or of a term, or an attribute of it. A term's id stands without the dash. It is shown as it is
/// written in a reference.
#[derive(Clone, Copy, Debug, Drop)]
pub enum Place<'s> {
    Message(Identifier<'s>, Option<Identifier<'s>>),
    Term(Identifier<'s>, Option<Identifier<'s>>),
}

impl<'s> PartialEq for Place<'s> {
    ghost use Rattle.std.specs.Cmp.{partial_equiv_from_equiv};
    ghost use Rattle.fluent_ast.specs.Tree.{is_yes};
    ghost use Rattle.fluent_ast.specs.Same.{equivalent};
    ghost use Rattle.fluent_places.specs.Places.{place_same};

    ghost eq = { λ a b. is_yes (place_same (place_view a) (place_view b)) };

    ghost laws = { partial_equiv_from_equiv (equivalent place_view place_same) };

    #[tactic(auto, using(crate::proofs::Decided::decided))]
    fn eq(&self, other: &Self) -> bool {
        same_place(self, other)
    }
}

impl<'s> Eq for Place<'s> {
    ghost use Rattle.fluent_ast.specs.Same.{equivalent};
    ghost use Rattle.fluent_places.specs.Places.{place_same};

    ghost laws = { equivalent place_view place_same };
}

impl<'s> Hash for Place<'s> {
    ghost use Rattle.fluent_places.specs.PlaceView.{hashed, respects};

    ghost hash_input = { λ a. hashed (place_view a) };

    ghost respects_eq = { respects };

    fn hash<H: Hasher>(&self, state: &mut H) {
        match self {
            Place::Message(id, attribute) | Place::Term(id, attribute) => {
                id.name.hash(state);
                if let Some(name) = attribute {
                    name.name.hash(state);
                }
            }
        }
    }
}

impl fmt::Display for Place<'_> {
    fn fmt<W: fmt::Write>(&self, f: &mut fmt::Formatter<W>) -> fmt::Result {
        let (mark, id, attribute) = match self {
            Place::Message(id, attribute) => ("", id.name, attribute),
            Place::Term(id, attribute) => ("-", id.name, attribute),
        };
        match attribute {
            Some(attribute) => {
                let attribute = attribute.name;
                write!(f, "{mark}{id}.{attribute}")
            }
            None => write!(f, "{mark}{id}"),
        }
    }
}

/// The same place, by content.
pub(crate) fn same_place(a: &Place<'_>, b: &Place<'_>) -> bool
    ensures { IsTrue result ↔ (place_view a.now ≡ place_view b.now) }
{
    match (a, b) {
        (Place::Message(x, p), Place::Message(y, q)) => x.name == y.name && same_attribute(p, q),
        (Place::Term(x, p), Place::Term(y, q)) => x.name == y.name && same_attribute(p, q),
        _ => false,
    }
}

fn same_attribute(a: &Option<Identifier<'_>>, b: &Option<Identifier<'_>>) -> bool
    ensures { IsTrue result ↔ (attribute_of a.now ≡ attribute_of b.now) }
{
    match (a, b) {
        (None, None) => true,
        (Some(x), Some(y)) => x.name == y.name,
        _ => false,
    }
}

/// The pattern that stands there: a message's value, if it has one, a term's value, or the first attribute of the name.
/// `None` where there is none. Takes no memory.
pub fn pattern_at<'b, 's, F, B: GetEntry<'s, F>>(
    bundle: &'b B,
    place: &Place<'s>,
) -> Option<&'b Pattern<'s>>
    ensures { pattern_seen result ≡ pattern_at (B.named bundle.now) place.now }
{
    match place {
        Place::Message(id, attribute) => {
            let message = bundle.get_entry_message(id.name)?;
            match attribute {
                None => message.value.as_ref(),
                Some(name) => attribute_named(&message.attributes, name.name),
            }
        }
        Place::Term(id, attribute) => {
            let term = bundle.get_entry_term(id.name)?;
            match attribute {
                None => Some(&term.value),
                Some(name) => attribute_named(&term.attributes, name.name),
            }
        }
    }
}

/// The first attribute of a name.
fn attribute_named<'b, 's>(attributes: &'b [Attribute<'s>], name: &str) -> Option<&'b Pattern<'s>>
    ensures { pattern_seen result
        ≡ pattern_in (first_of name.now (map attribute_view attributes.now)) }
{
    for attribute in attributes {
        if attribute.id.name == name {
            return Some(&attribute.value);
        }
    }
    None
}

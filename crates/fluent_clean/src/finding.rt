//! What is found wrong.

use fluent_places::Place;
use std::fmt;

/// What is wrong with a value or an attribute. It is shown as a text for people who translate.
#[derive(Drop)]
pub struct Finding<'s> {
    /// The value, or the attribute, of a message or a term.
    pub place: Place<'s>,
    pub kind: Kind<'s>,
}

/// What is wrong with a pattern: each would be an error of a formatting call. `Says` and `SaysOf` (specs/Findings) say when
/// each is true.
#[derive(Drop)]
pub enum Kind<'s> {
    /// It refers to a message that isn't there.
    UnknownMessage { id: &'s str },
    /// It refers to an attribute that a message doesn't have.
    UnknownAttribute { id: &'s str, attribute: &'s str },
    /// It refers to the value of a message that has attributes alone.
    NoValue { id: &'s str },
    /// It refers to a term that isn't there. The id stands without the dash.
    UnknownTerm { id: &'s str },
    /// It refers to an attribute that a term doesn't have.
    UnknownTermAttribute { id: &'s str, attribute: &'s str },
    /// It calls a function that isn't there.
    UnknownFunction { id: &'s str },
    /// A select has no default variant. No source is read as one.
    NoDefault,
    /// It refers to a pattern that has a finding itself, and not for its placeables alone.
    LeadsTo { place: Place<'s> },
    /// It refers to a pattern of the bundle that stands in none of the resources.
    Elsewhere { place: Place<'s> },
    /// It is on a cycle: these refer each to the next, the last to the first, and it is the first.
    Cycle { places: Vec<Place<'s>> },
    /// It opens more placeables than the bundle's limit: how many, or 2^64 - 1 where there are more.
    TooManyPlaceables { count: u64, limit: u32 },
}

impl fmt::Display for Finding<'_> {
    fn fmt<W: fmt::Write>(&self, f: &mut fmt::Formatter<W>) -> fmt::Result {
        let place = self.place;
        match &self.kind {
            Kind::UnknownMessage { id } => write!(f, "no message '{id}' (in '{place}')"),
            Kind::UnknownAttribute { id, attribute } => write!(
                f,
                "no attribute '{id}.{attribute}' (in '{place}')"
            ),
            Kind::NoValue { id } => write!(f, "no value of message '{id}' (in '{place}')"),
            Kind::UnknownTerm { id } => write!(f, "no term '-{id}' (in '{place}')"),
            Kind::UnknownTermAttribute { id, attribute } => write!(
                f,
                "no attribute '-{id}.{attribute}' (in '{place}')"
            ),
            Kind::UnknownFunction { id } => write!(f, "no function '{id}' (in '{place}')"),
            Kind::NoDefault => write!(f, "a select has no default (in '{place}')"),
            Kind::LeadsTo { place: to } => write!(
                f,
                "'{place}' refers to '{to}', where something is wrong"
            ),
            Kind::Elsewhere { place: to } => write!(
                f,
                "'{place}' refers to '{to}', which was not looked at"
            ),
            Kind::Cycle { places } => write_cycle(&place, places, f),
            Kind::TooManyPlaceables { count, limit } => write!(
                f,
                "'{place}' can open {count} placeables, and no more than {limit} are opened"
            ),
        }
    }
}

/// Writes that a place is on a cycle.
fn write_cycle<W: fmt::Write>(
    place: &Place<'_>,
    places: &[Place<'_>],
    f: &mut fmt::Formatter<W>,
) -> fmt::Result {
    match places.get(1) {
        Some(next) => write!(f, "'{place}' refers to '{next}', which leads back to it"),
        None => write!(f, "'{place}' refers to itself"),
    }
}

//! What is found in files.

use fluent_places::Place;
use fluent_reasons::Expected;

/// A byte of a file's text. Files are numbered from 0: those that are loaded beside the others, the others, their references.
#[derive(Clone, Copy, Debug, Drop)]
pub struct Spot {
    pub file: usize,
    pub at: usize,
}

/// What is wrong in a file, and where.
#[derive(Clone, Copy, Debug, Drop)]
pub struct Finding<'s> {
    pub spot: Spot,
    /// The value or the attribute that it is of; none where an entry can't be read.
    pub place: Option<Place<'s>>,
    pub problem: Problem<'s>,
}

/// What is wrong. An *error* is a text that is wrong or missing, for some arguments at least; the others are warnings.
#[derive(Clone, Copy, Debug, Drop)]
pub enum Problem<'s> {
    /// Error: what begins at this byte can't be read as an entry. It stands where reading stopped, and that was expected there.
    Unreadable { start: usize, expected: Expected },
    /// Error: an entry has the id of one before it, which stands there.
    TakenId { first: Spot },
    /// Error: an entry has the id of the built-in function.
    FunctionId,
    /// An entry has an attribute of this name before it.
    RepeatedAttribute,
    /// Error: a reference to a message that isn't there.
    MissingMessage { id: &'s str },
    /// Error: a reference to an attribute that a message doesn't have.
    MissingAttribute { id: &'s str, attribute: &'s str },
    /// Error: a reference to the value of a message that has attributes alone.
    MissingValue { id: &'s str },
    /// Error: a reference to a term that isn't there. The id stands without the dash.
    MissingTerm { id: &'s str },
    /// Error: a reference to an attribute that a term doesn't have.
    MissingTermAttribute { id: &'s str, attribute: &'s str },
    /// A call of a function that neither Fluent nor the application has.
    MissingFunction { id: &'s str },
    /// Error: a call of what a message or a term has for its id, so that no function can be added.
    NotAFunction { id: &'s str },
    /// Error: a pattern refers to this one, which leads back to it.
    Cycle { next: Place<'s> },
    /// Error: a pattern can open so many placeables, or 2^64 - 1 where there are more, and no more than the limit are opened.
    /// Arguments that were tried show it.
    TooManyPlaceables { count: u64, limit: u32 },
    /// A pattern has so many, counted over all variants. No arguments that were tried show more than the limit.
    MayOpenTooMany { count: u64, limit: u32 },
    /// Error: a pattern refers to this one, which isn't clean.
    LeadsTo { place: Place<'s> },
    /// A reference to a term doesn't give it a variable that it shows.
    NotGiven { variable: &'s str, term: Place<'s> },
    /// A reference to a term gives it an argument that it doesn't use.
    UnusedArgument { argument: &'s str, term: Place<'s> },
    /// `NUMBER` is called with what is no number, whatever the arguments are.
    NoNumber,
    /// A select on a number lacks a plural category of the language.
    NoCategory { key: &'s str },
    /// A select on a number has a plural category that the language lacks.
    NeverComes { key: &'s str },
    /// A variant has the key of one before it.
    RepeatedVariant { key: &'s str },
    /// Error: the reference has it, and the files lack it.
    NotTranslated,
    /// Error: the reference has this value of a message, and the files have the message without a value.
    ValueNotTranslated,
    /// The files have it, and the reference lacks it.
    NotInReference,
    /// The files have this value of a message, and the reference has the message without a value.
    ValueNotInReference,
    /// Error: it asks for a variable that it doesn't ask for in the reference.
    UnknownVariable { variable: &'s str },
    /// It doesn't ask for a variable that it asks for in the reference.
    VariableLeftOut { variable: &'s str },
    /// It doesn't refer to a term to which it refers in the reference.
    TermLeftOut { term: Place<'s> },
    /// It doesn't call a function that it calls in the reference.
    FunctionLeftOut { id: &'s str },
}

/// A part of a value or an attribute, by its number among those of its kind, from 0 on, in the order of the tree: a
/// reference to a message, a term or a variable, or a call of a function; a select; a variant.
#[derive(Clone, Copy, Debug, Drop)]
pub enum Part {
    Whole,
    Reference(usize),
    Select(usize),
    Variant(usize),
}

/// What is wrong with a part of a value or an attribute.
#[derive(Clone, Copy, Debug, Drop)]
pub struct Flaw<'s> {
    pub part: Part,
    pub problem: Problem<'s>,
}

//! The text of a problem.

ghost use Rattle.std.specs.Prelude.{[], ◌++◌, codes, OnOk, IfOk, ◌≡◌, string_bytes};
ghost use Rattle.fluent_ast.specs.View.{attribute_of};
ghost use Rattle.fluent_places.specs.Places.{place_view};
ghost use Rattle.fluent_reasons.specs.ExpectedText.{expected_text};
ghost use Rattle.fluent_patterns.specs.Found.{problem_view, spot_view};
ghost use Rattle.fluent_sources.specs.Files.{Adds};
ghost use Rattle.fluent_sources.specs.Lined.{lined_views};
ghost use Rattle.fluent_sources.specs.Positions.{line_at, problem_text, shown_spot, spot_text};
ghost use Rattle.fluent_sources.specs.Wording.{attribute_text, cycle_text, place_text, said_given, said_in, said_of, round_text, taken_text, too_many_text, unread_text};
ghost use Rattle.std.specs.Fmt.{decimal};

use crate::lines::Lined;
use crate::positions::{name_at, position_at};
use fluent_ast::ast::Identifier;
use fluent_patterns::{Problem, Spot};
use fluent_places::Place;
use fluent_reasons::Expected;
use std::alloc::{AllocError, Global};

/// What stands behind a function that isn't there.
const MAYBE_ADDED: &str = "', unless the application adds it";

/// What stands behind a function whose id is another's.
const ID_TAKEN: &str = "': a message or a term has that id";

/// Writes the name of an attribute behind a dot, where there is one.
fn put_attribute(name: &Option<Identifier<'_>>, text: &mut String) -> Result<(), AllocError>
    ensures { OnOk result (Adds (attribute_text (attribute_of name.now)) text.old text.new) }
{
    match name {
        Some(name) => {
            let name = name.name;
            write!(text, ".{name}")
        }
        None => Ok(()),
    }
}

/// Writes a place as it is written in a reference.
fn put_place(place: &Place<'_>, text: &mut String) -> Result<(), AllocError>
    ensures { OnOk result (Adds (place_text (place_view place.now)) text.old text.new) }
{
    match place {
        Place::Message(id, attribute) => {
            text.push_str(id.name)?;
            put_attribute(attribute, text)
        }
        Place::Term(id, attribute) => {
            let id = id.name;
            write!(text, "-{id}")?;
            put_attribute(attribute, text)
        }
    }
}

/// A place as it is written in a reference.
///
/// # Errors
///
/// An allocation failed.
pub fn place_text(alloc: Global, place: &Place<'_>) -> Result<String, AllocError>
    ensures { IfOk result (λ text. string_bytes text ≡ place_text (place_view place.now)) }
{
    let mut text = String::new(alloc);
    put_place(place, &mut text)?;
    Ok(text)
}

/// Writes what is said of a part of an entry.
fn put_in(
    own: &str,
    before: &str,
    name: &str,
    after: &str,
    text: &mut String,
) -> Result<(), AllocError>
    ensures { OnOk result (Adds (said_in own.now before.now name.now after.now) text.old text.new) }
{
    write!(text, "{before}{name}{after} (in '{own}')")
}

/// Writes what is said of an entry.
fn put_of(
    own: &str,
    before: &str,
    name: &str,
    after: &str,
    text: &mut String,
) -> Result<(), AllocError>
    ensures { OnOk result (Adds (said_of own.now before.now name.now after.now) text.old text.new) }
{
    write!(text, "'{own}'{before}{name}{after}")
}

/// Writes what is said of an entry and of a place that it refers to.
fn put_of_place(
    alloc: Global,
    own: &str,
    before: &str,
    place: &Place<'_>,
    after: &str,
    text: &mut String,
) -> Result<(), AllocError>
    ensures { OnOk result
        (Adds (said_of own.now before.now (place_text (place_view place.now)) after.now) text.old text.new) }
{
    let place = place_text(alloc, place)?;
    put_of(own, before, place.as_str(), after, text)
}

/// Writes what is said of an attribute that a part of an entry refers to.
fn put_in_attribute(
    own: &str,
    before: &str,
    id: &str,
    attribute: &str,
    text: &mut String,
) -> Result<(), AllocError>
    ensures { OnOk result
        (Adds (said_in own.now before.now (id.now ++ (codes "." ++ attribute.now)) (codes "'")) text.old text.new) }
{
    write!(text, "{before}{id}.{attribute}' (in '{own}')")
}

/// Writes what is said of a term and of what it is given.
fn put_given(
    own: &str,
    term: &Place<'_>,
    before: &str,
    name: &str,
    text: &mut String,
) -> Result<(), AllocError>
    ensures { OnOk result
        (Adds (said_given own.now (place_text (place_view term.now)) before.now name.now) text.old text.new) }
{
    text.push_str("'")?;
    put_place(term, text)?;
    put_in(own, before, name, "", text)
}

/// Writes that an entry refers to itself, or to one that leads back to it.
fn put_round(is_itself: bool, own: &str, next: &str, text: &mut String) -> Result<(), AllocError>
    ensures { OnOk result (Adds (round_text is_itself own.now next.now) text.old text.new) }
{
    if is_itself {
        put_of(own, " refers to itself", "", "", text)
    } else {
        put_of(own, " refers to '", next, "', which leads back to it", text)
    }
}

/// Writes that an entry refers to one that leads back to it, perhaps itself.
fn put_cycle(
    alloc: Global,
    own: &str,
    next: &Place<'_>,
    text: &mut String,
) -> Result<(), AllocError>
    ensures { OnOk result
        (Adds (cycle_text own.now (place_text (place_view next.now))) text.old text.new) }
{
    let name = place_text(alloc, next)?;
    let shown = name.as_str();
    let is_itself = own == shown;
    put_round(is_itself, own, shown, text)
}

/// Writes that an entry opens too many placeables, or may.
fn put_too_many(
    own: &str,
    opens: &str,
    count: u64,
    limit: u32,
    text: &mut String,
) -> Result<(), AllocError>
    ensures { OnOk result (Adds (too_many_text own.now opens.now count limit) text.old text.new) }
{
    write!(
        text,
        "'{own}'{opens}{count} placeables, and no more than {limit} are opened"
    )
}

/// Writes that the entry at a place of a file has an id first.
fn put_taken_by(
    own: &str,
    name: &str,
    line: usize,
    column: usize,
    text: &mut String,
) -> Result<(), AllocError>
    ensures { OnOk result
        (Adds (taken_text own.now (shown_spot name.now line column)) text.old text.new) }
{
    write!(text, "the id of '{own}' is taken by {name}:{line}:{column}")
}

/// Writes where the entry stands that has an id first.
fn put_taken(
    files: &[Lined<'_>],
    own: &str,
    first: Spot,
    text: &mut String,
) -> Result<(), AllocError>
    ensures { OnOk result
        (Adds (taken_text own.now (spot_text (lined_views files.now) (spot_view first))) text.old text.new) }
{
    let name = name_at(files, first.file);
    let at = position_at(files, first);
    put_taken_by(own, name, at.line, at.column, text)
}

/// Writes what was expected where reading stopped, and in which line what can't be read begins.
fn put_unread(what: &str, line: usize, text: &mut String) -> Result<(), AllocError>
    ensures { OnOk result (Adds (unread_text what.now line) text.old text.new) }
{
    write!(text, "{what}; what begins in line {line} can't be read")
}

/// Writes the same of what begins at a spot.
fn put_unreadable(
    files: &[Lined<'_>],
    start: Spot,
    expected: Expected,
    text: &mut String,
) -> Result<(), AllocError>
    ensures { OnOk result
        (Adds (unread_text (expected_text expected) (line_at (lined_views files.now) (spot_view start))) text.old text.new) }
{
    let line = position_at(files, start).line;
    put_unread(expected.text(), line, text)
}

/// Writes the text of a problem, by the text of its entry.
fn put_problem(
    alloc: Global,
    files: &[Lined<'_>],
    spot: Spot,
    own: &str,
    problem: &Problem<'_>,
    text: &mut String,
) -> Result<(), AllocError>
    ensures { OnOk result
        (Adds (problem_text (lined_views files.now) (spot_view spot) own.now (problem_view problem.now)) text.old text.new) }
{
    match *problem {
        Problem::Unreadable { start, expected } => put_unreadable(
            files,
            Spot {
                file: spot.file,
                at: start,
            },
            expected,
            text,
        ),
        Problem::TakenId { first } => put_taken(files, own, first, text),
        Problem::FunctionId => write!(text, "the id of '{own}' is that of a function"),
        Problem::RepeatedAttribute => put_of(
            own,
            " stands there twice, and the first counts",
            "",
            "",
            text,
        ),
        Problem::MissingMessage { id } => put_in(own, "no message '", id, "'", text),
        Problem::MissingAttribute { id, attribute } => put_in_attribute(
            own,
            "no attribute '",
            id,
            attribute,
            text,
        ),
        Problem::MissingValue { id } => put_in(own, "no value of message '", id, "'", text),
        Problem::MissingTerm { id } => put_in(own, "no term '-", id, "'", text),
        Problem::MissingTermAttribute { id, attribute } => put_in_attribute(
            own,
            "no attribute '-",
            id,
            attribute,
            text,
        ),
        Problem::MissingFunction { id } => put_in(own, "no function '", id, MAYBE_ADDED, text),
        Problem::NotAFunction { id } => put_in(own, "no function '", id, ID_TAKEN, text),
        Problem::Cycle { next } => put_cycle(alloc, own, &next, text),
        Problem::TooManyPlaceables { count, limit } => {
            put_too_many(own, " can open ", count, limit, text)
        }
        Problem::MayOpenTooMany { count, limit } => {
            put_too_many(own, " may open ", count, limit, text)
        }
        Problem::LeadsTo { place } => put_of_place(
            alloc,
            own,
            " refers to '",
            &place,
            "', where something is wrong",
            text,
        ),
        Problem::NotGiven { variable, term } => put_given(
            own,
            &term,
            "' is not given $",
            variable,
            text,
        ),
        Problem::UnusedArgument { argument, term } => put_given(
            own,
            &term,
            "' doesn't use $",
            argument,
            text,
        ),
        Problem::NoNumber => put_in(own, "NUMBER of what is no number", "", "", text),
        Problem::NoCategory { key } => put_in(own, "no variant [", key, "]", text),
        Problem::NeverComes { key } => put_in(
            own,
            "[",
            key,
            "] never comes in this language",
            text,
        ),
        Problem::RepeatedVariant { key } => put_in(
            own,
            "[",
            key,
            "] stands there twice, and the first counts",
            text,
        ),
        Problem::ValueNotTranslated => write!(text, "the value of '{own}' is not translated"),
        Problem::ValueNotInReference => write!(
            text,
            "the value of '{own}' is not in the reference"
        ),
        Problem::NotTranslated => put_of(own, " is not translated", "", "", text),
        Problem::NotInReference => put_of(own, " is not in the reference", "", "", text),
        Problem::UnknownVariable { variable } => put_of(
            own,
            " asks for $",
            variable,
            ", and the reference doesn't",
            text,
        ),
        Problem::VariableLeftOut { variable } => put_of(
            own,
            " doesn't ask for $",
            variable,
            ", and the reference does",
            text,
        ),
        Problem::TermLeftOut { term } => put_of_place(
            alloc,
            own,
            " doesn't refer to '",
            &term,
            "', and the reference does",
            text,
        ),
        Problem::FunctionLeftOut { id } => put_of(
            own,
            " doesn't call ",
            id,
            ", and the reference does",
            text,
        ),
    }
}

/// The text of a problem at a spot, by the text of its entry.
///
/// # Errors
///
/// An allocation failed.
pub fn problem_text(
    alloc: Global,
    files: &[Lined<'_>],
    spot: Spot,
    own: &str,
    problem: &Problem<'_>,
) -> Result<String, AllocError>
    ensures { IfOk result (λ text. string_bytes text
        ≡ problem_text (lined_views files.now) (spot_view spot) own.now (problem_view problem.now)) }
{
    let mut text = String::new(alloc);
    put_problem(alloc, files, spot, own, problem, &mut text)?;
    Ok(text)
}

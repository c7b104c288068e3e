//! Findings of one cause, of which the first stand for all.

ghost use Rattle.std.specs.Prelude.{◌≡◌, ◌+◌, [], ◌∷◌, ◌++◌, IfOk, OnOk, Some, map};
ghost use Rattle.std.specs.Option.{option_map};
ghost use Rattle.fluent_ast.specs.View.{attribute_of};
ghost use Rattle.fluent_places.specs.Places.{place_view};
ghost use Rattle.fluent_patterns.specs.Found.{found_view, problem_view};
ghost use Rattle.fluent_sources.specs.Causes.{attribute_or_none, cause_of, folded, folded_views, others_at, others_text, place_subject, subject_of, told_at};
ghost use Rattle.fluent_sources.specs.Files.{Adds};
ghost use Rattle.fluent_sources.specs.Inside.Causes.{AreCounts, Counts, Tells, cause_view, number_in};

use fluent_ast::ast::Identifier;
use fluent_patterns::{Finding, Problem};
use fluent_places::Place;
use indexmap::IndexMap;
use std::alloc::{AllocError, Global};

/// What findings have in common of which the first stand for all: the name of their problems, the id that they speak of,
/// and an attribute's name, empty where there is none.
#[derive(Clone, Copy, PartialEq, Eq, Hash, Drop)]
pub(crate) struct Cause<'s> {
    name: &'s str,
    id: &'s str,
    attribute: &'s str,
}

/// A finding, and how many others have its cause and are not told.
#[derive(Clone, Copy, Debug, Drop)]
pub struct Folded<'s> {
    pub finding: Finding<'s>,
    pub others: usize,
}

/// The name of an attribute, or nothing.
fn attribute_or_none<'s>(attribute: &Option<Identifier<'s>>) -> &'s str
    ensures { result.now ≡ attribute_or_none (attribute_of attribute.now) }
{
    match attribute {
        Some(name) => name.name,
        None => "",
    }
}

/// The id and the name of the attribute of a place.
fn place_subject<'s>(place: &Place<'s>) -> (&'s str, &'s str)
    ensures { (result.0.now, result.1.now) ≡ place_subject (place_view place.now) }
{
    match place {
        Place::Message(id, attribute) | Place::Term(id, attribute) => {
            (id.name, attribute_or_none(attribute))
        }
    }
}

/// What findings of one cause speak of. What is wrong with one text alone has no cause in common.
fn subject_of<'s>(problem: &Problem<'s>) -> Option<(&'s str, &'s str)>
    ensures { option_map (λ s. (s.0.now, s.1.now)) result ≡ subject_of (problem_view problem.now) }
{
    match problem {
        Problem::MissingMessage { id }
        | Problem::MissingValue { id }
        | Problem::MissingTerm { id }
        | Problem::MissingFunction { id }
        | Problem::NotAFunction { id }
        | Problem::FunctionLeftOut { id } => Some((id, "")),
        Problem::MissingAttribute { id, attribute }
        | Problem::MissingTermAttribute { id, attribute } => Some((id, attribute)),
        Problem::NoCategory { key } | Problem::NeverComes { key } => Some((key, "")),
        Problem::VariableLeftOut { variable } => Some((variable, "")),
        Problem::TermLeftOut { term } => Some(place_subject(term)),
        Problem::NotTranslated
        | Problem::ValueNotTranslated
        | Problem::NotInReference
        | Problem::ValueNotInReference => Some(("", "")),
        _ => None,
    }
}

/// The cause of a finding, if others may have it.
fn cause_of<'s>(finding: &Finding<'s>) -> Option<Cause<'s>>
    ensures { option_map cause_view result ≡ cause_of (found_view finding.now) }
{
    let problem = finding.problem;
    match subject_of(&problem) {
        Some((id, attribute)) => Some(Cause {
            name: problem.name(),
            id,
            attribute,
        }),
        None => None,
    }
}

/// The number that a table has for a cause.
fn number_in(table: &IndexMap<Cause<'_>, usize>, cause: &Cause<'_>) -> usize
    ensures { result ≡ number_in table.now (cause_view cause.now) }
{
    match table.get(cause) {
        Some(number) => *number,
        None => 0,
    }
}

/// Counts a cause.
fn count<'s>(table: &mut IndexMap<Cause<'s>, usize>, cause: Cause<'s>) -> Result<(), AllocError>
    ensures { OnOk result (Counts (Some (cause_view cause.entry)) table.old table.new) }
{
    let number = number_in(table, &cause);
    let more = more_by_one(number)?;
    table.insert(cause, more)?;
    Ok(())
}

/// One more. So many that there is no number for them never fit in memory.
fn more_by_one(count: usize) -> Result<usize, AllocError>
    ensures { IfOk result (λ more. more ≡ count + 1) }
{
    count.checked_add(1).ok_or(AllocError)
}

/// Counts a cause, if there is one.
fn count_if<'s>(
    table: &mut IndexMap<Cause<'s>, usize>,
    cause: Option<Cause<'s>>,
) -> Result<(), AllocError>
    ensures { OnOk result (Counts (option_map cause_view cause.entry) table.old table.new) }
{
    match cause {
        Some(cause) => count(table, cause),
        None => Ok(()),
    }
}

/// How many findings have each cause.
fn counts_of<'s>(
    alloc: Global,
    findings: &[Finding<'s>],
) -> Result<IndexMap<Cause<'s>, usize>, AllocError>
    ensures { IfOk result (AreCounts (map cause_of (map found_view findings.now))) }
{
    let mut table = IndexMap::new(alloc);
    for finding in findings {
        count_if(&mut table, cause_of(finding))?;
    }
    Ok(table)
}

/// How many others stand behind a finding: behind the third those that are not told, by how many have the cause before it, and
/// in all.
fn others_at(before: usize, all: usize) -> usize
    ensures { result ≡ others_at before all }
{
    if before == 2 {
        all.saturating_sub(3)
    } else {
        0
    }
}

/// Adds a finding of a cause, if fewer than three have it before.
fn push_if<'s>(
    list: &mut Vec<Folded<'s>>,
    finding: &Finding<'s>,
    before: usize,
    all: usize,
) -> Result<(), AllocError>
    ensures { OnOk result
        (folded_views list.new.items ≡ folded_views list.old.items ++ told_at (found_view finding.now) before all) }
{
    if before < 3 {
        push(list, finding, others_at(before, all))
    } else {
        Ok(())
    }
}

/// Adds a finding, if it is told: by how many have its cause in all, and before it.
fn add<'s>(
    finding: &Finding<'s>,
    counts: &IndexMap<Cause<'s>, usize>,
    seen: &mut IndexMap<Cause<'s>, usize>,
    list: &mut Vec<Folded<'s>>,
) -> Result<(), AllocError>
    ensures { OnOk result (Tells (found_view finding.now) counts.now seen.old seen.new list.old list.new) }
{
    let Some(cause) = cause_of(finding) else {
        return push(list, finding, 0);
    };
    let before = number_in(seen, &cause);
    let all = number_in(counts, &cause);
    count(seen, cause)?;
    push_if(list, finding, before, all)
}

/// Adds a finding, and how many others of its cause are not told.
fn push<'s>(
    list: &mut Vec<Folded<'s>>,
    finding: &Finding<'s>,
    others: usize,
) -> Result<(), AllocError>
    ensures { OnOk result
        (folded_views list.new.items ≡ folded_views list.old.items ++ record { found = found_view finding.now; others = others } ∷ []) }
{
    list.push(Folded {
        finding: *finding,
        others,
    })?;
    Ok(())
}

/// Of findings of one cause the first three, of which the third has the count of the others, and those that have no cause in
/// common. The order stays.
///
/// # Errors
///
/// An allocation failed.
pub fn fold<'s>(alloc: Global, findings: &[Finding<'s>]) -> Result<Vec<Folded<'s>>, AllocError>
    ensures { IfOk result (λ list. folded_views list.items ≡ folded (map found_view findings.now)) }
{
    let counts = counts_of(alloc, findings)?;
    let mut seen = IndexMap::new(alloc);
    let mut list = Vec::new(alloc);
    for finding in findings {
        add(finding, &counts, &mut seen, &mut list)?;
    }
    Ok(list)
}

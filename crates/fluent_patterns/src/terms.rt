//! References to terms: variables that they don't give, and arguments that the term doesn't use.

ghost use Rattle.std.specs.Prelude.{◌≡◌, IfOk, OnOk, map};
ghost use Rattle.std.specs.List.{AllByRecursion};
ghost use Rattle.std.specs.Option.{option_map};
ghost use Rattle.fluent_ast.specs.References.{nameds_view};
ghost use Rattle.fluent_ast.specs.View.{call_view, pattern_view};
ghost use Rattle.fluent_places.specs.Asked.{texts};
ghost use Rattle.fluent_places.specs.Places.{place_target, place_view, views};
ghost use Rattle.fluent_places.specs.Needs.{names_in, names_set};
ghost use Rattle.fluent_places.specs.NeedsView.{need_view};
ghost use Rattle.fluent_patterns.specs.Found.{problem_view, AddsFlaws};
ghost use Rattle.fluent_patterns.specs.Names.{is_one_of, once};
ghost use Rattle.fluent_patterns.specs.Terms.{against, asks_by, asks_of, at_target, kept_of, not_givens, term_flaws, term_problems, unuseds, AddsProblems, AreOf, AreShown, TellsAskedAt};

use crate::finding::{Flaw, Problem};
use crate::names::{has, once};
use crate::numbered::{add_problems, references};
use crate::shown::{Wanted, shown_in};
use fluent_ast::ast::{CallArguments, NamedArgument, Pattern};
use fluent_bundle_entries::GetEntry;
use fluent_places::{Asked, Need, Place, pattern_at, variables_at};
use indexmap::{IndexMap, IndexSet};
use std::alloc::{AllocError, Global};

/// The variables that terms show, each once.
type Shown<'s> = IndexMap<Place<'s>, IndexSet<&'s str>>;

/// What terms do with the arguments that references give them.
#[derive(Drop)]
pub struct Terms<'s> {
    shown: Shown<'s>,
    asked: Asked<'s>,
}

/// What the terms at these places do with arguments.
///
/// # Errors
///
/// An allocation failed.
pub fn terms_at<'s, F, B: GetEntry<'s, F>>(
    alloc: Global,
    bundle: &B,
    places: &[Place<'s>],
) -> Result<Terms<'s>, AllocError>
    ensures shown { IfOk result (AreOf (B.named bundle.now)) }
    ensures asked { IfOk result
        (λ terms. AllByRecursion (TellsAskedAt (B.named bundle.now) (asks_of terms)) (views places.now)) }
{
    let shown = shown_at(alloc, bundle, places)?;
    let asked = variables_at(alloc, bundle, places)?;
    Ok(Terms { shown, asked })
}

/// What the terms at these places show.
fn shown_at<'s, F, B: GetEntry<'s, F>>(
    alloc: Global,
    bundle: &B,
    places: &[Place<'s>],
) -> Result<Shown<'s>, AllocError>
    ensures { IfOk result (λ table. AreShown (B.named bundle.now) table.entries) }
{
    let mut table = IndexMap::new(alloc);
    for place in places {
        if let Place::Term(..) = place {
            keep(alloc, bundle, &mut table, place)?;
        }
    }
    Ok(table)
}

/// Keeps what is shown at a place.
fn keep<'s, F, B: GetEntry<'s, F>>(
    alloc: Global,
    bundle: &B,
    table: &mut Shown<'s>,
    place: &Place<'s>,
) -> Result<(), AllocError>
    requires { AreShown (B.named bundle.now) table.old.entries }
    ensures { OnOk result (AreShown (B.named bundle.now) table.new.entries) }
{
    let Some(pattern) = pattern_at(bundle, place) else {
        return Ok(());
    };
    let set = shown_in(alloc, Wanted::Variables, pattern)?;
    table.insert(*place, set)?;
    Ok(())
}

/// What is kept of a place.
fn kept<'t, 's>(shown: &'t Shown<'s>, place: &Place<'s>) -> Option<&'t IndexSet<&'s str>>
    ensures { option_map (λ set. texts set.now.keys) result
        ≡ kept_of shown.now.entries (place_view place.now) }
{
    shown.get(place)
}

/// Adds what is wrong with the references to terms in a pattern.
pub(crate) fn add_term_flaws<'s, F, B: GetEntry<'s, F>>(
    alloc: Global,
    bundle: &B,
    terms: &Terms<'s>,
    pattern: &Pattern<'s>,
    flaws: &mut Vec<Flaw<'s>>,
) -> Result<(), AllocError>
    requires { AreOf (B.named bundle.now) terms.now }
    ensures { OnOk result
        (AddsFlaws (term_flaws (B.named bundle.now) (asks_of terms.now) (pattern_view pattern.now)) flaws.old flaws.new) }
{
    let list = references(alloc, pattern)?;
    for (number, need) in list.iter().enumerate() {
        let problems = term_problems(alloc, bundle, terms, need)?;
        add_problems(number, &problems, flaws)?;
    }
    Ok(())
}

/// What is wrong with a reference, if it is one to a term.
fn term_problems<'s, F, B: GetEntry<'s, F>>(
    alloc: Global,
    bundle: &B,
    terms: &Terms<'s>,
    need: &Need<'_, 's>,
) -> Result<Vec<Problem<'s>>, AllocError>
    requires { AreOf (B.named bundle.now) terms.now }
    ensures { IfOk result
        (λ list. map problem_view list.items ≡ term_problems (B.named bundle.now) (asks_of terms.now) (need_view need.now)) }
{
    match need {
        Need::Term(id, attribute, arguments) => {
            let given = given_by(alloc, arguments)?;
            problems_at(alloc, bundle, terms, &Place::Term(*id, *attribute), &given)
        }
        Need::Message(..) | Need::Function(_) | Need::Variable(_) | Need::Default => {
            Ok(Vec::new(alloc))
        }
    }
}

/// What is wrong with a reference to a term that gives these names.
#[tactic(auto, using(crate::proofs::Kept::none_at, crate::proofs::Kept::found_at))]
fn problems_at<'s, F, B: GetEntry<'s, F>>(
    alloc: Global,
    bundle: &B,
    terms: &Terms<'s>,
    term: &Place<'s>,
    given: &IndexSet<&'s str>,
) -> Result<Vec<Problem<'s>>, AllocError>
    requires { AreOf (B.named bundle.now) terms.now }
    ensures { let x = place_view term.now in IfOk result
        (λ list. map problem_view list.items
        ≡ at_target (place_target (B.named bundle.now) x) x (texts given.now.keys) (asks_of terms.now x)) }
{
    let Some(pattern) = pattern_at(bundle, term) else {
        return Ok(Vec::new(alloc));
    };
    match kept(&terms.shown, term) {
        Some(shown) => against(alloc, term, given, shown, &terms.asked),
        None => {
            let shown = shown_in(alloc, Wanted::Variables, pattern)?;
            against(alloc, term, given, &shown, &terms.asked)
        }
    }
}

/// The names that a reference to a term gives, each once.
fn given_by<'s>(
    alloc: Global,
    arguments: &Option<Box<CallArguments<'s>>>,
) -> Result<IndexSet<&'s str>, AllocError>
    ensures { IfOk result (λ set. texts set.keys ≡ once (names_set (call_view arguments.now))) }
{
    match arguments {
        Some(arguments) => names_in(alloc, &arguments.named),
        None => Ok(IndexSet::new(alloc)),
    }
}

/// The names of named arguments, each once.
fn names_in<'s>(alloc: Global, named: &[NamedArgument<'s>]) -> Result<IndexSet<&'s str>, AllocError>
    ensures { IfOk result (λ set. texts set.keys ≡ once (names_in (nameds_view named.now))) }
{
    let mut names = Vec::new(alloc);
    for argument in named {
        names.push(argument.name.name)?;
    }
    once(alloc, &names)
}

/// What is wrong with a reference to a term that gives these names and shows those.
#[tactic(auto, using(crate::proofs::Kept::nothing_unused, crate::proofs::Kept::some_unused))]
fn against<'s>(
    alloc: Global,
    term: &Place<'s>,
    given: &IndexSet<&'s str>,
    shown: &IndexSet<&'s str>,
    asked: &Asked<'s>,
) -> Result<Vec<Problem<'s>>, AllocError>
    ensures { let x = place_view term.now in IfOk result
        (λ list. map problem_view list.items ≡ against x (texts given.now.keys) (texts shown.now.keys) (asks_by asked.now x)) }
{
    let mut problems = Vec::new(alloc);
    add_not_given(term, given, shown, &mut problems)?;
    let Some(names) = asked.of(term) else {
        return Ok(problems);
    };
    add_unused(term, given, names, &mut problems)?;
    Ok(problems)
}

/// Adds the variables that are shown and not given.
fn add_not_given<'s>(
    term: &Place<'s>,
    given: &IndexSet<&'s str>,
    shown: &IndexSet<&'s str>,
    problems: &mut Vec<Problem<'s>>,
) -> Result<(), AllocError>
    ensures { OnOk result
        (AddsProblems (not_givens (place_view term.now) (texts given.now.keys) (texts shown.now.keys)) problems.old problems.new) }
{
    for variable in shown.as_slice() {
        if !has(given, *variable) {
            problems.push(Problem::NotGiven {
                variable: *variable,
                term: *term,
            })?;
        }
    }
    Ok(())
}

/// Adds the names that are given and not asked for.
fn add_unused<'s>(
    term: &Place<'s>,
    given: &IndexSet<&'s str>,
    asked: &IndexSet<&'s str>,
    problems: &mut Vec<Problem<'s>>,
) -> Result<(), AllocError>
    ensures { OnOk result
        (AddsProblems (unuseds (place_view term.now) (texts given.now.keys) (is_one_of (texts asked.now.keys))) problems.old problems.new) }
{
    for argument in given.as_slice() {
        if !has(asked, *argument) {
            problems.push(Problem::UnusedArgument {
                argument: *argument,
                term: *term,
            })?;
        }
    }
    Ok(())
}

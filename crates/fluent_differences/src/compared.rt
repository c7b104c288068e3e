//! How a value or an attribute of a translation differs from that of the reference.

ghost use Rattle.std.specs.Prelude.{◌≡◌, [], ◌∷◌, IfOk, OnOk, Some, map};
ghost use Rattle.std.specs.Option.{option_map};
ghost use Rattle.fluent_ast.specs.View.{pattern_view};
ghost use Rattle.fluent_places.specs.Asked.{texts};
ghost use Rattle.fluent_places.specs.Places.{views};
ghost use Rattle.fluent_places.specs.NeedsView.{need_view, needs_view};
ghost use Rattle.fluent_patterns.specs.Found.{AddsFlaws, flaws_in};
ghost use Rattle.fluent_differences.specs.Compared.{differences, flaws_by, function_of, functions_left_out, is_reference, references, term_of, told_view, variables_left_out, wording_view};
ghost use Rattle.fluent_differences.specs.Inside.Names.{AddsReference, HasMore, IsOwn, TellsOnce, names_if};

use crate::among::has;
use crate::rules::{
    FunctionsLeftOut, Rule, TermsLeftOut, Told, UnknownVariables, VariablesLeftOut,
};
use fluent_ast::ast::Pattern;
use fluent_patterns::{Flaw, Wanted, shown_in};
use fluent_places::{Need, Place, needs};
use indexmap::IndexSet;
use std::alloc::{AllocError, Global};

/// A value or an attribute of a translation, or of its reference.
#[derive(Clone, Copy, Drop)]
pub struct Wording<'p, 's> {
    pub pattern: &'p Pattern<'s>,
    /// The variables that it asks the arguments for, itself or by messages.
    pub asked: &'p IndexSet<&'s str>,
}

/// The terms to which a pattern refers itself, and the functions that it calls.
#[derive(Drop)]
struct Own<'s> {
    terms: IndexSet<&'s str>,
    functions: IndexSet<&'s str>,
}

fn is_reference(need: &Need<'_, '_>) -> bool
    ensures { result ≡ is_reference (need_view need.now) }
{
    match need {
        Need::Message(_, _) | Need::Term(_, _, _) | Need::Function(_) | Need::Variable(_) => true,
        Need::Default => false,
    }
}

/// Adds a need, where it is a reference.
fn add_reference<'t, 's>(
    need: &Need<'t, 's>,
    list: &mut Vec<Need<'t, 's>>,
) -> Result<(), AllocError>
    ensures { OnOk result (AddsReference (need_view need.now) list.old list.new) }
{
    if !is_reference(need) {
        return Ok(());
    }
    list.push(*need)?;
    Ok(())
}

/// What a pattern refers to, in the order of the tree.
fn references_of<'t, 's>(
    alloc: Global,
    pattern: &'t Pattern<'s>,
) -> Result<Vec<Need<'t, 's>>, AllocError>
    ensures { IfOk result (λ list. needs_view list ≡ references (pattern_view pattern.now)) }
{
    let all = needs(alloc, pattern)?;
    let mut list = Vec::new(alloc);
    for need in &all {
        add_reference(need, &mut list)?;
    }
    Ok(list)
}

/// The term to which a need refers, by its id.
fn term_of<'s>(need: &Need<'_, 's>) -> Option<&'s str>
    ensures { option_map (λ t. t.now) result ≡ term_of (need_view need.now) }
{
    match need {
        Need::Term(id, _, _) => Some(id.name),
        Need::Message(_, _) | Need::Function(_) | Need::Variable(_) | Need::Default => None,
    }
}

/// The function that is called.
fn function_of<'s>(need: &Need<'_, 's>) -> Option<&'s str>
    ensures { option_map (λ f. f.now) result ≡ function_of (need_view need.now) }
{
    match need {
        Need::Function(id) => Some(id.name),
        Need::Message(_, _) | Need::Term(_, _, _) | Need::Variable(_) | Need::Default => None,
    }
}

fn add_name<'s>(names: &mut IndexSet<&'s str>, name: &'s str) -> Result<(), AllocError>
    ensures { OnOk result (HasMore (name.now ∷ []) names.old names.new) }
{
    names.insert(name)?;
    Ok(())
}

/// Adds a name, if there is one.
fn add_some<'s>(names: &mut IndexSet<&'s str>, name: Option<&'s str>) -> Result<(), AllocError>
    ensures { OnOk result (HasMore (names_if name.entry) names.old names.new) }
{
    match name {
        Some(name) => add_name(names, name),
        None => Ok(()),
    }
}

/// The terms and the functions to which these refer.
fn own_of<'s>(alloc: Global, list: &[Need<'_, 's>]) -> Result<Own<'s>, AllocError>
    ensures { IfOk result (IsOwn (map need_view list.now)) }
{
    let mut terms: IndexSet<&'s str> = IndexSet::new(alloc);
    let mut functions: IndexSet<&'s str> = IndexSet::new(alloc);
    for need in list {
        add_some(&mut terms, term_of(need))?;
        add_some(&mut functions, function_of(need))?;
    }
    Ok(Own { terms, functions })
}

/// Adds what is told of a name, where nothing was told of it.
fn tell_once<'s>(
    told: Told<'s>,
    names: &mut IndexSet<&'s str>,
    flaws: &mut Vec<Flaw<'s>>,
) -> Result<(), AllocError>
    ensures { OnOk result
        (TellsOnce (Some (told_view told.entry)) names.old names.new flaws.old flaws.new) }
{
    if has(names, told.name) {
        return Ok(());
    }
    names.insert(told.name)?;
    flaws.push(told.flaw)?;
    Ok(())
}

/// The same, if anything is told.
fn tell<'s>(
    told: Option<Told<'s>>,
    names: &mut IndexSet<&'s str>,
    flaws: &mut Vec<Flaw<'s>>,
) -> Result<(), AllocError>
    ensures { OnOk result
        (TellsOnce (option_map told_view told.entry) names.old names.new flaws.old flaws.new) }
{
    match told {
        Some(told) => tell_once(told, names, flaws),
        None => Ok(()),
    }
}

/// Adds what a rule tells of references, each name once.
fn add_by<'s, R: Rule<'s>>(
    alloc: Global,
    list: &[Need<'_, 's>],
    rule: &R,
    flaws: &mut Vec<Flaw<'s>>,
) -> Result<(), AllocError>
    ensures { OnOk result
        (AddsFlaws (flaws_by (R.rule rule.now) (map need_view list.now)) flaws.old flaws.new) }
{
    let mut names: IndexSet<&'s str> = IndexSet::new(alloc);
    for (number, need) in list.iter().enumerate() {
        tell(rule.told(number, need), &mut names, flaws)?;
    }
    Ok(())
}

/// Adds the variables that a pattern of the reference shows and for which the translation doesn't ask.
fn add_variables_left_out<'s>(
    alloc: Global,
    pattern: &Pattern<'s>,
    asked: &IndexSet<&'s str>,
    there: &[Need<'_, 's>],
    flaws: &mut Vec<Flaw<'s>>,
) -> Result<(), AllocError>
    ensures { OnOk result (AddsFlaws
        (variables_left_out (pattern_view pattern.now) (texts asked.now.keys) (map need_view there.now))
        flaws.old flaws.new) }
{
    let shows = shown_in(alloc, Wanted::Variables, pattern)?;
    let rule = VariablesLeftOut {
        asked,
        shows: &shows,
    };
    add_by(alloc, there, &rule, flaws)
}

/// Adds the functions whose answers a pattern of the reference shows, and which are not called.
fn add_functions_left_out<'s>(
    alloc: Global,
    pattern: &Pattern<'s>,
    called: &IndexSet<&'s str>,
    there: &[Need<'_, 's>],
    flaws: &mut Vec<Flaw<'s>>,
) -> Result<(), AllocError>
    ensures { OnOk result (AddsFlaws
        (functions_left_out (pattern_view pattern.now) (texts called.now.keys) (map need_view there.now))
        flaws.old flaws.new) }
{
    let shows = shown_in(alloc, Wanted::Functions, pattern)?;
    let rule = FunctionsLeftOut {
        called,
        shows: &shows,
    };
    add_by(alloc, there, &rule, flaws)
}

/// Adds how a value or an attribute of a translation differs from that of the reference.
fn add_differences<'s>(
    alloc: Global,
    places: &IndexSet<Place<'s>>,
    reference: &Wording<'_, 's>,
    translation: &Wording<'_, 's>,
    flaws: &mut Vec<Flaw<'s>>,
) -> Result<(), AllocError>
    ensures { OnOk result (AddsFlaws
        (differences (views places.now.keys) (wording_view reference.now) (wording_view translation.now))
        flaws.old flaws.new) }
{
    let there = references_of(alloc, reference.pattern)?;
    let here = references_of(alloc, translation.pattern)?;
    let own = own_of(alloc, &here)?;
    let unknown = UnknownVariables {
        asked: reference.asked,
    };
    let terms = TermsLeftOut {
        places,
        terms: &own.terms,
    };
    add_by(alloc, &here, &unknown, flaws)?;
    add_variables_left_out(alloc, reference.pattern, translation.asked, &there, flaws)?;
    add_by(alloc, &there, &terms, flaws)?;
    add_functions_left_out(alloc, reference.pattern, &own.functions, &there, flaws)
}

/// How a value or an attribute of a translation differs from that of the reference. The places are those of the
/// translation.
///
/// # Errors
///
/// An allocation failed.
pub fn differences<'s>(
    alloc: Global,
    places: &IndexSet<Place<'s>>,
    reference: &Wording<'_, 's>,
    translation: &Wording<'_, 's>,
) -> Result<Vec<Flaw<'s>>, AllocError>
    ensures { IfOk result (λ flaws. flaws_in flaws
        ≡ differences (views places.now.keys) (wording_view reference.now) (wording_view translation.now)) }
{
    let mut flaws = Vec::new(alloc);
    add_differences(alloc, places, reference, translation, &mut flaws)?;
    Ok(flaws)
}

//! References to what isn't there.

ghost use Rattle.std.specs.Prelude.{◌≡◌, OnOk, map};
ghost use Rattle.std.specs.Option.{option_map};
ghost use Rattle.fluent_ast.specs.View.{attribute_of, pattern_view};
ghost use Rattle.fluent_semantics.specs.Bundle.{is_function, is_message, is_term, message_target, term_target};
ghost use Rattle.fluent_places.specs.Asked.{texts};
ghost use Rattle.fluent_places.specs.NeedsView.{need_view};
ghost use Rattle.fluent_patterns.specs.Found.{problem_view, AddsFlaws};
ghost use Rattle.fluent_patterns.specs.Missing.{function_lack, is_taken, lacking_message, lacking_term, missing, problem_of, unless_found};

use crate::finding::{Flaw, Problem};
use crate::names::is_one_of;
use crate::numbered::{add_problem, references};
use fluent_ast::ast::{Identifier, Pattern};
use fluent_bundle_entries::GetEntry;
use fluent_places::{Need, Place, pattern_at};
use std::alloc::{AllocError, Global};

/// Adds what is missing of the references of a pattern, where an application has these functions too.
pub(crate) fn add_missing<'s, F, B: GetEntry<'s, F>>(
    alloc: Global,
    bundle: &B,
    functions: &[&str],
    pattern: &Pattern<'s>,
    flaws: &mut Vec<Flaw<'s>>,
) -> Result<(), AllocError>
    ensures { OnOk result
        (AddsFlaws (missing (B.named bundle.now) (texts functions.now) (pattern_view pattern.now)) flaws.old flaws.new) }
{
    let list = references(alloc, pattern)?;
    for (number, need) in list.iter().enumerate() {
        add_problem(number, problem_of(bundle, functions, need), flaws)?;
    }
    Ok(())
}

/// What is missing of a reference.
fn problem_of<'s, F, B: GetEntry<'s, F>>(
    bundle: &B,
    functions: &[&str],
    need: &Need<'_, 's>,
) -> Option<Problem<'s>>
    ensures { option_map problem_view result
        ≡ problem_of (B.named bundle.now) (texts functions.now) (need_view need.now) }
{
    match need {
        Need::Message(id, attribute) => message_problem(bundle, id, attribute),
        Need::Term(id, attribute, _) => term_problem(bundle, id, attribute),
        Need::Function(id) => function_problem(bundle, functions, id.name),
        Need::Variable(_) | Need::Default => None,
    }
}

/// What is missing of a message.
fn message_problem<'s, F, B: GetEntry<'s, F>>(
    bundle: &B,
    id: &Identifier<'s>,
    attribute: &Option<Identifier<'s>>,
) -> Option<Problem<'s>>
    ensures { let named = B.named bundle.now id.now.name.now in
        let a = attribute_of attribute.now in
        option_map problem_view result
        ≡ unless_found (message_target named a) (lacking_message (is_message named) id.now.name.now a) }
{
    if let Some(_) = pattern_at(bundle, &Place::Message(*id, *attribute)) {
        return None;
    }
    Some(lacking_message(bundle, id.name, attribute))
}

/// What a message lacks that is referred to.
fn lacking_message<'s, F, B: GetEntry<'s, F>>(
    bundle: &B,
    id: &'s str,
    attribute: &Option<Identifier<'s>>,
) -> Problem<'s>
    ensures { problem_view result
        ≡ lacking_message (is_message (B.named bundle.now id.now)) id.now (attribute_of attribute.now) }
{
    match bundle.get_entry_message(id) {
        None => Problem::MissingMessage { id },
        Some(_) => match attribute {
            None => Problem::MissingValue { id },
            Some(name) => Problem::MissingAttribute {
                id,
                attribute: name.name,
            },
        },
    }
}

/// What is missing of a term.
fn term_problem<'s, F, B: GetEntry<'s, F>>(
    bundle: &B,
    id: &Identifier<'s>,
    attribute: &Option<Identifier<'s>>,
) -> Option<Problem<'s>>
    ensures { let named = B.named bundle.now id.now.name.now in
        let a = attribute_of attribute.now in
        option_map problem_view result
        ≡ unless_found (term_target named a) (lacking_term (is_term named) id.now.name.now a) }
{
    if let Some(_) = pattern_at(bundle, &Place::Term(*id, *attribute)) {
        return None;
    }
    Some(lacking_term(bundle, id.name, attribute))
}

/// What a term lacks that is referred to: an attribute, where the term is there, since each has a value.
fn lacking_term<'s, F, B: GetEntry<'s, F>>(
    bundle: &B,
    id: &'s str,
    attribute: &Option<Identifier<'s>>,
) -> Problem<'s>
    ensures { problem_view result
        ≡ lacking_term (is_term (B.named bundle.now id.now)) id.now (attribute_of attribute.now) }
{
    match attribute {
        None => Problem::MissingTerm { id },
        Some(name) => match bundle.get_entry_term(id) {
            None => Problem::MissingTerm { id },
            Some(_) => Problem::MissingTermAttribute {
                id,
                attribute: name.name,
            },
        },
    }
}

/// What is missing of a function.
fn function_problem<'s, F, B: GetEntry<'s, F>>(
    bundle: &B,
    functions: &[&str],
    id: &'s str,
) -> Option<Problem<'s>>
    ensures { option_map problem_view result
        ≡ function_lack (B.named bundle.now) (texts functions.now) id.now }
{
    if is_function(bundle, id) {
        return None;
    }
    if is_taken(bundle, id) {
        return Some(Problem::NotAFunction { id });
    }
    if is_one_of(functions, id) {
        return None;
    }
    Some(Problem::MissingFunction { id })
}

/// Whether a message or a term of the bundle has an id.
fn is_taken<'s, F, B: GetEntry<'s, F>>(bundle: &B, id: &str) -> bool
    ensures { result ≡ is_taken (B.named bundle.now id.now) }
{
    bundle.get_entry_message(id).is_some() || bundle.get_entry_term(id).is_some()
}

/// Whether the bundle has a function.
fn is_function<'s, F, B: GetEntry<'s, F>>(bundle: &B, id: &str) -> bool
    ensures { result ≡ is_function (B.named bundle.now id.now) }
{
    match bundle.get_entry_function(id) {
        Some(_) => true,
        None => false,
    }
}

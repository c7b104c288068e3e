//! References of a pattern, by their numbers.

ghost use Rattle.std.specs.Prelude.{◌≡◌, IfOk, OnOk, map};
ghost use Rattle.std.specs.Option.{option_map};
ghost use Rattle.fluent_ast.specs.View.{pattern_view};
ghost use Rattle.fluent_places.specs.NeedsView.{need_view, needs_view};
ghost use Rattle.fluent_patterns.specs.Found.{problem_view, AddsFlaws};
ghost use Rattle.fluent_patterns.specs.Numbered.{at_reference, if_any, is_reference, references};

use crate::finding::{Flaw, Part, Problem};
use fluent_ast::ast::Pattern;
use fluent_places::{Need, needs};
use std::alloc::{AllocError, Global};

/// What a pattern refers to, in the order of the tree: messages, terms, functions and variables. The number of a reference
/// is its index.
pub(crate) fn references<'t, 's>(
    alloc: Global,
    pattern: &'t Pattern<'s>,
) -> Result<Vec<Need<'t, 's>>, AllocError>
    ensures { IfOk result (λ list. needs_view list ≡ references (pattern_view pattern.now)) }
{
    let all = needs(alloc, pattern)?;
    let mut list = Vec::new(alloc);
    for need in &all {
        if is_reference(need) {
            list.push(*need)?;
        }
    }
    Ok(list)
}

/// Whether a need is a reference.
fn is_reference(need: &Need<'_, '_>) -> bool
    ensures { result ≡ is_reference (need_view need.now) }
{
    match need {
        Need::Message(..) | Need::Term(..) | Need::Function(_) | Need::Variable(_) => true,
        Need::Default => false,
    }
}

/// Adds a problem of a reference, if there is one.
pub(crate) fn add_problem<'s>(
    number: usize,
    problem: Option<Problem<'s>>,
    flaws: &mut Vec<Flaw<'s>>,
) -> Result<(), AllocError>
    ensures { OnOk result
        (AddsFlaws (at_reference number (if_any (option_map problem_view problem.entry))) flaws.old flaws.new) }
{
    if let Some(problem) = problem {
        flaws.push(Flaw {
            part: Part::Reference(number),
            problem,
        })?;
    }
    Ok(())
}

/// Adds problems of a reference.
pub(crate) fn add_problems<'s>(
    number: usize,
    problems: &[Problem<'s>],
    flaws: &mut Vec<Flaw<'s>>,
) -> Result<(), AllocError>
    ensures { OnOk result
        (AddsFlaws (at_reference number (map problem_view problems.now)) flaws.old flaws.new) }
{
    for problem in problems {
        flaws.push(Flaw {
            part: Part::Reference(number),
            problem: *problem,
        })?;
    }
    Ok(())
}

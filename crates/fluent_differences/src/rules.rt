//! What is told of what a translation and its reference refer to.

ghost use Rattle.std.specs.Prelude.{◌≡◌};
ghost use Rattle.std.specs.Option.{option_map};
ghost use Rattle.fluent_places.specs.Asked.{texts};
ghost use Rattle.fluent_places.specs.Places.{views};
ghost use Rattle.fluent_places.specs.NeedsView.{need_view};
ghost use Rattle.fluent_patterns.specs.Found.{flaw_view, problem_view, whole};
ghost use Rattle.fluent_differences.specs.Compared.{Rule, of_functions_left_out, of_terms_left_out, of_unknown_variables, of_variables_left_out, told_unless, told_view};

use crate::among::{has, stands};
use fluent_patterns::{Flaw, Part, Problem};
use fluent_places::{Need, Place};
use indexmap::IndexSet;

/// What is told of a name.
#[derive(Clone, Copy, Drop)]
pub(crate) struct Told<'s> {
    pub name: &'s str,
    pub flaw: Flaw<'s>,
}

/// A rule for what one of them refers to.
pub(crate) trait Rule<'s> {
    ghost rule: { Self → Rule };

    /// What is told of a reference with this number, if anything is.
    fn told(&self, number: usize, need: &Need<'_, 's>) -> Option<Told<'s>>
        ensures { option_map told_view result ≡ rule self.now number (need_view need.now) };
}

/// Of variables for which the reference doesn't ask.
#[derive(Clone, Copy, Drop)]
pub(crate) struct UnknownVariables<'p, 's> {
    /// Those for which it does.
    pub asked: &'p IndexSet<&'s str>,
}

/// Of variables that the reference shows and for which the translation doesn't ask.
#[derive(Clone, Copy, Drop)]
pub(crate) struct VariablesLeftOut<'p, 's> {
    /// Those for which it does.
    pub asked: &'p IndexSet<&'s str>,
    /// Those that the reference shows.
    pub shows: &'p IndexSet<&'s str>,
}

/// Of terms to which the translation doesn't refer, though it has them.
#[derive(Clone, Copy, Drop)]
pub(crate) struct TermsLeftOut<'p, 's> {
    /// Where its patterns stand.
    pub places: &'p IndexSet<Place<'s>>,
    /// Those to which it refers.
    pub terms: &'p IndexSet<&'s str>,
}

/// Of functions whose answers the reference shows, and which the translation doesn't call.
#[derive(Clone, Copy, Drop)]
pub(crate) struct FunctionsLeftOut<'p, 's> {
    /// Those that it does.
    pub called: &'p IndexSet<&'s str>,
    /// Those whose answers the reference shows.
    pub shows: &'p IndexSet<&'s str>,
}

fn told_unless<'s>(is_known: bool, name: &'s str, flaw: Flaw<'s>) -> Option<Told<'s>>
    ensures { option_map told_view result ≡ told_unless is_known name.now (flaw_view flaw.entry) }
{
    if is_known {
        None
    } else {
        Some(Told { name, flaw })
    }
}

/// A problem of the whole.
fn of_whole<'s>(problem: Problem<'s>) -> Flaw<'s>
    ensures { flaw_view result ≡ (whole, problem_view problem.entry) }
{
    Flaw {
        part: Part::Whole,
        problem,
    }
}

impl<'s> Rule<'s> for UnknownVariables<'_, 's> {
    ghost rule = { λ r. of_unknown_variables (texts r.asked.now.keys) };

    fn told(&self, number: usize, need: &Need<'_, 's>) -> Option<Told<'s>> {
        let Need::Variable(id) = need else {
            return None;
        };
        let flaw = Flaw {
            part: Part::Reference(number),
            problem: Problem::UnknownVariable { variable: id.name },
        };
        told_unless(has(self.asked, id.name), id.name, flaw)
    }
}

impl<'s> Rule<'s> for VariablesLeftOut<'_, 's> {
    ghost rule = { λ r. of_variables_left_out (texts r.asked.now.keys) (texts r.shows.now.keys) };

    fn told(&self, _number: usize, need: &Need<'_, 's>) -> Option<Told<'s>> {
        let Need::Variable(id) = need else {
            return None;
        };
        let flaw = of_whole(Problem::VariableLeftOut { variable: id.name });
        told_unless(
            has(self.asked, id.name) || !has(self.shows, id.name),
            id.name,
            flaw,
        )
    }
}

impl<'s> Rule<'s> for TermsLeftOut<'_, 's> {
    ghost rule = { λ r. of_terms_left_out (views r.places.now.keys) (texts r.terms.now.keys) };

    fn told(&self, _number: usize, need: &Need<'_, 's>) -> Option<Told<'s>> {
        let Need::Term(id, attribute, _) = need else {
            return None;
        };
        let term = Place::Term(*id, *attribute);
        if !stands(self.places, &term) {
            return None;
        }
        let flaw = of_whole(Problem::TermLeftOut { term });
        told_unless(has(self.terms, id.name), id.name, flaw)
    }
}

impl<'s> Rule<'s> for FunctionsLeftOut<'_, 's> {
    ghost rule = { λ r. of_functions_left_out (texts r.called.now.keys) (texts r.shows.now.keys) };

    fn told(&self, _number: usize, need: &Need<'_, 's>) -> Option<Told<'s>> {
        let Need::Function(id) = need else {
            return None;
        };
        let flaw = of_whole(Problem::FunctionLeftOut { id: id.name });
        told_unless(
            id.name == "NUMBER" || has(self.called, id.name) || !has(self.shows, id.name),
            id.name,
            flaw,
        )
    }
}

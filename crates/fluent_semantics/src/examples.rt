//! Worked examples of the meanings, each a text and its errors.

ghost use Rattle.fluent_semantics.specs.ExamplesText as texts;
ghost use Rattle.fluent_semantics.specs.ExamplesReferences as references;
ghost use Rattle.fluent_semantics.specs.ExamplesArguments as arguments;
ghost use Rattle.fluent_semantics.specs.ExamplesLimit as limits;
ghost use Rattle.fluent_semantics.specs.ExamplesWork as work;

/// Texts, variables, escapes, numbers and values.
pub fn texts_and_values()
    ensures variables { texts.Variables }
    ensures settings { texts.Settings }
    ensures escapes { texts.Escapes }
    ensures numbers { texts.Numbers }
    ensures values { texts.Values }
    ensures selects { texts.Selects }
{}

/// References to messages, terms, functions and attributes, the calls that add them, and what the laws of both speak of.
pub fn references()
    ensures cycles { references.Cycles }
    ensures terms { references.Terms }
    ensures lost { references.Lost }
    ensures functions { references.Functions }
    ensures adding { references.Adding }
    ensures premises { references.Premises }
    ensures errors { references.ErrorTexts }
{}

/// Expressions as selectors and as arguments, and the options that arguments give to a number.
pub fn selectors_and_arguments()
    ensures selectors { arguments.Selectors }
    ensures handed { arguments.Handed }
    ensures options { arguments.Options }
{}

/// The limit on placeables.
pub fn limits()
    ensures hundred { limits.Hundred }
    ensures others { limits.Limits }
{}

/// What is meant without a limit, what stands at the limit, the work of a run and the sizes that bound it, and the calls of a scope.
pub fn work_and_scopes()
    ensures substituted { work.Substituted }
    ensures reaches_limit { work.ReachesLimit }
    ensures counts { work.Counts }
    ensures sizes { work.Sizes }
    ensures scopes { work.Scopes }
{}

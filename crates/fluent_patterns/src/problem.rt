//! The name of a problem, and whether it is an error.

ghost use Rattle.std.specs.Prelude.{◌≡◌};
ghost use Rattle.fluent_patterns.specs.Found.{problem_view};
ghost use Rattle.fluent_patterns.specs.Problems.{is_error, name_of};

use crate::finding::Problem;

impl Problem<'_> {
    /// Its name, as an option or a report has it.
    pub fn name(&self) -> &'static str
        ensures { result.now ≡ name_of (problem_view self.now) }
    {
        match self {
            Problem::Unreadable { .. } => "unreadable",
            Problem::TakenId { .. } => "id-taken",
            Problem::FunctionId => "function-id",
            Problem::RepeatedAttribute => "repeated-attribute",
            Problem::MissingMessage { .. } => "missing-message",
            Problem::MissingAttribute { .. } => "missing-attribute",
            Problem::MissingValue { .. } => "missing-value",
            Problem::MissingTerm { .. } => "missing-term",
            Problem::MissingTermAttribute { .. } => "missing-term-attribute",
            Problem::MissingFunction { .. } => "missing-function",
            Problem::NotAFunction { .. } => "not-a-function",
            Problem::Cycle { .. } => "cycle",
            Problem::TooManyPlaceables { .. } => "too-many-placeables",
            Problem::MayOpenTooMany { .. } => "may-open-too-many",
            Problem::LeadsTo { .. } => "refers-to-unclean",
            Problem::NotGiven { .. } => "variable-not-given",
            Problem::UnusedArgument { .. } => "unused-argument",
            Problem::NoNumber => "not-a-number",
            Problem::NoCategory { .. } => "plural-category",
            Problem::NeverComes { .. } => "unused-category",
            Problem::RepeatedVariant { .. } => "repeated-variant",
            Problem::ValueNotTranslated => "not-translated",
            Problem::ValueNotInReference => "not-in-reference",
            Problem::NotTranslated => "not-translated",
            Problem::NotInReference => "not-in-reference",
            Problem::UnknownVariable { .. } => "unknown-variable",
            Problem::VariableLeftOut { .. } => "variable-left-out",
            Problem::TermLeftOut { .. } => "term-left-out",
            Problem::FunctionLeftOut { .. } => "function-left-out",
        }
    }

    /// Whether it is an error; the others are warnings.
    pub fn is_error(&self) -> bool
        ensures { result ≡ is_error (problem_view self.now) }
    {
        match self {
            Problem::RepeatedAttribute
            | Problem::MissingFunction { .. }
            | Problem::MayOpenTooMany { .. }
            | Problem::NotGiven { .. }
            | Problem::UnusedArgument { .. }
            | Problem::NoNumber
            | Problem::NoCategory { .. }
            | Problem::NeverComes { .. }
            | Problem::RepeatedVariant { .. }
            | Problem::NotInReference
            | Problem::ValueNotInReference
            | Problem::VariableLeftOut { .. }
            | Problem::TermLeftOut { .. }
            | Problem::FunctionLeftOut { .. } => false,
            _ => true,
        }
    }
}

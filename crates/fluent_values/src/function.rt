//! Functions of the application, which messages call by name.
ghost use Rattle.std.specs.Prelude.{◌≡◌, List, IfOk, IsOk};
ghost use Rattle.fluent_ast.specs.Tree.{Text};
ghost use Rattle.fluent_semantics.specs.Value.{Value, error_value};
ghost use Rattle.fluent_semantics.specs.Arguments.{Map};
ghost use Rattle.fluent_values.specs.View.{value_view};
ghost use Rattle.fluent_values.specs.Answers.{IsAnswer};

mod function_of;

use crate::args::FluentArgs;
use crate::types::{FluentType, FluentValue};
pub use function_of::{AnswerRule, Answering, FunctionOf};
use std::alloc::{AllocError, Global};

/// A function of the application. A bundle has one type for all of its functions, as an enum of them.
pub trait FluentFunction<C: FluentType>: Drop {
    /// The answer to positional and named arguments, by their content.
    ghost answer: { Self → List (Value Text) → Map (Value Text) → Value Text };

    /// Answers positional and named arguments: `FluentValue::Error` where it can make no sense of them.
    ///
    /// # Errors
    ///
    /// An allocation failed.
    fn call<'a>(
        &self,
        alloc: Global,
        positional: &[FluentValue<'a, C>],
        arguments: &FluentArgs<'a, C>,
    ) -> Result<FluentValue<'a, C>, AllocError>
        ensures { IfOk result (IsAnswer C.content (answer self.now) positional.now arguments.now) };
}

/// No function of the application's own: whatever it is asked, it answers an error.
#[derive(Clone, Copy, Drop)]
pub struct NoFunction;

impl<C: FluentType> FluentFunction<C> for NoFunction {
    ghost answer = { λ _ _ _. error_value };

    fn call<'a>(
        &self,
        _alloc: Global,
        _positional: &[FluentValue<'a, C>],
        _arguments: &FluentArgs<'a, C>,
    ) -> Result<FluentValue<'a, C>, AllocError>
        ensures error { IfOk result (λ v. value_view C.content v ≡ error_value) }
        ensures succeeds { IsOk result }
    {
        Ok(FluentValue::Error)
    }
}

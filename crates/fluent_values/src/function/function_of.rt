//! A function kept beside the fact of what it answers.
ghost use Rattle.std.specs.Prelude.{◌≡◌, List, Ok, IfOk};
ghost use Rattle.fluent_ast.specs.Tree.{Text};
ghost use Rattle.fluent_semantics.specs.Value.{Value};
ghost use Rattle.fluent_semantics.specs.Arguments.{Map};
ghost use Rattle.fluent_values.specs.Answers.{IsAnswer};

use crate::args::FluentArgs;
use crate::function::FluentFunction;
use crate::types::{FluentType, FluentValue};
use std::alloc::{AllocError, Global};
use std::marker::{Model, PhantomData};

/// What a function answers: a type that names a rule, and has no calls.
pub trait AnswerRule<C: FluentType> {
    /// The answer to positional and named arguments, by their content.
    ghost answer: { List (Value Text) → Map (Value Text) → Value Text };
}

/// What answers by a rule where it is ready. Each function of the shape of [`FluentFunction::call`] is one.
pub trait Answering<C: FluentType, N: AnswerRule<C>> {
    /// It may be called on all arguments, and answers by the rule.
    ghost ready: { Self → Type 0 };

    /// Answers by the rule.
    ///
    /// # Errors
    ///
    /// An allocation failed.
    fn reply<'a>(
        &self,
        alloc: Global,
        positional: &[FluentValue<'a, C>],
        arguments: &FluentArgs<'a, C>,
    ) -> Result<FluentValue<'a, C>, AllocError>
        requires { ready self.now }
        ensures { IfOk result (IsAnswer C.content N.answer positional.now arguments.now) };
}

impl<C: FluentType, K, N: AnswerRule<C>> Answering<C, N> for K
where
    K: for<'a> Fn(
        Global,
        &[FluentValue<'a, C>],
        &FluentArgs<'a, C>,
    ) -> Result<FluentValue<'a, C>, AllocError>,
{
    ghost ready = { λ f. K.IsAlwaysCallable f × ((alloc : _) (positional : _) (arguments : _) (v : _) → K.post f alloc positional arguments (Ok v) → IsAnswer C.content N.answer positional.now arguments.now v) };

    fn reply<'a>(
        &self,
        alloc: Global,
        positional: &[FluentValue<'a, C>],
        arguments: &FluentArgs<'a, C>,
    ) -> Result<FluentValue<'a, C>, AllocError> {
        self(alloc, positional, arguments)
    }
}

/// A function of the application with the fact that it may be called on all arguments and answers by the rule
/// that `N` names.
///
/// What is done with one stands in a function that is generic in `K`, here `kept`. It is called with the name of a
/// function, which needs nothing else. A closure is handed to it by a second function, whose bound gives the closure
/// its shape, here `closure`: the call is `closure(|alloc, positional, named| ..)`.
///
/// ```text
/// fn kept<K: Answering<C, N> + Drop>(answers: K)
///     requires { K.ready answers }
/// {
///     let function = FunctionOf::<C, K, N>::new(answers); // and all that is done with it
/// }
///
/// fn closure<K>(answers: K)
/// where
///     K: for<'a> Fn(Global, &[FluentValue<'a, C>], &FluentArgs<'a, C>)
///             -> Result<FluentValue<'a, C>, AllocError> + Drop,
///     requires { ⟦<K as Answering<C, N>>⟧.ready answers }
/// {
///     kept(answers)
/// }
/// ```
#[derive(Drop)]
pub struct FunctionOf<C: FluentType, K: Answering<C, N>, N: AnswerRule<C>> {
    closure: K,
    rule: PhantomData<(C, N)>,
}

impl<C: FluentType, K: Answering<C, N>, N: AnswerRule<C>> Model for FunctionOf<C, K, N> {
    ghost Value = { K };

    ghost view = { λ f. f.closure };

    ghost invariant = { λ f. K.ready f.closure };
}

impl<C: FluentType, K: Answering<C, N>, N: AnswerRule<C>> FunctionOf<C, K, N> {
    /// Keeps a function. Whoever makes one shows that the function answers by the rule; nobody who calls it
    /// has to.
    pub fn new(closure: K) -> Self
        requires { K.ready closure }
        ensures { result ≡ closure }
    {
        FunctionOf {
            closure,
            rule: PhantomData,
        }
    }
}

impl<C: FluentType, K: Answering<C, N> + Drop, N: AnswerRule<C>> FluentFunction<C>
    for FunctionOf<C, K, N> {
    ghost answer = { λ _. N.answer };

    fn call<'a>(
        &self,
        alloc: Global,
        positional: &[FluentValue<'a, C>],
        arguments: &FluentArgs<'a, C>,
    ) -> Result<FluentValue<'a, C>, AllocError> {
        self.closure.reply(alloc, positional, arguments)
    }
}

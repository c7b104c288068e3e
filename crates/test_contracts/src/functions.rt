//! Functions of an application that are kept with the rule by which they answer.
ghost use Rattle.std.specs.Prelude.{◌≡◌, [], map, unwrap_or, slice_get, codes, IfOk};
ghost use Rattle.fluent_semantics.specs.Value.{text_value, error_value};
ghost use Rattle.fluent_values.specs.View.{value_view};
ghost use Rattle.fluent_values.specs.Answers.{IsAnswer};

use fluent_values::types::{FluentValue, NoCustom};
use fluent_values::{AnswerRule, Answering, FluentArgs, FluentFunction, FunctionOf};
use std::alloc::{AllocError, Global};

/// The first positional value, or an error where there is none.
struct FirstValue;

impl AnswerRule<NoCustom> for FirstValue {
    ghost answer = { λ positional _. unwrap_or (slice_get positional 0) error_value };
}

fn first<'a>(
    alloc: Global,
    positional: &[FluentValue<'a, NoCustom>],
    _arguments: &FluentArgs<'a, NoCustom>,
) -> Result<FluentValue<'a, NoCustom>, AllocError>
    ensures { IfOk result (λ v. value_view (λ _. []) v
        ≡ unwrap_or (slice_get (map (value_view (λ _. [])) positional.now) 0) error_value) }
{
    match positional.first() {
        Some(value) => value.try_clone(alloc),
        None => Ok(FluentValue::Error),
    }
}

/// Always the text `hello`.
struct Greeting;

impl AnswerRule<NoCustom> for Greeting {
    ghost answer = { λ _ _. text_value (codes "hello") };
}

/// What a function that is kept answers.
fn kept_answer<'a, K: Answering<NoCustom, N> + Drop, N: AnswerRule<NoCustom>>(
    alloc: Global,
    closure: K,
    positional: &[FluentValue<'a, NoCustom>],
    arguments: &FluentArgs<'a, NoCustom>,
) -> Result<FluentValue<'a, NoCustom>, AllocError>
    requires { K.ready closure }
    ensures { IfOk result (IsAnswer (λ _. []) N.answer positional.now arguments.now) }
{
    FunctionOf::<NoCustom, K, N>::new(closure).call(alloc, positional, arguments)
}

/// The same of a closure, whose shape the bound gives it.
fn closure_answer<'a, K, N: AnswerRule<NoCustom>>(
    alloc: Global,
    closure: K,
    positional: &[FluentValue<'a, NoCustom>],
    arguments: &FluentArgs<'a, NoCustom>,
) -> Result<FluentValue<'a, NoCustom>, AllocError>
where
    K: for<'b> Fn(
        Global,
        &[FluentValue<'b, NoCustom>],
        &FluentArgs<'b, NoCustom>,
    ) -> Result<FluentValue<'b, NoCustom>, AllocError>
        + Drop,
    requires { ⟦<K as Answering<NoCustom, N>>⟧.ready closure }
    ensures { IfOk result (IsAnswer (λ _. []) N.answer positional.now arguments.now) }
{
    kept_answer::<K, N>(alloc, closure, positional, arguments)
}

/// The first positional value, by a function.
pub fn first_by_function<'a>(
    alloc: Global,
    positional: &[FluentValue<'a, NoCustom>],
    arguments: &FluentArgs<'a, NoCustom>,
) -> Result<FluentValue<'a, NoCustom>, AllocError>
    ensures { IfOk result (IsAnswer (λ _. []) ⟦<FirstValue as AnswerRule<NoCustom>>⟧.answer positional.now arguments.now) }
{
    kept_answer::<_, FirstValue>(alloc, first, positional, arguments)
}

/// The same by a closure.
pub fn first_by_closure<'a>(
    alloc: Global,
    positional: &[FluentValue<'a, NoCustom>],
    arguments: &FluentArgs<'a, NoCustom>,
) -> Result<FluentValue<'a, NoCustom>, AllocError>
    ensures { IfOk result (IsAnswer (λ _. []) ⟦<FirstValue as AnswerRule<NoCustom>>⟧.answer positional.now arguments.now) }
{
    closure_answer::<_, FirstValue>(
        alloc,
        |alloc, positional, _arguments| match positional.first() {
            Some(value) => value.try_clone(alloc),
            None => Ok(FluentValue::Error),
        },
        positional,
        arguments,
    )
}

/// What a closure has captured.
pub fn captured<'a>(
    alloc: Global,
    positional: &[FluentValue<'a, NoCustom>],
    arguments: &FluentArgs<'a, NoCustom>,
) -> Result<FluentValue<'a, NoCustom>, AllocError>
    ensures { IfOk result (IsAnswer (λ _. []) ⟦<Greeting as AnswerRule<NoCustom>>⟧.answer positional.now arguments.now) }
{
    let greeting = "hello";
    closure_answer::<_, Greeting>(
        alloc,
        move |_alloc, _positional, _arguments| Ok(FluentValue::from(greeting)),
        positional,
        arguments,
    )
}

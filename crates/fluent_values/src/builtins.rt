//! The functions that a bundle can have built in.
ghost use Rattle.std.specs.Prelude.{IfOk, OnErr};
ghost use Rattle.fluent_semantics.specs.Arguments.{number_function};
ghost use Rattle.fluent_values.specs.Answers.{IsAnswer, IsForCurrency};

use crate::args::FluentArgs;
use crate::types::{FluentType, FluentValue, MergeArgs};
use std::alloc::{AllocError, Global};

/// The first positional value, if it is a number, with its options merged with the named arguments. Otherwise
/// `FluentValue::Error`.
///
/// # Errors
///
/// An allocation failed, which only a currency can meet, of the number or of the arguments.
#[allow(non_snake_case)]
pub fn NUMBER<'a, C: FluentType>(
    alloc: Global,
    positional: &[FluentValue<'a, C>],
    arguments: &FluentArgs<'a, C>,
) -> Result<FluentValue<'a, C>, AllocError>
    ensures same { IfOk result (IsAnswer C.content number_function positional.now arguments.now) }
    ensures memory { OnErr result (IsForCurrency C.content positional.now arguments.now) }
{
    match positional.first() {
        Some(FluentValue::Number(number)) => {
            let mut number = number.try_clone(alloc)?;
            number.options.merge(alloc, arguments)?;
            Ok(FluentValue::Number(number))
        }
        _ => Ok(FluentValue::Error),
    }
}

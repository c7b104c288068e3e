//! The function that messages of this program call.
use crate::date::Date;
use fluent_bundle::{FluentArgs, FluentFunction, FluentValue};
use std::alloc::{AllocError, Global};
use std::borrow::CowStr;

/// A text in capital letters.
#[derive(Clone, Copy, Drop)]
pub struct Upper;

impl FluentFunction<Date> for Upper {
    ghost use Rattle.example_mailbox.specs.Upper.{upper};

    ghost answer = { λ _ positional _. upper positional };

    fn call<'a>(
        &self,
        alloc: Global,
        positional: &[FluentValue<'a, Date>],
        _named: &FluentArgs<'a, Date>,
    ) -> Result<FluentValue<'a, Date>, AllocError> {
        match positional.first() {
            Some(FluentValue::String(text)) => Ok(FluentValue::String(CowStr::Owned(
                text.as_str().to_uppercase(alloc)?,
            ))),
            _ => Ok(FluentValue::Error),
        }
    }
}

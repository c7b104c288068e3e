//! What an application hands to a bundle: functions, a formatter and a transform.
use fluent_bundle::{
    FluentArgs, FluentFormatter, FluentFunction, FluentValue, NoCustom, Transform,
};
use fluent_intl::EnglishPlurals;
use std::alloc::{AllocError, Global};

/// A function by what it answers.
#[derive(Clone, Copy, Drop)]
pub enum Own {
    Nothing,
    /// The first positional value, or an error where there is none.
    First,
}

impl FluentFunction<NoCustom> for Own {
    ghost use Rattle.std.specs.Prelude.{slice_get, unwrap_or};
    ghost use Rattle.fluent_semantics.specs.Value.{no_value, error_value};
    ghost use Rattle.test_contracts.specs.declared.own.Own.TheVariants as own;

    ghost answer = { λ f positional _. elim f [
      | own.Nothing ↦ no_value
      | own.First ↦ unwrap_or (slice_get positional 0) error_value
    ] };

    fn call<'a>(
        &self,
        alloc: Global,
        positional: &[FluentValue<'a, NoCustom>],
        _arguments: &FluentArgs<'a, NoCustom>,
    ) -> Result<FluentValue<'a, NoCustom>, AllocError> {
        match self {
            Own::Nothing => Ok(FluentValue::None),
            Own::First => match positional.first() {
                Some(value) => value.try_clone(alloc),
                None => Ok(FluentValue::Error),
            },
        }
    }
}

/// Shows each text between brackets.
#[derive(Clone, Copy, Drop)]
pub struct Bracketed;

impl FluentFormatter<NoCustom, EnglishPlurals> for Bracketed {
    ghost use Rattle.std.specs.Prelude.{◌++◌, codes, None, Some};
    ghost use Rattle.fluent_semantics.specs.Value.{text_value};

    ghost formatted = { λ _ v _. elim v [ text_value t ↦ Some ((codes "[" ++ t) ++ codes "]") | _ ↦ None ] };

    fn format<'a>(
        &self,
        alloc: Global,
        value: &FluentValue<'a, NoCustom>,
        _intls: &EnglishPlurals,
    ) -> Result<Option<String>, AllocError> {
        match value {
            FluentValue::String(text) => {
                let mut shown = String::from_str(alloc, "[")?;
                shown.push_str(text.as_str())?;
                shown.push_str("]")?;
                Ok(Some(shown))
            }
            _ => Ok(None),
        }
    }
}

/// Makes ASCII letters upper case.
#[derive(Clone, Copy, Drop)]
pub struct Upper;

impl Transform for Upper {
    ghost use Rattle.std.specs.Str.{str_to_ascii_uppercase};

    ghost changed = { λ _ t. str_to_ascii_uppercase t };

    fn transform(&self, alloc: Global, text: &str) -> Result<String, AllocError> {
        text.to_ascii_uppercase(alloc)
    }
}

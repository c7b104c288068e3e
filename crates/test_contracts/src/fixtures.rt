//! What the application of the fixtures hands to its bundles, beside a transform of `own`.
ghost use Rattle.std.specs.Prelude.{◌≡◌};
ghost use Rattle.fluent_values.specs.View.{value_view};
ghost use Rattle.test_contracts.specs.Fixtures.{kind_word};

use fluent_bundle::{
    FluentArgs, FluentFormatter, FluentFunction, FluentType, FluentValue, MemoizerKind,
    PluralCategory, PluralOperands, PluralRuleType,
};
use fluent_intl::EnglishPlurals;
use fluent_plural_rules::RuleTexts;
use std::alloc::{AllocError, Global};
use std::borrow::CowStr;

// ---- values

/// A custom value, whose text is a star.
#[derive(Clone, Copy, Drop)]
pub struct Star;

impl FluentType for Star {
    ghost use Rattle.std.specs.Prelude.{[], true, codes};

    ghost content = { λ _. [] };

    ghost shown = { λ _. codes "*" };

    ghost alike = { λ _ _. true };

    fn duplicate(&self, _alloc: Global) -> Result<Star, AllocError> {
        Ok(Star)
    }

    fn same(&self, _other: &Star) -> bool {
        true
    }

    fn as_string(&self, alloc: Global) -> Result<String, AllocError> {
        String::from_str(alloc, "*")
    }
}

// ---- functions

/// A function by what it answers, whatever it is asked or of what it is asked.
#[derive(Clone, Copy, Drop)]
pub enum Answer<'t> {
    Nothing,
    Fault,
    /// A custom value.
    Star,
    One,
    Text(&'t str),
    /// The first positional value, or an error where there is none.
    First,
    /// The second one.
    Second,
    /// The named argument `x`, or an error where there is none.
    Named,
    /// The length of its one text in bytes, or an error where it is asked anything else.
    Length,
}

impl<'t> FluentFunction<Star> for Answer<'t> {
    ghost use Rattle.std.specs.Prelude.{[], None, codes, pos, slice_get, unwrap_or};
    ghost use Rattle.fluent_intl.specs.Decimal.{whole};
    ghost use Rattle.fluent_intl.specs.Number.{number_with};
    ghost use Rattle.fluent_semantics.specs.Arguments.{get};
    ghost use Rattle.fluent_semantics.specs.Value.{text_value, number_value, custom_value, no_value, error_value};
    ghost use Rattle.test_contracts.specs.Fixtures.{length_of};
    ghost use Rattle.test_contracts.specs.declared.fixtures.Answer.TheVariants as own;

    ghost answer = { λ f positional named. elim f [
      | own.Nothing ↦ no_value
      | own.Fault ↦ error_value
      | own.Star ↦ custom_value []
      | own.One ↦ number_value (number_with (whole (pos 1)) None)
      | own.Text t ↦ text_value t.now
      | own.First ↦ unwrap_or (slice_get positional 0) error_value
      | own.Second ↦ unwrap_or (slice_get positional 1) error_value
      | own.Named ↦ unwrap_or (get (codes "x") named) error_value
      | own.Length ↦ length_of positional
    ] };

    fn call<'a>(
        &self,
        alloc: Global,
        positional: &[FluentValue<'a, Star>],
        arguments: &FluentArgs<'a, Star>,
    ) -> Result<FluentValue<'a, Star>, AllocError> {
        match self {
            Answer::Nothing => Ok(FluentValue::None),
            Answer::Fault => Ok(FluentValue::Error),
            Answer::Star => Ok(FluentValue::Custom(Star)),
            Answer::One => Ok(FluentValue::from(1u8)),
            Answer::Text(text) => Ok(FluentValue::String(CowStr::Owned(String::from_str(
                alloc, *text,
            )?))),
            Answer::First => match positional.first() {
                Some(value) => value.try_clone(alloc),
                None => Ok(FluentValue::Error),
            },
            Answer::Second => match positional.get(1) {
                Some(value) => value.try_clone(alloc),
                None => Ok(FluentValue::Error),
            },
            Answer::Named => match arguments.get("x") {
                Some(value) => value.try_clone(alloc),
                None => Ok(FluentValue::Error),
            },
            Answer::Length => match positional {
                [value] => match value {
                    FluentValue::String(text) => Ok(FluentValue::from(text.as_str().len())),
                    _ => Ok(FluentValue::Error),
                },
                _ => Ok(FluentValue::Error),
            },
        }
    }
}

// ---- formatters

/// A formatter by what it shows.
#[derive(Clone, Copy, Drop)]
pub enum Shows {
    /// Each value by its kind.
    Kinds,
    /// Each text between brackets.
    Brackets,
}

/// The word for the kind of a value.
fn kind_of(value: &FluentValue<'_, Star>) -> &'static str
    ensures { result.now ≡ kind_word (value_view ⟦<Star as FluentType>⟧.content value.now) }
{
    match value {
        FluentValue::String(_) => "text",
        FluentValue::Number(_) => "number",
        FluentValue::Custom(_) => "custom",
        FluentValue::None => "nothing",
        FluentValue::Error => "error",
    }
}

impl FluentFormatter<Star, Plurals> for Shows {
    ghost use Rattle.std.specs.Prelude.{Some};
    ghost use Rattle.test_contracts.specs.Fixtures.{kind_word, in_brackets};
    ghost use Rattle.test_contracts.specs.declared.fixtures.Shows.TheVariants as own;

    ghost formatted = { λ f v _. elim f [
      | own.Kinds ↦ Some (kind_word v)
      | own.Brackets ↦ in_brackets v
    ] };

    fn format<'a>(
        &self,
        alloc: Global,
        value: &FluentValue<'a, Star>,
        _intls: &Plurals,
    ) -> Result<Option<String>, AllocError> {
        match self {
            Shows::Kinds => Ok(Some(String::from_str(alloc, kind_of(value))?)),
            Shows::Brackets => match value {
                FluentValue::String(text) => {
                    let mut shown = String::from_str(alloc, "[")?;
                    shown.push_str(text.as_str())?;
                    shown.push_str("]")?;
                    Ok(Some(shown))
                }
                _ => Ok(None),
            },
        }
    }
}

// ---- plural rules

/// English, or rules that were read.
#[derive(Drop)]
pub enum Plurals {
    English,
    Rules(RuleTexts),
}

impl MemoizerKind for Plurals {
    ghost use Rattle.fluent_intl.specs.Plurals.{english};
    ghost use Rattle.fluent_plural_rules.specs.RuleTexts.{category_of};
    ghost use Rattle.test_contracts.specs.declared.fixtures.Plurals.TheVariants as own;

    ghost category = { λ p. elim p [ own.English ↦ english | own.Rules texts ↦ category_of texts ] };

    fn select(&self, kind: PluralRuleType, operands: &PluralOperands) -> PluralCategory {
        match self {
            Plurals::English => EnglishPlurals.select(kind, operands),
            Plurals::Rules(texts) => texts.select(kind, operands),
        }
    }
}

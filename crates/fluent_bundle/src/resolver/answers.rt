//! What a bundle answers to the resolver.
#![tactic(auto, unfolding(crate::specs::BundleView::bundle_parts))]

ghost use Rattle.std.specs.Prelude.{◌≡◌, string_bytes, Ok, None, IfOk, IsOk, IsTrue};
ghost use Rattle.std.specs.Option.{option_map};
ghost use Rattle.fluent_intl.specs.Number.{number_of};
ghost use Rattle.fluent_semantics.specs.Number.{category_word};
ghost use Rattle.fluent_semantics.specs.Value.{category_of};
ghost use Rattle.fluent_values.specs.View.{value_view};
ghost use Rattle.fluent_bundle.specs.BundleView.{ShownBy};

use crate::bundle::FluentBundle;
use fluent_intl::{MemoizerKind, PluralCategory, PluralOperands, PluralRuleType};
use fluent_resolver::Means;
use fluent_values::types::{FluentNumber, FluentNumberType, FluentType, FluentValue};
use fluent_values::{Context, FluentFormatter, FluentFunction, Transform};
use std::alloc::{AllocError, Global};
use std::borrow::CowStr;

impl<
    'r,
    's: 'r,
    M: MemoizerKind,
    C: FluentType,
    F: FluentFunction<C>,
    G: FluentFormatter<C, M>,
    T: Transform,
> Context<C> for FluentBundle<'r, 's, M, C, F, G, T> {
    ghost use Rattle.fluent_bundle.specs.BundleView.{alloc_in, formatter_in, meant, is_plain, shows_own};

    ghost meant = { λ b. meant M.category C.shown C.alike F.answer G.formatted T.changed b };

    ghost is_plain = { is_plain };

    ghost shows_own = { shows_own };

    ghost memory = { alloc_in };

    fn allocator(&self) -> Global {
        self.alloc
    }

    fn placeable_limit(&self) -> u32 {
        self.placeable_limit
    }

    fn uses_isolating(&self) -> bool {
        self.use_isolating
    }

    fn change<'t>(&self, text: &'t str) -> Result<CowStr<'t>, AllocError> {
        match &self.transform {
            Some(transform) => Ok(CowStr::Owned(transform.transform(self.alloc, text)?)),
            None => Ok(CowStr::Borrowed(text)),
        }
    }

    fn formatted(&self, value: &FluentValue<'_, C>) -> Result<Option<String>, AllocError>
        ensures answer { IfOk result (λ shown. option_map string_bytes shown
            ≡ (⟦<Self as Means>⟧.meaning self.now).formatter (value_view C.content value.now)) }
        ensures custom { (⟦<Self as Means>⟧.meaning self.now).custom
            ≡ record { text = C.shown; same = C.alike } }
        ensures own { IsTrue (shows_own self.now) → result ≡ Ok None }
        ensures succeeds { formatter_in self.now ≡ None → IsOk result }
    {
        formatted(self.alloc, &self.formatter, value, &self.intls)
    }

    fn category_word(&self, number: &FluentNumber) -> &'static str {
        category_word(category_of(&self.intls, number))
    }
}

/// The formatter's answer for a value. Where there is none, no memory is asked for.
pub(crate) fn formatted<M, C: FluentType, G: FluentFormatter<C, M>>(
    alloc: Global,
    formatter: &Option<G>,
    value: &FluentValue<'_, C>,
    intls: &M,
) -> Result<Option<String>, AllocError>
    ensures answer { IfOk result (ShownBy C.content G.formatted formatter.now value.now intls.now) }
    ensures own { formatter.now ≡ None → result ≡ Ok None }
    ensures succeeds { formatter.now ≡ None → IsOk result }
{
    match formatter {
        Some(formatter) => formatter.format(alloc, value, intls),
        None => Ok(None),
    }
}

/// The plural category of a number, by its type.
fn category_of<M: MemoizerKind>(intls: &M, number: &FluentNumber) -> PluralCategory
    ensures { result ≡ category_of (M.category intls.now) (number_of number.now) }
{
    let kind = match number.options.number_type {
        FluentNumberType::Cardinal => PluralRuleType::CARDINAL,
        FluentNumberType::Ordinal => PluralRuleType::ORDINAL,
    };
    intls.select(kind, &PluralOperands::from(number))
}

/// The word of a plural category, as it stands as the key of a variant.
pub fn category_word(category: PluralCategory) -> &'static str
    ensures { result.now ≡ category_word category }
{
    match category {
        PluralCategory::ZERO => "zero",
        PluralCategory::ONE => "one",
        PluralCategory::TWO => "two",
        PluralCategory::FEW => "few",
        PluralCategory::MANY => "many",
        PluralCategory::OTHER => "other",
    }
}

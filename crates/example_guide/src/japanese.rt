//! A plural source of one's own.
use crate::bundle::show_left;
use crate::showing::show;
use fluent_bundle::{
    FluentArgs, FluentBundle, FluentResource, FluentValue, MemoizerKind, NoCustom, NoFormatter,
    NoFunction, PluralCategory, PluralOperands, PluralRuleType,
};
use std::borrow::CowStr;
use std::io;

/// The plural rules of Japanese, which has one category for all numbers.
#[derive(Clone, Copy, Drop)]
pub struct Japanese;

impl MemoizerKind for Japanese {
    ghost use Rattle.fluent_intl.specs.declared.plurals.PluralCategory.TheVariants.{OTHER};

    ghost category = { λ _ _ _. OTHER };

    fn select(&self, _kind: PluralRuleType, _operands: &PluralOperands) -> PluralCategory {
        PluralCategory::OTHER
    }
}

/// A bundle with the plural rules of Japanese.
type Bundle<'r, 's> = FluentBundle<'r, 's, Japanese, NoCustom, NoFunction, NoFormatter>;

/// Shows a message for one, which is no `one` in Japanese.
pub fn show_one(rt: &HostRuntime, resource: &FluentResource<'_>) -> io::Result<()> {
    let alloc = rt.alloc();
    let mut bundle: Bundle<'_, '_> = FluentBundle::new(alloc, Vec::new(alloc), Japanese);
    show_left(rt, bundle.add_resource(resource))?;

    let mut args = FluentArgs::new(alloc);
    args.set(CowStr::Borrowed("count"), FluentValue::from(1))?;
    show(rt, &bundle, "emails", Some(&args))
}

//! What the keys of variants match.

ghost use Rattle.std.specs.Prelude.{◌≡◌, not, IfOk, OnOk};
ghost use Rattle.fluent_ast.specs.References.{variants_view};
ghost use Rattle.fluent_ast.specs.Tree.{number_key};
ghost use Rattle.fluent_ast.specs.View.{key_view};
ghost use Rattle.fluent_patterns.specs.Selects as spec;
ghost use Rattle.fluent_patterns.specs.SelectView.{sense_view, senses_view};

use fluent_ast::ast::{Variant, VariantKey};
use fluent_intl::Decimal;
use fluent_semantics::laws::numbers_read_as_defined;
use indexmap::IndexSet;
use std::alloc::{AllocError, Global};

/// What a key matches: a text, or a number.
#[derive(Clone, Copy, PartialEq, Eq, Hash, Drop)]
pub(crate) enum Sense<'s> {
    Text(&'s str),
    Number {
        is_negative: bool,
        whole: u64,
        /// In units of 10^-18.
        fraction: u64,
        /// The count of digits after the point, if it has one.
        places: Option<usize>,
    },
}

/// What a key matches: the number that it is, else its text.
pub(crate) fn sense_of<'s>(key: &VariantKey<'s>) -> Sense<'s>
    ensures { sense_view result ≡ spec.sense_of (key_view key.now) }
{
    match key {
        VariantKey::Identifier { name } => Sense::Text(name),
        VariantKey::NumberLiteral { value } => number_sense(value),
    }
}

/// What a key of digits matches.
fn number_sense<'s>(value: &'s str) -> Sense<'s>
    ensures { sense_view result ≡ spec.sense_of (number_key value.now) }
{
    numbers_read_as_defined();
    match Decimal::from_text(value) {
        Ok((number, places)) => Sense::Number {
            is_negative: number.is_negative(),
            whole: number.whole(),
            fraction: number.fraction(),
            places,
        },
        Err(_) => Sense::Text(value),
    }
}

/// What the key of a whole number matches.
pub(crate) fn whole_number(n: u64) -> Sense<'static>
    ensures { sense_view result ≡ spec.whole_number n }
{
    Sense::Number {
        is_negative: false,
        whole: n,
        fraction: 0,
        places: None,
    }
}

/// Whether one of some keys matches the same.
pub(crate) fn is_among<'s>(sense: &Sense<'s>, senses: &IndexSet<Sense<'s>>) -> bool
    ensures { result ≡ spec.is_among (sense_view sense.now) (senses_view senses.now) }
{
    senses.contains(sense)
}

/// Adds what a key matches, and says whether it is new.
pub(crate) fn add_sense<'s>(
    senses: &mut IndexSet<Sense<'s>>,
    sense: Sense<'s>,
) -> Result<bool, AllocError>
    ensures is_new { IfOk result
        (λ new. new ≡ not (spec.is_among (sense_view sense.entry) (senses_view senses.old))) }
    ensures added { OnOk result
        (senses_view senses.new
        ≡ spec.with_sense (senses_view senses.old) (sense_view sense.entry)) }
{
    Ok(senses.insert(sense)?)
}

/// What the keys of variants match, each once.
pub(crate) fn senses_of<'s>(
    alloc: Global,
    variants: &[Variant<'s>],
) -> Result<IndexSet<Sense<'s>>, AllocError>
    ensures { IfOk result
        (λ s. senses_view s ≡ spec.senses_of (spec.keys_of (variants_view variants.now))) }
{
    let mut senses: IndexSet<Sense<'s>> = IndexSet::new(alloc);
    for variant in variants {
        add_sense(&mut senses, sense_of(&variant.key))?;
    }
    Ok(senses)
}

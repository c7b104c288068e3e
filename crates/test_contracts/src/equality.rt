//! Equality is that of contents.
ghost use Rattle.std.specs.Prelude.{◌≡◌, ◌↔◌, IsTrue};
ghost use Rattle.fluent_ast.specs.View.{attribute_view};
ghost use Rattle.fluent_ast.specs.View as tree;
ghost use Rattle.fluent_intl.specs.declared.options.FluentNumberType.TheVariants.{Cardinal};
ghost use Rattle.fluent_intl.specs.declared.options.FluentNumberStyle.TheVariants.{Decimal as DecimalStyle};
ghost use Rattle.fluent_intl.specs.declared.options.FluentNumberCurrencyDisplayStyle.TheVariants.{Symbol};

use fluent_bundle::ast::{Attribute, Message};
use fluent_bundle::{FluentAttribute, FluentMessage};
use fluent_intl::{
    Decimal, FluentNumberCurrencyDisplayStyle, FluentNumberStyle, FluentNumberType, PluralCategory,
    PluralOperands, PluralRuleType,
};

pub fn same_messages<'m, 's>(a: &'m Message<'s>, b: &'m Message<'s>) -> bool
    ensures { IsTrue result ↔ (tree.message_view a.now ≡ tree.message_view b.now) }
{
    FluentMessage::from(a) == FluentMessage::from(b)
}

pub fn same_attributes<'m, 's>(a: &'m Attribute<'s>, b: &'m Attribute<'s>) -> bool
    ensures { IsTrue result ↔ (attribute_view a.now ≡ attribute_view b.now) }
{
    FluentAttribute::from(a) == FluentAttribute::from(b)
}

pub fn same_decimals(one: &Decimal, other: &Decimal) -> bool
    ensures { IsTrue result ↔ (one.now ≡ other.now) }
{
    one == other
}

/// One value of each type of an option.
pub type Words = (
    FluentNumberType,
    FluentNumberStyle,
    FluentNumberCurrencyDisplayStyle,
);

pub fn same_words(one: Words, other: Words) -> bool
    ensures { IsTrue result ↔ (one ≡ other) }
{
    one.0 == other.0 && one.1 == other.1 && one.2 == other.2
}

pub fn same_rules(
    one: (PluralRuleType, PluralCategory),
    other: (PluralRuleType, PluralCategory),
) -> bool
    ensures { IsTrue result ↔ (one ≡ other) }
{
    one.0 == other.0 && one.1 == other.1
}

pub fn same_operands(one: &PluralOperands, other: &PluralOperands) -> bool
    ensures { IsTrue result ↔ (one.now ≡ other.now) }
{
    one == other
}

/// The first variant is the default.
pub fn first_variants() -> Words
    ensures { result ≡ (Cardinal, DecimalStyle, Symbol) }
{
    (
        FluentNumberType::default(),
        FluentNumberStyle::default(),
        FluentNumberCurrencyDisplayStyle::default(),
    )
}

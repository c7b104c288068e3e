//! The options of a number, which are those of Fluent's builtin function `NUMBER`.
ghost use Rattle.std.specs.Prelude.{◌≡◌, ◌↔◌, IfOk, IsTrue, IfNone, IsOk};
ghost use Rattle.fluent_intl.specs.Options.{type_named, style_named, currency_display_named, options_of, default_options};
ghost use Rattle.fluent_intl.specs.SameContent.{same_kinds, same_digits};

use std::alloc::{AllocError, Global};
use std::hash::Hash;

/// Which plural rules a number goes by.
#[derive(Clone, Copy, Default, PartialEq, Eq, Hash)]
pub enum FluentNumberType {
    #[default]
    Cardinal,
    Ordinal,
}

impl From<&str> for FluentNumberType {
    ghost from_gives = { λ text kind. kind ≡ type_named text.now };

    fn from(text: &str) -> FluentNumberType {
        match text {
            "ordinal" => FluentNumberType::Ordinal,
            _ => FluentNumberType::Cardinal,
        }
    }
}

/// What a number counts.
#[derive(Clone, Copy, Default, PartialEq, Eq, Hash)]
pub enum FluentNumberStyle {
    #[default]
    Decimal,
    Currency,
    Percent,
}

impl From<&str> for FluentNumberStyle {
    ghost from_gives = { λ text style. style ≡ style_named text.now };

    fn from(text: &str) -> FluentNumberStyle {
        match text {
            "currency" => FluentNumberStyle::Currency,
            "percent" => FluentNumberStyle::Percent,
            _ => FluentNumberStyle::Decimal,
        }
    }
}

/// How a currency is shown.
#[derive(Clone, Copy, Default, PartialEq, Eq, Hash)]
pub enum FluentNumberCurrencyDisplayStyle {
    #[default]
    Symbol,
    Code,
    Name,
}

impl From<&str> for FluentNumberCurrencyDisplayStyle {
    ghost from_gives = { λ text display. display ≡ currency_display_named text.now };

    fn from(text: &str) -> FluentNumberCurrencyDisplayStyle {
        match text {
            "code" => FluentNumberCurrencyDisplayStyle::Code,
            "name" => FluentNumberCurrencyDisplayStyle::Name,
            _ => FluentNumberCurrencyDisplayStyle::Symbol,
        }
    }
}

/// How a number is shown and which plural rules it goes by.
///
/// The text of a number and its operands depend on the type and the minimum of fraction digits alone; the others count for equality.
#[derive(Drop, Hash)]
pub struct FluentNumberOptions {
    /// Which plural rules the number goes by.
    pub number_type: FluentNumberType,
    /// What it counts.
    pub style: FluentNumberStyle,
    /// The code of its currency, as `EUR`.
    pub currency: Option<String>,
    /// How the currency is shown.
    pub currency_display: FluentNumberCurrencyDisplayStyle,
    /// Whether its digits are grouped.
    pub use_grouping: bool,
    /// How many digits stand before the point at least.
    pub minimum_integer_digits: Option<usize>,
    /// How many digits stand after the point at least; above 18 it counts as 18.
    pub minimum_fraction_digits: Option<usize>,
    /// How many digits stand after the point at most.
    pub maximum_fraction_digits: Option<usize>,
    /// How many significant digits there are at least.
    pub minimum_significant_digits: Option<usize>,
    /// How many significant digits there are at most.
    pub maximum_significant_digits: Option<usize>,
}

impl PartialEq for FluentNumberOptions {
    ghost use Rattle.fluent_intl.specs.Options.{options_of};
    ghost use Rattle.fluent_intl.specs.SameContent.{same_options, same_content_equivalence};
    ghost use Rattle.std.specs.Cmp.{on_per, partial_equiv_from_equiv};

    ghost eq = { same_options };

    ghost laws = { on_per options_of (partial_equiv_from_equiv same_content_equivalence) };

    fn eq(&self, other: &FluentNumberOptions) -> bool
        ensures test { result ≡ same_options self.now other.now }
        ensures content { IsTrue result ↔ (options_of self.now ≡ options_of other.now) }
    {
        same_kinds(self, other) && same_digits(self, other)
    }
}

impl Eq for FluentNumberOptions {
    ghost use Rattle.fluent_intl.specs.Options.{options_of};
    ghost use Rattle.std.specs.Cmp.{on_equiv};
    ghost use Rattle.fluent_intl.specs.SameContent.{same_content_equivalence};

    ghost laws = { on_equiv options_of same_content_equivalence };
}

#[derived]
impl Hash for FluentNumberOptions {
    ghost use Rattle.std.proofs.Common.{rules};
    ghost use Rattle.std.specs.Cmp.Rules.{hashing};
    ghost use Rattle.fluent_intl.specs.Options.{options_of};
    ghost use Rattle.fluent_intl.specs.SameContent.{same_content_decides};

    ghost respects_eq = { λ x y h. let e = (same_content_decides (options_of x) (options_of y)).0 h in Prim.search (hashing, rules) };
}

impl Default for FluentNumberOptions {
    ghost use Rattle.fluent_intl.specs.Options.{options_of, default_options};

    ghost is_default = { λ options. options_of options ≡ default_options };

    fn default() -> FluentNumberOptions {
        FluentNumberOptions {
            number_type: FluentNumberType::Cardinal,
            style: FluentNumberStyle::Decimal,
            currency: None,
            currency_display: FluentNumberCurrencyDisplayStyle::Symbol,
            use_grouping: true,
            minimum_integer_digits: None,
            minimum_fraction_digits: None,
            maximum_fraction_digits: None,
            minimum_significant_digits: None,
            maximum_significant_digits: None,
        }
    }
}

impl FluentNumberOptions {
    /// A copy with the same content, its currency in memory of `alloc`.
    pub fn try_clone(&self, alloc: Global) -> Result<FluentNumberOptions, AllocError>
        ensures same { IfOk result (λ copy. options_of copy ≡ options_of self.now) }
        ensures succeeds { IfNone self.now.currency (IsOk result) }
    {
        let currency = match &self.currency {
            Some(code) => Some(String::from_str(alloc, code.as_str())?),
            None => None,
        };
        Ok(FluentNumberOptions {
            number_type: self.number_type,
            style: self.style,
            currency,
            currency_display: self.currency_display,
            use_grouping: self.use_grouping,
            minimum_integer_digits: self.minimum_integer_digits,
            minimum_fraction_digits: self.minimum_fraction_digits,
            maximum_fraction_digits: self.maximum_fraction_digits,
            minimum_significant_digits: self.minimum_significant_digits,
            maximum_significant_digits: self.maximum_significant_digits,
        })
    }
}

fn same_kinds(one: &FluentNumberOptions, other: &FluentNumberOptions) -> bool
    ensures { result ≡ same_kinds (options_of one.now) (options_of other.now) }
{
    one.number_type == other.number_type
        && one.style == other.style
        && one.currency == other.currency
        && one.currency_display == other.currency_display
        && one.use_grouping == other.use_grouping
}

fn same_digits(one: &FluentNumberOptions, other: &FluentNumberOptions) -> bool
    ensures { result ≡ same_digits (options_of one.now) (options_of other.now) }
{
    one.minimum_integer_digits == other.minimum_integer_digits
        && one.minimum_fraction_digits == other.minimum_fraction_digits
        && one.maximum_fraction_digits == other.maximum_fraction_digits
        && one.minimum_significant_digits == other.minimum_significant_digits
        && one.maximum_significant_digits == other.maximum_significant_digits
}

//! Numbers with options.
ghost use Rattle.std.specs.Prelude.{◌≡◌, ◌↔◌, ◌^◌, ◌<◌, pos, unsigned_abs, IfOk, IfNone, IsOk, IsTrue};
ghost use Rattle.std.specs.Cow.{cow_str_bytes};
ghost use Rattle.fluent_intl.specs.Decimal.{whole};
ghost use Rattle.fluent_intl.specs.Number.{IsTextOf, NumberIff, number_of, number_with, text_of};

use crate::decimal::{Decimal, DecimalText, NotANumber, OutOfRange};
use crate::options::FluentNumberOptions;
use std::alloc::{AllocError, Global};
use std::borrow::CowStr;
use std::str::FromStr;

/// An exact number with its options.
///
/// Two numbers are equal where their values and the contents of their options are.
#[derive(Drop)]
pub struct FluentNumber {
    pub value: Decimal,
    pub options: FluentNumberOptions,
}

impl FluentNumber {
    /// The number with these options.
    pub fn new(value: Decimal, options: FluentNumberOptions) -> FluentNumber
        ensures { result ≡ record { value = value; options = options } }
    {
        FluentNumber { value, options }
    }

    /// A copy with the same content, its currency in memory of `alloc`.
    pub fn try_clone(&self, alloc: Global) -> Result<FluentNumber, AllocError>
        ensures same { IfOk result (λ copy. number_of copy ≡ number_of self.now) }
        ensures succeeds { IfNone self.now.options.currency (IsOk result) }
    {
        let options = self.options.try_clone(alloc)?;
        Ok(FluentNumber {
            value: self.value,
            options,
        })
    }

    /// The text of the number, with its minimum of fraction digits, of which 18 count at most. Takes no memory.
    pub fn text(&self) -> DecimalText
        ensures { result ≡ text_of self.now }
    {
        self.value.text(self.options.minimum_fraction_digits)
    }

    /// The same in memory of `alloc`.
    ///
    /// # Errors
    ///
    /// An allocation failed.
    pub fn as_string(&self, alloc: Global) -> Result<CowStr<'static>, AllocError>
        ensures bytes { IfOk result (λ text. cow_str_bytes text ≡ text_of self.now) }
        ensures text { IfOk result (λ text. IsTextOf self.now (cow_str_bytes text)) }
    {
        let text = self
            .value
            .as_text(alloc, self.options.minimum_fraction_digits)?;
        Ok(CowStr::Owned(text))
    }

    /// A whole number of 128 bits with a sign, with the default options. `OutOfRange` where its size is above `u64::MAX`.
    pub fn try_from_i128(value: i128) -> Result<FluentNumber, OutOfRange>
        ensures { NumberIff result (unsigned_abs value < 2 ^ 64) (number_with (whole value) None) }
    {
        Ok(plain(Decimal::try_from_i128(value)?))
    }

    /// A whole number of 128 bits, with the default options. `OutOfRange` where it is above `u64::MAX`.
    pub fn try_from_u128(value: u128) -> Result<FluentNumber, OutOfRange>
        ensures { NumberIff result (value < 2 ^ 64) (number_with (whole (pos value)) None) }
    {
        Ok(plain(Decimal::try_from_u128(value)?))
    }
}

/// The number with the default options.
pub(crate) fn plain(value: Decimal) -> FluentNumber
    ensures { number_of result ≡ number_with value None }
{
    FluentNumber {
        value,
        options: FluentNumberOptions::default(),
    }
}

/// Reads the texts that [`Decimal::from_text`] reads. The count of digits after the point is kept as the minimum of fraction digits, and the other options are as by default.
impl FromStr for FluentNumber {
    type Err = NotANumber;

    ghost use Rattle.std.specs.Prelude.{MatchResult};
    ghost use Rattle.fluent_intl.specs.Decimal.{IsNoNumber};
    ghost use Rattle.fluent_intl.specs.Number.{number_of, ReadsNumber};

    ghost from_str_gives = { λ text result. MatchResult result (λ n. ReadsNumber text (number_of n)) (λ _. IsNoNumber text) };

    fn from_str(text: &str) -> Result<FluentNumber, NotANumber> {
        match Decimal::from_text(text) {
            Ok((value, places)) => {
                let mut number = plain(value);
                number.options.minimum_fraction_digits = places;
                Ok(number)
            }
            Err(refused) => Err(refused),
        }
    }
}

impl PartialEq for FluentNumber {
    ghost use Rattle.std.specs.Ordering.{int_eq};
    ghost use Rattle.std.specs.Cmp.{on_per, and_per, partial_equiv_from_equiv, int_eq_equiv};
    ghost use Rattle.fluent_intl.specs.Options.{options_of};
    ghost use Rattle.fluent_intl.specs.SameContent.{same_content_equivalence};
    ghost use Rattle.fluent_intl.specs.Number.{number_of, same_numbers};

    ghost eq = { same_numbers };

    ghost laws = { and_per (on_per (λ n. n.value) (partial_equiv_from_equiv int_eq_equiv)) (on_per (λ n. options_of n.options) (partial_equiv_from_equiv same_content_equivalence)) };

    fn eq(&self, other: &FluentNumber) -> bool
        ensures test { result ≡ same_numbers self.now other.now }
        ensures content { IsTrue result ↔ (number_of self.now ≡ number_of other.now) }
    {
        self.value == other.value && self.options == other.options
    }
}

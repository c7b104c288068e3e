//! Exact decimal numbers: a count of units of 10^-18.

mod backward;
mod errors;
mod laws;
mod read;
mod text;

ghost use Rattle.std.specs.Prelude.{◌≡◌, ◌*◌, ◌^◌, ◌<◌, ◌≤◌, pos, unsigned_abs, MatchOption, IsTrue, ◌↔◌, ◌<ℤ◌, ◌*ℤ◌, ◌/◌, ◌%◌, int_div};
ghost use Rattle.std.specs.Result.{OkIff};
ghost use Rattle.fluent_intl.specs.Decimal.{IsMadeOf, signed};

pub use backward::DecimalText;
pub use errors::{NotANumber, OutOfRange};
pub use laws::{each_number_has_one_text, each_text_is_one_number, whole_numbers_are_kept};
pub use read::value_of;
use std::marker::Model;
pub(crate) use text::significant_places;

/// An exact number, smaller in size than 2^64, with up to 18 digits after the point: a count of units of 10^-18.
///
/// Numbers are equal by value, and zero has no sign.
#[derive(Clone, Copy, Debug, PartialEq, Eq, Hash)]
pub struct Decimal {
    units: i128,
}

impl Model for Decimal {
    ghost use Rattle.std.specs.Prelude.{ℤ};
    ghost use Rattle.fluent_intl.specs.Decimal.{IsDecimal};

    ghost Value = { ℤ };

    ghost view = { λ d. d.units };

    ghost invariant = { λ d. IsDecimal d.units };

    ghost inverse = { λ z. record { units = z } };
}

/// How many units make one.
const UNIT: u128 = 1_000_000_000_000_000_000;

/// The units of a sign and a size.
fn signed_units(negative: bool, size: u128) -> i128
    requires { size < 2 ^ 64 * 10 ^ 18 }
    ensures value { result ≡ signed negative size }
    ensures size { unsigned_abs result ≡ size }
{
    let units = size as i128;
    if negative { -units } else { units }
}

impl Decimal {
    /// The number with this sign, this whole part and this fraction in units of 10^-18. `None` where the fraction is 1 or more.
    pub fn new(negative: bool, whole: u64, fraction: u64) -> Option<Decimal>
        ensures { MatchOption result (10 ^ 18 ≤ fraction) (IsMadeOf negative whole fraction) }
    {
        let fraction = fraction as u128;
        if fraction >= UNIT {
            return None;
        }
        Some(Decimal {
            units: signed_units(negative, whole as u128 * UNIT + fraction),
        })
    }

    /// Whether the number is below 0.
    pub fn is_negative(&self) -> bool
        ensures { IsTrue result ↔ (self.now <ℤ pos 0) }
    {
        self.units < 0
    }

    /// The whole part of the number's size.
    pub fn whole(&self) -> u64
        ensures { result ≡ unsigned_abs self.now / 10 ^ 18 }
    {
        (self.units.unsigned_abs() / UNIT) as u64
    }

    /// The fraction of the number's size, in units of 10^-18.
    pub fn fraction(&self) -> u64
        ensures { result ≡ unsigned_abs self.now % 10 ^ 18 }
    {
        (self.units.unsigned_abs() % UNIT) as u64
    }

    /// A whole number of 64 bits, with a sign.
    pub fn from_i64(whole: i64) -> Decimal
        ensures { result ≡ whole *ℤ pos (10 ^ 18) }
    {
        Decimal {
            units: whole as i128 * UNIT as i128,
        }
    }

    /// A whole number of 64 bits.
    pub fn from_u64(whole: u64) -> Decimal
        ensures { result ≡ pos (whole * 10 ^ 18) }
    {
        Decimal {
            units: (whole as u128 * UNIT) as i128,
        }
    }

    /// A whole number of 128 bits with a sign. `OutOfRange` where its size is above `u64::MAX`.
    pub fn try_from_i128(whole: i128) -> Result<Decimal, OutOfRange>
        ensures { OkIff result (unsigned_abs whole < 2 ^ 64) (whole *ℤ pos (10 ^ 18)) }
    {
        if whole.unsigned_abs() > u64::MAX as u128 {
            return Err(OutOfRange);
        }
        Ok(Decimal {
            units: whole * UNIT as i128,
        })
    }

    /// A whole number of 128 bits. `OutOfRange` where it is above `u64::MAX`.
    pub fn try_from_u128(whole: u128) -> Result<Decimal, OutOfRange>
        ensures { OkIff result (whole < 2 ^ 64) (pos (whole * 10 ^ 18)) }
    {
        if whole > u64::MAX as u128 {
            return Err(OutOfRange);
        }
        Ok(Decimal {
            units: (whole * UNIT) as i128,
        })
    }

    /// The whole number, cut toward zero.
    pub fn truncated(&self) -> i128
        ensures { result ≡ int_div self.now (pos (10 ^ 18)) }
    {
        self.units / UNIT as i128
    }
}

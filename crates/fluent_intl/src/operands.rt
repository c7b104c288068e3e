//! The plural operands of a number.
ghost use Rattle.std.specs.Prelude.{◌≡◌, ◌-◌, ◌/◌, ◌^◌, ◌≤◌, pos, unsigned_abs};
ghost use Rattle.fluent_intl.specs.declared.operands.PluralOperands.{PluralOperands};
ghost use Rattle.fluent_intl.specs.Operands.{IsOperands, least_places, operands_of};

use crate::decimal::{Decimal, significant_places};
use crate::number::FluentNumber;

/// The plural operands of Unicode TR35 (Part 3, Plural Operand Meanings).
#[derive(Clone, Copy, PartialEq)]
pub struct PluralOperands {
    /// The absolute value.
    pub n: Decimal,
    /// The whole part of the absolute value.
    pub i: u64,
    /// The count of fraction digits that are shown.
    pub v: usize,
    /// The count of fraction digits without zeros at the end.
    pub w: usize,
    /// The fraction digits that are shown, as a number.
    pub f: u64,
    /// The fraction digits without zeros at the end, as a number.
    pub t: u64,
}

impl PluralOperands {
    /// The operands of a number that is shown with a minimum of fraction digits, of which 18 count at most.
    pub fn of(value: &Decimal, minimum: Option<usize>) -> PluralOperands
        ensures means { IsOperands value.now minimum result }
        ensures only { (other : PluralOperands) → IsOperands value.now minimum other →
            other ≡ result }
        ensures value { result ≡ operands_of value.now minimum }
    {
        let fraction = value.fraction();
        let w = significant_places(fraction);
        let v = w.max(places(minimum));
        PluralOperands {
            n: absolute(value),
            i: value.whole(),
            v,
            w,
            f: digits(fraction, v),
            t: digits(fraction, w),
        }
    }
}

/// A number without its sign.
fn absolute(value: &Decimal) -> Decimal
    ensures { result ≡ pos (unsigned_abs value.now) }
{
    Decimal::new(false, value.whole(), value.fraction()).unwrap()
}

/// The digits that a minimum asks for at least.
fn places(minimum: Option<usize>) -> usize
    ensures value { result ≡ least_places minimum }
    ensures bound { result ≤ 18 }
{
    match minimum {
        Some(minimum) => minimum.min(18),
        None => 0,
    }
}

/// The first digits of a fraction in units, as a number.
fn digits(fraction: u64, count: usize) -> u64
    requires { count ≤ 18 }
    ensures { result ≡ fraction / 10 ^ (18 - count) }
{
    // Most numbers are whole, and a power takes more than all else here.
    if fraction == 0 {
        return 0;
    }
    fraction / 10u64.pow(18 - count as u32)
}

impl From<&FluentNumber> for PluralOperands {
    ghost use Rattle.std.specs.Prelude.{◌≡◌};
    ghost use Rattle.fluent_intl.specs.Operands.{operands_of};

    ghost from_gives = { λ n o. o ≡ operands_of n.now.value n.now.options.minimum_fraction_digits };

    fn from(number: &FluentNumber) -> PluralOperands {
        PluralOperands::of(&number.value, number.options.minimum_fraction_digits)
    }
}

//! Whole numbers into numbers with options, and out of them.
ghost use Rattle.std.specs.Prelude.{◌≡◌, ◌^◌, ◌-◌, ◌≤ℤ◌, pos, neg_ℤ, None};
ghost use Rattle.fluent_intl.specs.Decimal.{whole};
ghost use Rattle.fluent_intl.specs.Number.{IsTaken, number_of, number_with};

use crate::decimal::Decimal;
use crate::number::{FluentNumber, plain};

impl From<i8> for FluentNumber {
    ghost from_gives = { λ x n. number_of n ≡ number_with (whole x) None };

    fn from(x: i8) -> FluentNumber {
        plain(Decimal::from_i64(x as i64))
    }
}

impl From<&i8> for FluentNumber {
    ghost from_gives = { λ x n. number_of n ≡ number_with (whole x.now) None };

    fn from(x: &i8) -> FluentNumber {
        FluentNumber::from(*x)
    }
}

impl From<i16> for FluentNumber {
    ghost from_gives = { λ x n. number_of n ≡ number_with (whole x) None };

    fn from(x: i16) -> FluentNumber {
        plain(Decimal::from_i64(x as i64))
    }
}

impl From<&i16> for FluentNumber {
    ghost from_gives = { λ x n. number_of n ≡ number_with (whole x.now) None };

    fn from(x: &i16) -> FluentNumber {
        FluentNumber::from(*x)
    }
}

impl From<i32> for FluentNumber {
    ghost from_gives = { λ x n. number_of n ≡ number_with (whole x) None };

    fn from(x: i32) -> FluentNumber {
        plain(Decimal::from_i64(x as i64))
    }
}

impl From<&i32> for FluentNumber {
    ghost from_gives = { λ x n. number_of n ≡ number_with (whole x.now) None };

    fn from(x: &i32) -> FluentNumber {
        FluentNumber::from(*x)
    }
}

impl From<i64> for FluentNumber {
    ghost from_gives = { λ x n. number_of n ≡ number_with (whole x) None };

    fn from(x: i64) -> FluentNumber {
        plain(Decimal::from_i64(x))
    }
}

impl From<&i64> for FluentNumber {
    ghost from_gives = { λ x n. number_of n ≡ number_with (whole x.now) None };

    fn from(x: &i64) -> FluentNumber {
        FluentNumber::from(*x)
    }
}

impl From<isize> for FluentNumber {
    ghost from_gives = { λ x n. number_of n ≡ number_with (whole x) None };

    fn from(x: isize) -> FluentNumber {
        plain(Decimal::from_i64(x as i64))
    }
}

impl From<&isize> for FluentNumber {
    ghost from_gives = { λ x n. number_of n ≡ number_with (whole x.now) None };

    fn from(x: &isize) -> FluentNumber {
        FluentNumber::from(*x)
    }
}

impl From<u8> for FluentNumber {
    ghost from_gives = { λ x n. number_of n ≡ number_with (whole (pos x)) None };

    fn from(x: u8) -> FluentNumber {
        plain(Decimal::from_u64(x as u64))
    }
}

impl From<&u8> for FluentNumber {
    ghost from_gives = { λ x n. number_of n ≡ number_with (whole (pos x.now)) None };

    fn from(x: &u8) -> FluentNumber {
        FluentNumber::from(*x)
    }
}

impl From<u16> for FluentNumber {
    ghost from_gives = { λ x n. number_of n ≡ number_with (whole (pos x)) None };

    fn from(x: u16) -> FluentNumber {
        plain(Decimal::from_u64(x as u64))
    }
}

impl From<&u16> for FluentNumber {
    ghost from_gives = { λ x n. number_of n ≡ number_with (whole (pos x.now)) None };

    fn from(x: &u16) -> FluentNumber {
        FluentNumber::from(*x)
    }
}

impl From<u32> for FluentNumber {
    ghost from_gives = { λ x n. number_of n ≡ number_with (whole (pos x)) None };

    fn from(x: u32) -> FluentNumber {
        plain(Decimal::from_u64(x as u64))
    }
}

impl From<&u32> for FluentNumber {
    ghost from_gives = { λ x n. number_of n ≡ number_with (whole (pos x.now)) None };

    fn from(x: &u32) -> FluentNumber {
        FluentNumber::from(*x)
    }
}

impl From<u64> for FluentNumber {
    ghost from_gives = { λ x n. number_of n ≡ number_with (whole (pos x)) None };

    fn from(x: u64) -> FluentNumber {
        plain(Decimal::from_u64(x))
    }
}

impl From<&u64> for FluentNumber {
    ghost from_gives = { λ x n. number_of n ≡ number_with (whole (pos x.now)) None };

    fn from(x: &u64) -> FluentNumber {
        FluentNumber::from(*x)
    }
}

impl From<usize> for FluentNumber {
    ghost from_gives = { λ x n. number_of n ≡ number_with (whole (pos x)) None };

    fn from(x: usize) -> FluentNumber {
        plain(Decimal::from_u64(x as u64))
    }
}

impl From<&usize> for FluentNumber {
    ghost from_gives = { λ x n. number_of n ≡ number_with (whole (pos x.now)) None };

    fn from(x: &usize) -> FluentNumber {
        FluentNumber::from(*x)
    }
}

impl From<&FluentNumber> for i8 {
    ghost from_gives = { λ n x. IsTaken (neg_ℤ (pos (2 ^ 7))) (pos (2 ^ 7 - 1)) n.now.value x };

    fn from(number: &FluentNumber) -> i8 {
        nearest(&number.value, i8::MIN as i128, i8::MAX as i128) as i8
    }
}

impl From<FluentNumber> for i8 {
    ghost from_gives = { λ n x. IsTaken (neg_ℤ (pos (2 ^ 7))) (pos (2 ^ 7 - 1)) n.value x };

    fn from(number: FluentNumber) -> i8 {
        i8::from(&number)
    }
}

impl From<&FluentNumber> for i16 {
    ghost from_gives = { λ n x. IsTaken (neg_ℤ (pos (2 ^ 15))) (pos (2 ^ 15 - 1)) n.now.value x };

    fn from(number: &FluentNumber) -> i16 {
        nearest(&number.value, i16::MIN as i128, i16::MAX as i128) as i16
    }
}

impl From<FluentNumber> for i16 {
    ghost from_gives = { λ n x. IsTaken (neg_ℤ (pos (2 ^ 15))) (pos (2 ^ 15 - 1)) n.value x };

    fn from(number: FluentNumber) -> i16 {
        i16::from(&number)
    }
}

impl From<&FluentNumber> for i32 {
    ghost from_gives = { λ n x. IsTaken (neg_ℤ (pos (2 ^ 31))) (pos (2 ^ 31 - 1)) n.now.value x };

    fn from(number: &FluentNumber) -> i32 {
        nearest(&number.value, i32::MIN as i128, i32::MAX as i128) as i32
    }
}

impl From<FluentNumber> for i32 {
    ghost from_gives = { λ n x. IsTaken (neg_ℤ (pos (2 ^ 31))) (pos (2 ^ 31 - 1)) n.value x };

    fn from(number: FluentNumber) -> i32 {
        i32::from(&number)
    }
}

impl From<&FluentNumber> for i64 {
    ghost from_gives = { λ n x. IsTaken (neg_ℤ (pos (2 ^ 63))) (pos (2 ^ 63 - 1)) n.now.value x };

    fn from(number: &FluentNumber) -> i64 {
        nearest(&number.value, i64::MIN as i128, i64::MAX as i128) as i64
    }
}

impl From<FluentNumber> for i64 {
    ghost from_gives = { λ n x. IsTaken (neg_ℤ (pos (2 ^ 63))) (pos (2 ^ 63 - 1)) n.value x };

    fn from(number: FluentNumber) -> i64 {
        i64::from(&number)
    }
}

impl From<&FluentNumber> for isize {
    ghost from_gives = { λ n x. IsTaken (neg_ℤ (pos (2 ^ 63))) (pos (2 ^ 63 - 1)) n.now.value x };

    fn from(number: &FluentNumber) -> isize {
        nearest(&number.value, isize::MIN as i128, isize::MAX as i128) as isize
    }
}

impl From<FluentNumber> for isize {
    ghost from_gives = { λ n x. IsTaken (neg_ℤ (pos (2 ^ 63))) (pos (2 ^ 63 - 1)) n.value x };

    fn from(number: FluentNumber) -> isize {
        isize::from(&number)
    }
}

impl From<&FluentNumber> for i128 {
    ghost from_gives = { λ n x. IsTaken (neg_ℤ (pos (2 ^ 127))) (pos (2 ^ 127 - 1)) n.now.value x };

    fn from(number: &FluentNumber) -> i128 {
        number.value.truncated()
    }
}

impl From<FluentNumber> for i128 {
    ghost from_gives = { λ n x. IsTaken (neg_ℤ (pos (2 ^ 127))) (pos (2 ^ 127 - 1)) n.value x };

    fn from(number: FluentNumber) -> i128 {
        i128::from(&number)
    }
}

impl From<&FluentNumber> for u8 {
    ghost from_gives = { λ n x. IsTaken (pos 0) (pos (2 ^ 8 - 1)) n.now.value (pos x) };

    fn from(number: &FluentNumber) -> u8 {
        nearest(&number.value, u8::MIN as i128, u8::MAX as i128) as u8
    }
}

impl From<FluentNumber> for u8 {
    ghost from_gives = { λ n x. IsTaken (pos 0) (pos (2 ^ 8 - 1)) n.value (pos x) };

    fn from(number: FluentNumber) -> u8 {
        u8::from(&number)
    }
}

impl From<&FluentNumber> for u16 {
    ghost from_gives = { λ n x. IsTaken (pos 0) (pos (2 ^ 16 - 1)) n.now.value (pos x) };

    fn from(number: &FluentNumber) -> u16 {
        nearest(&number.value, u16::MIN as i128, u16::MAX as i128) as u16
    }
}

impl From<FluentNumber> for u16 {
    ghost from_gives = { λ n x. IsTaken (pos 0) (pos (2 ^ 16 - 1)) n.value (pos x) };

    fn from(number: FluentNumber) -> u16 {
        u16::from(&number)
    }
}

impl From<&FluentNumber> for u32 {
    ghost from_gives = { λ n x. IsTaken (pos 0) (pos (2 ^ 32 - 1)) n.now.value (pos x) };

    fn from(number: &FluentNumber) -> u32 {
        nearest(&number.value, u32::MIN as i128, u32::MAX as i128) as u32
    }
}

impl From<FluentNumber> for u32 {
    ghost from_gives = { λ n x. IsTaken (pos 0) (pos (2 ^ 32 - 1)) n.value (pos x) };

    fn from(number: FluentNumber) -> u32 {
        u32::from(&number)
    }
}

impl From<&FluentNumber> for u64 {
    ghost from_gives = { λ n x. IsTaken (pos 0) (pos (2 ^ 64 - 1)) n.now.value (pos x) };

    fn from(number: &FluentNumber) -> u64 {
        nearest(&number.value, u64::MIN as i128, u64::MAX as i128) as u64
    }
}

impl From<FluentNumber> for u64 {
    ghost from_gives = { λ n x. IsTaken (pos 0) (pos (2 ^ 64 - 1)) n.value (pos x) };

    fn from(number: FluentNumber) -> u64 {
        u64::from(&number)
    }
}

impl From<&FluentNumber> for usize {
    ghost from_gives = { λ n x. IsTaken (pos 0) (pos (2 ^ 64 - 1)) n.now.value (pos x) };

    fn from(number: &FluentNumber) -> usize {
        nearest(&number.value, usize::MIN as i128, usize::MAX as i128) as usize
    }
}

impl From<FluentNumber> for usize {
    ghost from_gives = { λ n x. IsTaken (pos 0) (pos (2 ^ 64 - 1)) n.value (pos x) };

    fn from(number: FluentNumber) -> usize {
        usize::from(&number)
    }
}

impl From<&FluentNumber> for u128 {
    ghost from_gives = { λ n x. IsTaken (pos 0) (pos (2 ^ 128 - 1)) n.now.value (pos x) };

    fn from(number: &FluentNumber) -> u128 {
        let whole = number.value.truncated();
        if whole < 0 { 0 } else { whole as u128 }
    }
}

impl From<FluentNumber> for u128 {
    ghost from_gives = { λ n x. IsTaken (pos 0) (pos (2 ^ 128 - 1)) n.value (pos x) };

    fn from(number: FluentNumber) -> u128 {
        u128::from(&number)
    }
}

/// The whole number from `low` to `high` that is nearest to a number cut toward zero.
fn nearest(value: &Decimal, low: i128, high: i128) -> i128
    requires { low ≤ℤ high }
    ensures taken { IsTaken low high value.now result }
    ensures low { low ≤ℤ result }
    ensures high { result ≤ℤ high }
{
    let whole = value.truncated();
    if whole < low {
        low
    } else if whole > high {
        high
    } else {
        whole
    }
}

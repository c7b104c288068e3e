//! Reading a number from its text.

ghost use Rattle.std.specs.Prelude.{◌≡◌, ◌==◌, MatchOption, MatchResult};
ghost use Rattle.std.specs.List.{position};
ghost use Rattle.std.specs.Option.{SomeIff};
ghost use Rattle.std.specs.Str.Parse.{digits_value, starts_with_minus, without_leading_sign};
ghost use Rattle.fluent_intl.specs.Decimal.{AreDigitsThatFit, GivesNoSize, IsNoNumber, Reads, ReadsInRange};

use super::{Decimal, NotANumber, UNIT, signed_units};

impl Decimal {
    /// The number that a text writes, and the count of digits after its point, `None` without a point.
    ///
    /// An optional `+` or `-`, digits, and an optional point, which may stand before, among or after them, with one digit at least.
    /// `NotANumber` for every other text, for a whole part above `u64::MAX`, and for more than 18 digits after the point.
    pub fn from_text(text: &str) -> Result<(Decimal, Option<usize>), NotANumber>
        ensures { MatchResult result (λ p. Reads text.now p.0 p.1) (λ _. IsNoNumber text.now) }
    {
        let bytes = text.as_bytes();
        let negative = has_minus(bytes);
        match unsigned_units(without_sign(bytes)) {
            Some((size, places)) => Ok((
                Decimal {
                    units: signed_units(negative, size),
                },
                places,
            )),
            None => Err(NotANumber),
        }
    }
}

fn has_minus(text: &[u8]) -> bool
    ensures { result ≡ starts_with_minus text.now }
{
    !text.is_empty() && text[0] == b'-'
}

fn without_sign(text: &[u8]) -> &[u8]
    ensures { result.now ≡ without_leading_sign text.now }
{
    if !text.is_empty() && (text[0] == b'-' || text[0] == b'+') {
        &text[1..]
    } else {
        text
    }
}

/// The size in units of a text without a sign, and the count of its digits after the point.
fn unsigned_units(text: &[u8]) -> Option<(u128, Option<usize>)>
    ensures { MatchOption result (GivesNoSize text.now) (λ p. ReadsInRange text.now p.0 p.1) }
{
    match point_in(text) {
        None => whole_units(text),
        Some(at) => pointed_units(text, at),
    }
}

/// Where the first point stands.
fn point_in(text: &[u8]) -> Option<usize>
    ensures { result ≡ position (λ b. b == 46) text.now }
{
    text.iter().position(|byte| *byte == b'.')
}

fn whole_units(text: &[u8]) -> Option<(u128, Option<usize>)>
    requires { position (λ b. b == 46) text.now ≡ None }
    ensures { MatchOption result (GivesNoSize text.now) (λ p. ReadsInRange text.now p.0 p.1) }
{
    if text.is_empty() {
        return None;
    }
    let Some(whole) = value_of(text) else {
        return None;
    };
    Some((whole as u128 * UNIT, None))
}

fn pointed_units(text: &[u8], at: usize) -> Option<(u128, Option<usize>)>
    requires { position (λ b. b == 46) text.now ≡ Some at }
    ensures { MatchOption result (GivesNoSize text.now) (λ p. ReadsInRange text.now p.0 p.1) }
{
    let before = &text[..at];
    let after = &text[at + 1..];
    if after.len() > 18 || before.len() + after.len() == 0 {
        return None;
    }
    let Some(whole) = value_of(before) else {
        return None;
    };
    let Some(part) = value_of(after) else {
        return None;
    };
    let size = whole as u128 * UNIT + part as u128 * 10u128.pow(18 - after.len() as u32);
    Some((size, Some(after.len())))
}

/// The number of the digits, where they are digits and it fits.
pub fn value_of(digits: &[u8]) -> Option<u64>
    ensures { SomeIff result (AreDigitsThatFit digits.now) (digits_value 10 digits.now) }
{
    let mut value = 0u64;
    for digit in digits {
        if !digit.is_ascii_digit() {
            return None;
        }
        let grown = value as u128 * 10 + (*digit - b'0') as u128;
        if grown > u64::MAX as u128 {
            return None;
        }
        value = grown as u64;
    }
    Some(value)
}

//! The text of a number.

ghost use Rattle.std.specs.Prelude.{◌≡◌, ◌≤◌, IfOk};
ghost use Rattle.std.specs.Option.{ForSome};
ghost use Rattle.std.specs.String.{string_bytes};
ghost use Rattle.fluent_intl.specs.Decimal.{IsOnlyText, IsText, ReadsBack, decimal_text, significant_places, text_places};

use super::Decimal;
use super::backward::DecimalText;
use std::alloc::{AllocError, Global};

/// How many digits a fraction in units has up to the last that is not 0.
pub(crate) fn significant_places(fraction: u64) -> usize
    ensures value { result ≡ significant_places fraction }
    ensures few { result ≤ 18 }
{
    if fraction == 0 {
        return 0;
    }
    let mut places = 18;
    let mut rest = fraction;
    while places > 0 && rest % 10 == 0 {
        rest /= 10;
        places -= 1;
    }
    places
}

/// How many digits stand after the point in the text of a number with this fraction in units, if it has a point.
fn text_places(fraction: u64, minimum: Option<usize>) -> Option<usize>
    ensures value { result ≡ text_places fraction minimum }
    ensures few { ForSome result (λ places. places ≤ 18) }
{
    let significant = significant_places(fraction);
    match minimum {
        Some(minimum) => Some(significant.max(minimum.min(18))),
        None if significant == 0 => None,
        None => Some(significant),
    }
}

impl Decimal {
    /// The text of the number: a minus below 0, the whole part, and for a fraction a point and its digits without zeros at the end.
    ///
    /// With a minimum, of which 18 counts at most, there are that many digits after the point or more, and the point is written even where no digit follows. Takes no memory.
    pub fn text(&self, minimum: Option<usize>) -> DecimalText
        ensures bytes { result ≡ decimal_text self.now minimum }
        ensures text { IsText self.now minimum result }
    {
        let fraction = self.fraction();
        let mut text = DecimalText::new();
        text.put_point(fraction, text_places(fraction, minimum));
        text.put_whole(self.whole());
        text.put_sign(self.is_negative());
        text
    }

    /// The same in memory of `alloc`.
    ///
    /// # Errors
    ///
    /// An allocation failed.
    pub fn as_text(&self, alloc: Global, minimum: Option<usize>) -> Result<String, AllocError>
        ensures bytes { IfOk result (λ s. string_bytes s ≡ decimal_text self.now minimum) }
        ensures text { IfOk result (λ s. IsText self.now minimum (string_bytes s)) }
        ensures reads_back { IfOk result (λ s. ReadsBack self.now minimum (string_bytes s)) }
        ensures only { IfOk result (λ s. IsOnlyText self.now minimum (string_bytes s)) }
    {
        let written = self.text(minimum);
        String::from_str(alloc, written.as_str())
    }
}

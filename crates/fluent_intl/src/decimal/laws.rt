//! Laws of numbers and their texts.

ghost use Rattle.fluent_intl.specs.Decimal.{KeepsWholes, OneReading, OneText};

/// Each number has exactly one text for each minimum.
pub fn each_number_has_one_text()
    ensures { OneText }
{}

/// A text is one number at most, with one count of digits after its point.
pub fn each_text_is_one_number()
    ensures { OneReading }
{}

/// A whole number that is made a number and cut to a whole number is itself.
pub fn whole_numbers_are_kept()
    ensures { KeepsWholes }
{}

//! Texts, numbers and whole numbers into values.
ghost use Rattle.std.specs.Prelude.{◌≡◌, pos, string_bytes};
ghost use Rattle.std.specs.Cow.{cow_str_bytes};
ghost use Rattle.fluent_intl.specs.Number.{number_of};
ghost use Rattle.fluent_semantics.specs.Value.{text_value, number_value};
ghost use Rattle.fluent_values.specs.View.{value_view};
ghost use Rattle.fluent_values.specs.Conversions.{or_nothing, whole_value};

use crate::types::{FluentNumber, FluentType, FluentValue};
use std::borrow::CowStr;

impl<'s, C: FluentType> From<String> for FluentValue<'s, C> {
    ghost from_gives = { λ text v. value_view C.content v ≡ text_value (string_bytes text) };

    fn from(text: String) -> FluentValue<'s, C> {
        FluentValue::String(CowStr::Owned(text))
    }
}

impl<'s, C: FluentType> From<&'s String> for FluentValue<'s, C> {
    ghost from_gives = { λ text v. value_view C.content v ≡ text_value (string_bytes text.now) };

    fn from(text: &'s String) -> FluentValue<'s, C> {
        FluentValue::String(CowStr::Borrowed(text.as_str()))
    }
}

impl<'s, C: FluentType> From<&'s str> for FluentValue<'s, C> {
    ghost from_gives = { λ text v. value_view C.content v ≡ text_value text.now };

    fn from(text: &'s str) -> FluentValue<'s, C> {
        FluentValue::String(CowStr::Borrowed(text))
    }
}

impl<'s, C: FluentType> From<CowStr<'s>> for FluentValue<'s, C> {
    ghost from_gives = { λ text v. value_view C.content v ≡ text_value (cow_str_bytes text) };

    fn from(text: CowStr<'s>) -> FluentValue<'s, C> {
        FluentValue::String(text)
    }
}

impl<'s, C: FluentType> From<FluentNumber> for FluentValue<'s, C> {
    ghost from_gives = { λ number v. value_view C.content v ≡ number_value (number_of number) };

    fn from(number: FluentNumber) -> FluentValue<'s, C> {
        FluentValue::Number(number)
    }
}

impl<'s, C: FluentType> From<i8> for FluentValue<'s, C> {
    ghost from_gives = { λ x v. value_view C.content v ≡ whole_value x };

    fn from(x: i8) -> FluentValue<'s, C> {
        FluentValue::Number(FluentNumber::from(x))
    }
}

impl<'s, C: FluentType> From<&i8> for FluentValue<'s, C> {
    ghost from_gives = { λ x v. value_view C.content v ≡ whole_value x.now };

    fn from(x: &i8) -> FluentValue<'s, C> {
        FluentValue::Number(FluentNumber::from(x))
    }
}

impl<'s, C: FluentType> From<i16> for FluentValue<'s, C> {
    ghost from_gives = { λ x v. value_view C.content v ≡ whole_value x };

    fn from(x: i16) -> FluentValue<'s, C> {
        FluentValue::Number(FluentNumber::from(x))
    }
}

impl<'s, C: FluentType> From<&i16> for FluentValue<'s, C> {
    ghost from_gives = { λ x v. value_view C.content v ≡ whole_value x.now };

    fn from(x: &i16) -> FluentValue<'s, C> {
        FluentValue::Number(FluentNumber::from(x))
    }
}

impl<'s, C: FluentType> From<i32> for FluentValue<'s, C> {
    ghost from_gives = { λ x v. value_view C.content v ≡ whole_value x };

    fn from(x: i32) -> FluentValue<'s, C> {
        FluentValue::Number(FluentNumber::from(x))
    }
}

impl<'s, C: FluentType> From<&i32> for FluentValue<'s, C> {
    ghost from_gives = { λ x v. value_view C.content v ≡ whole_value x.now };

    fn from(x: &i32) -> FluentValue<'s, C> {
        FluentValue::Number(FluentNumber::from(x))
    }
}

impl<'s, C: FluentType> From<i64> for FluentValue<'s, C> {
    ghost from_gives = { λ x v. value_view C.content v ≡ whole_value x };

    fn from(x: i64) -> FluentValue<'s, C> {
        FluentValue::Number(FluentNumber::from(x))
    }
}

impl<'s, C: FluentType> From<&i64> for FluentValue<'s, C> {
    ghost from_gives = { λ x v. value_view C.content v ≡ whole_value x.now };

    fn from(x: &i64) -> FluentValue<'s, C> {
        FluentValue::Number(FluentNumber::from(x))
    }
}

impl<'s, C: FluentType> From<isize> for FluentValue<'s, C> {
    ghost from_gives = { λ x v. value_view C.content v ≡ whole_value x };

    fn from(x: isize) -> FluentValue<'s, C> {
        FluentValue::Number(FluentNumber::from(x))
    }
}

impl<'s, C: FluentType> From<&isize> for FluentValue<'s, C> {
    ghost from_gives = { λ x v. value_view C.content v ≡ whole_value x.now };

    fn from(x: &isize) -> FluentValue<'s, C> {
        FluentValue::Number(FluentNumber::from(x))
    }
}

impl<'s, C: FluentType> From<u8> for FluentValue<'s, C> {
    ghost from_gives = { λ x v. value_view C.content v ≡ whole_value (pos x) };

    fn from(x: u8) -> FluentValue<'s, C> {
        FluentValue::Number(FluentNumber::from(x))
    }
}

impl<'s, C: FluentType> From<&u8> for FluentValue<'s, C> {
    ghost from_gives = { λ x v. value_view C.content v ≡ whole_value (pos x.now) };

    fn from(x: &u8) -> FluentValue<'s, C> {
        FluentValue::Number(FluentNumber::from(x))
    }
}

impl<'s, C: FluentType> From<u16> for FluentValue<'s, C> {
    ghost from_gives = { λ x v. value_view C.content v ≡ whole_value (pos x) };

    fn from(x: u16) -> FluentValue<'s, C> {
        FluentValue::Number(FluentNumber::from(x))
    }
}

impl<'s, C: FluentType> From<&u16> for FluentValue<'s, C> {
    ghost from_gives = { λ x v. value_view C.content v ≡ whole_value (pos x.now) };

    fn from(x: &u16) -> FluentValue<'s, C> {
        FluentValue::Number(FluentNumber::from(x))
    }
}

impl<'s, C: FluentType> From<u32> for FluentValue<'s, C> {
    ghost from_gives = { λ x v. value_view C.content v ≡ whole_value (pos x) };

    fn from(x: u32) -> FluentValue<'s, C> {
        FluentValue::Number(FluentNumber::from(x))
    }
}

impl<'s, C: FluentType> From<&u32> for FluentValue<'s, C> {
    ghost from_gives = { λ x v. value_view C.content v ≡ whole_value (pos x.now) };

    fn from(x: &u32) -> FluentValue<'s, C> {
        FluentValue::Number(FluentNumber::from(x))
    }
}

impl<'s, C: FluentType> From<u64> for FluentValue<'s, C> {
    ghost from_gives = { λ x v. value_view C.content v ≡ whole_value (pos x) };

    fn from(x: u64) -> FluentValue<'s, C> {
        FluentValue::Number(FluentNumber::from(x))
    }
}

impl<'s, C: FluentType> From<&u64> for FluentValue<'s, C> {
    ghost from_gives = { λ x v. value_view C.content v ≡ whole_value (pos x.now) };

    fn from(x: &u64) -> FluentValue<'s, C> {
        FluentValue::Number(FluentNumber::from(x))
    }
}

impl<'s, C: FluentType> From<usize> for FluentValue<'s, C> {
    ghost from_gives = { λ x v. value_view C.content v ≡ whole_value (pos x) };

    fn from(x: usize) -> FluentValue<'s, C> {
        FluentValue::Number(FluentNumber::from(x))
    }
}

impl<'s, C: FluentType> From<&usize> for FluentValue<'s, C> {
    ghost from_gives = { λ x v. value_view C.content v ≡ whole_value (pos x.now) };

    fn from(x: &usize) -> FluentValue<'s, C> {
        FluentValue::Number(FluentNumber::from(x))
    }
}

impl<'s, C: FluentType> From<Option<String>> for FluentValue<'s, C> {
    ghost from_gives = { λ text v. value_view C.content v ≡ or_nothing (λ t. text_value (string_bytes t)) text };

    fn from(text: Option<String>) -> FluentValue<'s, C> {
        match text {
            Some(text) => FluentValue::from(text),
            None => FluentValue::None,
        }
    }
}

impl<'s, C: FluentType> From<Option<&'s String>> for FluentValue<'s, C> {
    ghost from_gives = { λ text v. value_view C.content v ≡ or_nothing (λ t. text_value (string_bytes t.now)) text };

    fn from(text: Option<&'s String>) -> FluentValue<'s, C> {
        match text {
            Some(text) => FluentValue::from(text),
            None => FluentValue::None,
        }
    }
}

impl<'s, C: FluentType> From<Option<&'s str>> for FluentValue<'s, C> {
    ghost from_gives = { λ text v. value_view C.content v ≡ or_nothing (λ t. text_value t.now) text };

    fn from(text: Option<&'s str>) -> FluentValue<'s, C> {
        match text {
            Some(text) => FluentValue::from(text),
            None => FluentValue::None,
        }
    }
}

impl<'s, C: FluentType> From<Option<CowStr<'s>>> for FluentValue<'s, C> {
    ghost from_gives = { λ text v. value_view C.content v ≡ or_nothing (λ t. text_value (cow_str_bytes t)) text };

    fn from(text: Option<CowStr<'s>>) -> FluentValue<'s, C> {
        match text {
            Some(text) => FluentValue::from(text),
            None => FluentValue::None,
        }
    }
}

impl<'s, C: FluentType> From<Option<FluentNumber>> for FluentValue<'s, C> {
    ghost from_gives = { λ number v. value_view C.content v ≡ or_nothing (λ n. number_value (number_of n)) number };

    fn from(number: Option<FluentNumber>) -> FluentValue<'s, C> {
        match number {
            Some(number) => FluentValue::from(number),
            None => FluentValue::None,
        }
    }
}

impl<'s, C: FluentType> From<Option<i8>> for FluentValue<'s, C> {
    ghost from_gives = { λ x v. value_view C.content v ≡ or_nothing whole_value x };

    fn from(x: Option<i8>) -> FluentValue<'s, C> {
        match x {
            Some(x) => FluentValue::from(x),
            None => FluentValue::None,
        }
    }
}

impl<'s, C: FluentType> From<Option<&i8>> for FluentValue<'s, C> {
    ghost from_gives = { λ x v. value_view C.content v ≡ or_nothing (λ x. whole_value x.now) x };

    fn from(x: Option<&i8>) -> FluentValue<'s, C> {
        match x {
            Some(x) => FluentValue::from(x),
            None => FluentValue::None,
        }
    }
}

impl<'s, C: FluentType> From<Option<i16>> for FluentValue<'s, C> {
    ghost from_gives = { λ x v. value_view C.content v ≡ or_nothing whole_value x };

    fn from(x: Option<i16>) -> FluentValue<'s, C> {
        match x {
            Some(x) => FluentValue::from(x),
            None => FluentValue::None,
        }
    }
}

impl<'s, C: FluentType> From<Option<&i16>> for FluentValue<'s, C> {
    ghost from_gives = { λ x v. value_view C.content v ≡ or_nothing (λ x. whole_value x.now) x };

    fn from(x: Option<&i16>) -> FluentValue<'s, C> {
        match x {
            Some(x) => FluentValue::from(x),
            None => FluentValue::None,
        }
    }
}

impl<'s, C: FluentType> From<Option<i32>> for FluentValue<'s, C> {
    ghost from_gives = { λ x v. value_view C.content v ≡ or_nothing whole_value x };

    fn from(x: Option<i32>) -> FluentValue<'s, C> {
        match x {
            Some(x) => FluentValue::from(x),
            None => FluentValue::None,
        }
    }
}

impl<'s, C: FluentType> From<Option<&i32>> for FluentValue<'s, C> {
    ghost from_gives = { λ x v. value_view C.content v ≡ or_nothing (λ x. whole_value x.now) x };

    fn from(x: Option<&i32>) -> FluentValue<'s, C> {
        match x {
            Some(x) => FluentValue::from(x),
            None => FluentValue::None,
        }
    }
}

impl<'s, C: FluentType> From<Option<i64>> for FluentValue<'s, C> {
    ghost from_gives = { λ x v. value_view C.content v ≡ or_nothing whole_value x };

    fn from(x: Option<i64>) -> FluentValue<'s, C> {
        match x {
            Some(x) => FluentValue::from(x),
            None => FluentValue::None,
        }
    }
}

impl<'s, C: FluentType> From<Option<&i64>> for FluentValue<'s, C> {
    ghost from_gives = { λ x v. value_view C.content v ≡ or_nothing (λ x. whole_value x.now) x };

    fn from(x: Option<&i64>) -> FluentValue<'s, C> {
        match x {
            Some(x) => FluentValue::from(x),
            None => FluentValue::None,
        }
    }
}

impl<'s, C: FluentType> From<Option<isize>> for FluentValue<'s, C> {
    ghost from_gives = { λ x v. value_view C.content v ≡ or_nothing whole_value x };

    fn from(x: Option<isize>) -> FluentValue<'s, C> {
        match x {
            Some(x) => FluentValue::from(x),
            None => FluentValue::None,
        }
    }
}

impl<'s, C: FluentType> From<Option<&isize>> for FluentValue<'s, C> {
    ghost from_gives = { λ x v. value_view C.content v ≡ or_nothing (λ x. whole_value x.now) x };

    fn from(x: Option<&isize>) -> FluentValue<'s, C> {
        match x {
            Some(x) => FluentValue::from(x),
            None => FluentValue::None,
        }
    }
}

impl<'s, C: FluentType> From<Option<u8>> for FluentValue<'s, C> {
    ghost from_gives = { λ x v. value_view C.content v ≡ or_nothing (λ x. whole_value (pos x)) x };

    fn from(x: Option<u8>) -> FluentValue<'s, C> {
        match x {
            Some(x) => FluentValue::from(x),
            None => FluentValue::None,
        }
    }
}

impl<'s, C: FluentType> From<Option<&u8>> for FluentValue<'s, C> {
    ghost from_gives = { λ x v. value_view C.content v ≡ or_nothing (λ x. whole_value (pos x.now)) x };

    fn from(x: Option<&u8>) -> FluentValue<'s, C> {
        match x {
            Some(x) => FluentValue::from(x),
            None => FluentValue::None,
        }
    }
}

impl<'s, C: FluentType> From<Option<u16>> for FluentValue<'s, C> {
    ghost from_gives = { λ x v. value_view C.content v ≡ or_nothing (λ x. whole_value (pos x)) x };

    fn from(x: Option<u16>) -> FluentValue<'s, C> {
        match x {
            Some(x) => FluentValue::from(x),
            None => FluentValue::None,
        }
    }
}

impl<'s, C: FluentType> From<Option<&u16>> for FluentValue<'s, C> {
    ghost from_gives = { λ x v. value_view C.content v ≡ or_nothing (λ x. whole_value (pos x.now)) x };

    fn from(x: Option<&u16>) -> FluentValue<'s, C> {
        match x {
            Some(x) => FluentValue::from(x),
            None => FluentValue::None,
        }
    }
}

impl<'s, C: FluentType> From<Option<u32>> for FluentValue<'s, C> {
    ghost from_gives = { λ x v. value_view C.content v ≡ or_nothing (λ x. whole_value (pos x)) x };

    fn from(x: Option<u32>) -> FluentValue<'s, C> {
        match x {
            Some(x) => FluentValue::from(x),
            None => FluentValue::None,
        }
    }
}

impl<'s, C: FluentType> From<Option<&u32>> for FluentValue<'s, C> {
    ghost from_gives = { λ x v. value_view C.content v ≡ or_nothing (λ x. whole_value (pos x.now)) x };

    fn from(x: Option<&u32>) -> FluentValue<'s, C> {
        match x {
            Some(x) => FluentValue::from(x),
            None => FluentValue::None,
        }
    }
}

impl<'s, C: FluentType> From<Option<u64>> for FluentValue<'s, C> {
    ghost from_gives = { λ x v. value_view C.content v ≡ or_nothing (λ x. whole_value (pos x)) x };

    fn from(x: Option<u64>) -> FluentValue<'s, C> {
        match x {
            Some(x) => FluentValue::from(x),
            None => FluentValue::None,
        }
    }
}

impl<'s, C: FluentType> From<Option<&u64>> for FluentValue<'s, C> {
    ghost from_gives = { λ x v. value_view C.content v ≡ or_nothing (λ x. whole_value (pos x.now)) x };

    fn from(x: Option<&u64>) -> FluentValue<'s, C> {
        match x {
            Some(x) => FluentValue::from(x),
            None => FluentValue::None,
        }
    }
}

impl<'s, C: FluentType> From<Option<usize>> for FluentValue<'s, C> {
    ghost from_gives = { λ x v. value_view C.content v ≡ or_nothing (λ x. whole_value (pos x)) x };

    fn from(x: Option<usize>) -> FluentValue<'s, C> {
        match x {
            Some(x) => FluentValue::from(x),
            None => FluentValue::None,
        }
    }
}

impl<'s, C: FluentType> From<Option<&usize>> for FluentValue<'s, C> {
    ghost from_gives = { λ x v. value_view C.content v ≡ or_nothing (λ x. whole_value (pos x.now)) x };

    fn from(x: Option<&usize>) -> FluentValue<'s, C> {
        match x {
            Some(x) => FluentValue::from(x),
            None => FluentValue::None,
        }
    }
}

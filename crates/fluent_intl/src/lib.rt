//! Exact decimals, numbers with their options, plural operands and plural categories.
#![tactic(auto)]

mod conversions;
pub mod decimal;
pub mod language;
mod laws;
pub mod number;
pub mod operands;
pub mod options;
pub mod plurals;

pub use decimal::{
    Decimal, DecimalText, NotANumber, OutOfRange, each_number_has_one_text,
    each_text_is_one_number, whole_numbers_are_kept,
};
pub use language::LanguageIdentifier;
pub use laws::{equal_values_hash_alike, same_operands};
pub use number::FluentNumber;
pub use operands::PluralOperands;
pub use options::{
    FluentNumberCurrencyDisplayStyle, FluentNumberOptions, FluentNumberStyle, FluentNumberType,
};
pub use plurals::{EnglishPlurals, MemoizerKind, PluralCategory, PluralRuleType};

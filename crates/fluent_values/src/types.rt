//! The values that arguments give and expressions have.

mod conversions;
pub mod custom;
pub mod merge;
pub mod value;

pub use custom::{FluentType, NoCustom};
pub use fluent_intl::{
    Decimal, FluentNumber, FluentNumberCurrencyDisplayStyle, FluentNumberOptions,
    FluentNumberStyle, FluentNumberType,
};
pub use merge::MergeArgs;
pub use value::FluentValue;

//! Laws of equality and hashing.
ghost use Rattle.std.specs.Prelude.{◌≡◌, ◌↔◌, IsTrue};
ghost use Rattle.fluent_intl.specs.Hashing.{HashAlike};

use crate::decimal::Decimal;
use crate::operands::PluralOperands;
use crate::options::{
    FluentNumberCurrencyDisplayStyle, FluentNumberOptions, FluentNumberStyle, FluentNumberType,
};
use std::hash::Hash;

/// Equal decimals, number types, styles, currency styles and options feed a hasher alike.
pub fn equal_values_hash_alike()
    ensures decimals { HashAlike ⟦<Decimal as PartialEq>⟧.eq ⟦<Decimal as Hash>⟧.hash_input }
    ensures types { HashAlike ⟦<FluentNumberType as PartialEq>⟧.eq ⟦<FluentNumberType as Hash>⟧.hash_input }
    ensures styles { HashAlike ⟦<FluentNumberStyle as PartialEq>⟧.eq ⟦<FluentNumberStyle as Hash>⟧.hash_input }
    ensures currencies { HashAlike ⟦<FluentNumberCurrencyDisplayStyle as PartialEq>⟧.eq ⟦<FluentNumberCurrencyDisplayStyle as Hash>⟧.hash_input }
    ensures options { HashAlike ⟦<FluentNumberOptions as PartialEq>⟧.eq ⟦<FluentNumberOptions as Hash>⟧.hash_input }
{
    hash_alike::<Decimal>();
    hash_alike::<FluentNumberType>();
    hash_alike::<FluentNumberStyle>();
    hash_alike::<FluentNumberCurrencyDisplayStyle>();
    hash_alike::<FluentNumberOptions>();
}

/// Equal values of a type feed a hasher alike.
fn hash_alike<T: Hash>()
    ensures { HashAlike T.eq T.hash_input }
{}

/// Whether two operands have the same content, which is what `==` of them says.
pub fn same_operands(one: &PluralOperands, other: &PluralOperands) -> bool
    ensures { IsTrue result ↔ (one.now ≡ other.now) }
{
    one == other
}

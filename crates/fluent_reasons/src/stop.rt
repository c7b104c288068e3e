//! Why reading ended.
ghost use Rattle.std.specs.Prelude.{◌≡◌};

use crate::expected::Expected;
use std::alloc::{AllocError, AllocFailed};

#[derive(Clone, Copy, Drop)]
pub enum Stop<'s> {
    /// Reading stopped where this text begins, and expected that there.
    At(&'s [u8], Expected),
    Memory,
}

impl<'s> From<AllocError> for Stop<'s> {
    ghost use Rattle.fluent_reasons.specs.declared.stop.Stop.TheVariants.{Memory};

    ghost from_gives = { λ _ e. e ≡ Memory };

    fn from(_: AllocError) -> Stop<'s> {
        Stop::Memory
    }
}

impl<'s, T: Drop> From<AllocFailed<T>> for Stop<'s> {
    ghost use Rattle.fluent_reasons.specs.declared.stop.Stop.TheVariants.{Memory};

    ghost from_gives = { λ _ e. e ≡ Memory };

    fn from(_: AllocFailed<T>) -> Stop<'s> {
        Stop::Memory
    }
}

/// What a turn of a loop read.
#[derive(Clone, Copy, Drop)]
pub enum Turn<'s> {
    /// Another turn follows, with this text.
    Again(&'s [u8]),
    /// It was the last, and this text stands after it.
    Last(&'s [u8]),
}

//! Why a part was not read.
ghost use Rattle.std.specs.Prelude.{◌≡◌};

use std::alloc::{AllocError, AllocFailed};

#[derive(Clone, Copy, Drop)]
pub(super) enum Stop {
    /// The part doesn't stand here.
    Absent,
    Memory,
}

impl From<AllocError> for Stop {
    ghost use Rattle.fluent_plural_rules.specs.declared.rule_texts.stop.Stop.TheVariants.{Memory};

    ghost from_gives = { λ _ e. e ≡ Memory };

    fn from(_: AllocError) -> Stop {
        Stop::Memory
    }
}

impl<T: Drop> From<AllocFailed<T>> for Stop {
    ghost use Rattle.fluent_plural_rules.specs.declared.rule_texts.stop.Stop.TheVariants.{Memory};

    ghost from_gives = { λ _ e. e ≡ Memory };

    fn from(_: AllocFailed<T>) -> Stop {
        Stop::Memory
    }
}

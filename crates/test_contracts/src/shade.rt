//! Values of an application's own.
use fluent_values::types::FluentType;
use std::alloc::{AllocError, Global};

/// A value of the application's own, of which there are as many as bytes.
#[derive(Drop)]
pub struct Shade(pub u8);

impl FluentType for Shade {
    ghost use Rattle.std.specs.Prelude.{[], ◌∷◌};
    ghost use Rattle.fluent_semantics.specs.Number.{is_text};

    ghost content = { λ shade. shade.0 ∷ [] };

    ghost shown = { λ _. [] };

    ghost alike = { is_text };

    fn duplicate(&self, _alloc: Global) -> Result<Shade, AllocError> {
        Ok(Shade(self.0))
    }

    fn same(&self, other: &Shade) -> bool {
        self.0 == other.0
    }

    fn as_string(&self, alloc: Global) -> Result<String, AllocError> {
        Ok(String::new(alloc))
    }
}

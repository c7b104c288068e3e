//! Values of the application's own.
ghost use Rattle.std.specs.Prelude.{◌≡◌, [], Bool, true, IfOk, IsOk, string_bytes};
ghost use Rattle.fluent_ast.specs.Tree.{Text};

use std::alloc::{AllocError, Global};

/// A value of the application's own, that arguments and functions can hand to messages.
pub trait FluentType: Drop {
    /// What a value holds, written as bytes in whatever way its type chooses.
    ghost content: { Self → Text };

    /// The text of a value with this content.
    ghost shown: { Text → Text };

    /// Whether values with these contents are the same.
    ghost alike: { Text → Text → Bool };

    /// Makes a copy with the same content.
    fn duplicate(&self, alloc: Global) -> Result<Self, AllocError>
    where
        Self: Sized,
        ensures { IfOk result (λ copy. content copy ≡ content self.now) };

    /// Whether two values are the same.
    fn same(&self, other: &Self) -> bool
    where
        Self: Sized,
        ensures { result ≡ alike (content self.now) (content other.now) };

    /// The text of the value.
    fn as_string(&self, alloc: Global) -> Result<String, AllocError>
        ensures { IfOk result (λ text. string_bytes text ≡ shown (content self.now)) };
}

/// No custom value of interest: it holds nothing, and its text is empty.
#[derive(Clone, Copy, Drop)]
pub struct NoCustom;

impl FluentType for NoCustom {
    ghost content = { λ _. [] };

    ghost shown = { λ _. [] };

    ghost alike = { λ _ _. true };

    fn duplicate(&self, _alloc: Global) -> Result<NoCustom, AllocError>
        ensures same { IfOk result (λ copy. copy ≡ self.now) }
        ensures succeeds { IsOk result }
    {
        Ok(NoCustom)
    }

    fn same(&self, _other: &NoCustom) -> bool {
        true
    }

    fn as_string(&self, alloc: Global) -> Result<String, AllocError>
        ensures empty { IfOk result (λ text. string_bytes text ≡ []) }
        ensures succeeds { IsOk result }
    {
        Ok(String::new(alloc))
    }
}

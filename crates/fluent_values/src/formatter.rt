//! How values are shown, in place of their own text.
ghost use Rattle.std.specs.Prelude.{◌≡◌, IfOk, IsOk, Option, None, string_bytes};
ghost use Rattle.std.specs.Option.{option_map};
ghost use Rattle.fluent_ast.specs.Tree.{Text};
ghost use Rattle.fluent_semantics.specs.Value.{Value};
ghost use Rattle.fluent_values.specs.Shown.{IsFormatted};

use crate::types::{FluentType, FluentValue};
use std::alloc::{AllocError, Global};

/// A formatter of the application, which is asked before a value is shown by its own text.
pub trait FluentFormatter<C: FluentType, M>: Drop {
    /// What a value is shown as, by its content; `None` where its own text is to be shown.
    ghost formatted: { Self → Value Text → M → Option Text };

    /// The text that a value is shown as, or `None` where its own is to be shown. `intls` is the bundle's source
    /// of plural categories.
    ///
    /// # Errors
    ///
    /// An allocation failed.
    fn format<'a>(
        &self,
        alloc: Global,
        value: &FluentValue<'a, C>,
        intls: &M,
    ) -> Result<Option<String>, AllocError>
        ensures { IfOk result (IsFormatted C.content (λ v. formatted self.now v intls.now) value.now) };
}

/// No formatter: each value is shown by its own text.
#[derive(Clone, Copy, Drop)]
pub struct NoFormatter;

impl<C: FluentType, M> FluentFormatter<C, M> for NoFormatter {
    ghost formatted = { λ _ _ _. None };

    fn format<'a>(
        &self,
        _alloc: Global,
        _value: &FluentValue<'a, C>,
        _intls: &M,
    ) -> Result<Option<String>, AllocError>
        ensures none { IfOk result (λ text. option_map string_bytes text ≡ None) }
        ensures succeeds { IsOk result }
    {
        Ok(None)
    }
}

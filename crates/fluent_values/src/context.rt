//! What resolving a pattern and showing a value ask of a bundle.

ghost use Rattle.std.specs.Prelude.{◌≡◌, Ok, None, IfOk, IsOk, IsTrue, Bool};
ghost use Rattle.std.specs.declared.alloc.Global.{Global as Heap};
ghost use Rattle.fluent_ast.specs.Tree.{Text};
ghost use Rattle.fluent_intl.specs.Number.{number_of};
ghost use Rattle.fluent_semantics.specs.Bundle.{Bundle};
ghost use Rattle.fluent_semantics.specs.Number.{category_word};
ghost use Rattle.fluent_semantics.specs.Value.{category_of};
ghost use Rattle.fluent_values.specs.Shown.{IsFormatted, IsText};

use crate::types::{FluentType, FluentValue};
use fluent_intl::FluentNumber;
use std::alloc::{AllocError, Global};
use std::borrow::CowStr;

/// A bundle, as far as resolving a pattern asks it, whatever its plural source, functions, formatter and transform
/// are.
pub trait Context<C: FluentType> {
    /// The bundle that it is, by content.
    ghost meant: { Self → Bundle Text };

    /// Whether it changes no text.
    ghost is_plain: { Self → Bool };

    /// Whether it shows each value as its own text.
    ghost shows_own: { Self → Bool };

    /// The allocator that it works in.
    ghost memory: { Self → Heap };

    /// The allocator of the bundle.
    fn allocator(&self) -> Global
        ensures { result ≡ memory self.now };

    /// How many placeables one formatting call opens.
    fn placeable_limit(&self) -> u32
        ensures { result ≡ (meant self.now).limit };

    /// Whether placeables are written between U+2068 and U+2069.
    fn uses_isolating(&self) -> bool
        ensures { result ≡ (meant self.now).isolates };

    /// What a text element is written as.
    ///
    /// # Errors
    ///
    /// An allocation failed.
    fn change<'t>(&self, text: &'t str) -> Result<CowStr<'t>, AllocError>
        ensures text { IfOk result (IsText ((meant self.now).transform text.now)) }
        ensures succeeds { IsTrue (is_plain self.now) → IsOk result };

    /// The formatter's answer for a value: what it is shown as in place of its own text, if it says so.
    ///
    /// # Errors
    ///
    /// An allocation failed.
    fn formatted(&self, value: &FluentValue<'_, C>) -> Result<Option<String>, AllocError>
        ensures answer { IfOk result (IsFormatted C.content (meant self.now).formatter value.now) }
        ensures custom { (meant self.now).custom ≡ record { text = C.shown; same = C.alike } }
        ensures own { IsTrue (shows_own self.now) → result ≡ Ok None };

    /// The word of the plural category that a number has.
    fn category_word(&self, number: &FluentNumber) -> &'static str
        ensures { result.now ≡ category_word (category_of (meant self.now).plurals
            (number_of number.now)) };
}

/// What belongs to a bundle, as the scope of a call.
pub trait HasBundle<C: FluentType> {
    /// The type of the bundle.
    type Bundle: Context<C>;

    /// The bundle.
    ghost bundle_of: { Self → Self.Bundle };

    /// The bundle, which says how values are shown and of which category a number is.
    fn bundle(&self) -> &Self::Bundle
        ensures { result.now ≡ bundle_of self.now };
}

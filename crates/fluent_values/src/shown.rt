//! How values are shown, and which they match.
ghost use Rattle.std.specs.Prelude.{◌≡◌, ◌≢◌, Err, IfOk, IsOk, string_bytes};
ghost use Rattle.fluent_values.specs.Shown.{is_match, own, shows, GivesFree, IsShown, Puts, PutsFree, Writes, WritesFree};
ghost use Rattle.fluent_values.specs.Sinks.{GoesThrough};
ghost use Rattle.fluent_values.specs.ValuesWithoutMemory.{HasOwnText, IsEmpty};

use crate::context::{Context, HasBundle};
use crate::output::{Halt, Output, put_text, with_error};
use crate::types::{FluentType, FluentValue};
use fluent_text::{Counting, WriteFault};
use std::alloc::{AllocError, Global};
use std::borrow::CowStr;
use std::io::Write;

/// Writes what a value is shown as.
pub fn put_value<W: Write, C: FluentType, B: Context<C>>(
    bundle: &B,
    out: &mut Output<W>,
    value: &FluentValue<'_, C>,
) -> Result<(), Halt>
    ensures took { Puts W.contents result (shows C.content (B.meant bundle.now) value.now) out.old out.new }
    ensures memory { PutsFree (B.shows_own bundle.now) value.now out.old result }
{
    match bundle.formatted(value)? {
        Some(text) => put_text(out, text.as_str()),
        None => put_own(bundle.allocator(), out, value),
    }
}

/// Writes a value's own text; a number's takes no memory.
fn put_own<W: Write, C: FluentType>(
    alloc: Global,
    out: &mut Output<W>,
    value: &FluentValue<'_, C>,
) -> Result<(), Halt>
    ensures took { Puts W.contents result (own C.content C.shown C.alike value.now) out.old out.new }
    ensures memory { HasOwnText value.now → GoesThrough out.old → result ≢ Err Halt.Memory }
{
    match value {
        FluentValue::String(text) => put_text(out, text.as_str()),
        FluentValue::Number(number) => put_text(out, number.text().as_str()),
        FluentValue::Custom(custom) => put_text(out, custom.as_string(alloc)?.as_str()),
        FluentValue::None | FluentValue::Error => Ok(()),
    }
}

/// A value's own text.
fn own_text<C: FluentType>(alloc: Global, value: &FluentValue<'_, C>) -> Result<String, AllocError>
    ensures text { IfOk result (λ text. string_bytes text ≡ own C.content C.shown C.alike value.now) }
    ensures succeeds { IsEmpty value.now → IsOk result }
{
    match value {
        FluentValue::String(text) => String::from_str(alloc, text.as_str()),
        FluentValue::Number(number) => String::from_str(alloc, number.text().as_str()),
        FluentValue::Custom(custom) => custom.as_string(alloc),
        FluentValue::None | FluentValue::Error => Ok(String::new(alloc)),
    }
}

impl<'v, C: FluentType> FluentValue<'v, C> {
    /// Whether the value matches another, as the key of a variant a selector: equal texts, equal numbers, or the
    /// word of a plural category and a number of that category. Takes no memory.
    pub fn matches<S: HasBundle<C>>(&self, other: &FluentValue<'_, C>, scope: &S) -> bool
        ensures { result ≡ is_match C.content (S.Bundle.meant (S.bundle_of scope.now)) self.now other.now }
    {
        match (self, other) {
            (FluentValue::String(one), FluentValue::String(two)) => one.as_str() == two.as_str(),
            (FluentValue::Number(one), FluentValue::Number(two)) => one == two,
            (FluentValue::String(word), FluentValue::Number(number)) => {
                word.as_str() == scope.bundle().category_word(number)
            }
            _ => false,
        }
    }

    /// Writes what the value is shown as: the formatter's answer, where there is one, else its own text.
    ///
    /// # Errors
    ///
    /// `Writer` where a write failed, `Zero` where a write of a nonempty piece took no byte, `Memory` where an
    /// allocation failed, which only a formatter or a custom value can meet. Then what was written begins the text.
    pub fn write<W: Write, S: HasBundle<C>>(
        &self,
        w: &mut Counting<W>,
        scope: &S,
    ) -> Result<(), WriteFault>
        ensures took { Writes W.contents result (shows C.content (S.Bundle.meant (S.bundle_of scope.now)) self.now) w.old w.new }
        ensures memory { WritesFree (S.Bundle.shows_own (S.bundle_of scope.now)) self.now result }
    {
        let bundle = scope.bundle();
        let mut unused = String::new(bundle.allocator());
        let mut kept = String::new(bundle.allocator());
        let out = &mut Output {
            writer: w,
            buffer: &mut unused,
            is_buffered: false,
            error: None,
            kept: &mut kept,
            is_kept: false,
        };
        let written = put_value(bundle, out, self);
        with_error(written, &mut out.error)
    }

    /// What the value is shown as: the formatter's answer, where there is one, else its own text.
    ///
    /// # Errors
    ///
    /// An allocation failed.
    pub fn as_string<S: HasBundle<C>>(&self, scope: &S) -> Result<CowStr<'v>, AllocError>
        ensures text { IfOk result (IsShown C.content (S.Bundle.meant (S.bundle_of scope.now)) self.now) }
        ensures succeeds { GivesFree (S.Bundle.shows_own (S.bundle_of scope.now)) self.now result }
    {
        let bundle = scope.bundle();
        let text = match bundle.formatted(self)? {
            Some(text) => text,
            None => own_text(bundle.allocator(), self)?,
        };
        Ok(CowStr::Owned(text))
    }

    /// What the value is shown as, of a value that is not needed any more.
    ///
    /// # Errors
    ///
    /// An allocation failed.
    pub fn into_string<S: HasBundle<C>>(self, scope: &S) -> Result<CowStr<'v>, AllocError>
        ensures text { IfOk result (IsShown C.content (S.Bundle.meant (S.bundle_of scope.now)) self.entry) }
        ensures succeeds { GivesFree (S.Bundle.shows_own (S.bundle_of scope.now)) self.entry result }
    {
        self.as_string(scope)
    }
}

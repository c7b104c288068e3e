//! Values.
ghost use Rattle.std.specs.Prelude.{◌≡◌, IfOk, IsOk};
ghost use Rattle.fluent_semantics.specs.Value as meaning;
ghost use Rattle.fluent_values.specs.Shown.{are_same};
ghost use Rattle.fluent_values.specs.View.{value_view};
ghost use Rattle.fluent_values.specs.ValuesWithoutMemory.{IsBorrowed, IsTextless};

use crate::types::FluentType;
use fluent_intl::FluentNumber;
use fluent_semantics::laws::numbers_read_as_defined;
use std::alloc::{AllocError, Global};
use std::borrow::CowStr;
use std::str::FromStr;

/// A value of an argument or of an expression.
#[derive(Drop)]
pub enum FluentValue<'s, C> {
    /// A text, borrowed or owned.
    String(CowStr<'s>),
    /// A number with its options.
    Number(FluentNumber),
    /// A value of the application's own.
    Custom(C),
    /// No value.
    None,
    /// What a function answers that can't make sense of its arguments.
    Error,
}

impl<'s, C: FluentType> FluentValue<'s, C> {
    /// The number that a text is, or the text itself. The count of digits after the point is kept as the
    /// minimum of fraction digits. Takes no memory.
    pub fn try_number(text: &'s str) -> FluentValue<'s, C>
        ensures { value_view C.content result ≡ meaning.try_number text.now }
    {
        numbers_read_as_defined();
        match FluentNumber::from_str(text) {
            Ok(number) => FluentValue::Number(number),
            Err(_) => FluentValue::String(CowStr::Borrowed(text)),
        }
    }

    /// Whether two values are of one kind and have equal content: texts by their bytes, numbers by their values
    /// and all of their options, custom values as their type says. `None` and `Error` are the same as nothing,
    /// not even as themselves. Takes no memory.
    pub fn same(&self, other: &FluentValue<'s, C>) -> bool
        ensures { result ≡ are_same C.content C.shown C.alike self.now other.now }
    {
        match (self, other) {
            (FluentValue::String(one), FluentValue::String(two)) => one.as_str() == two.as_str(),
            (FluentValue::Number(one), FluentValue::Number(two)) => one == two,
            (FluentValue::Custom(one), FluentValue::Custom(two)) => one.same(two),
            _ => false,
        }
    }

    /// A copy with the same content. A text that is borrowed stays so.
    ///
    /// # Errors
    ///
    /// An allocation failed, which only a text of its own, a currency or a custom value can meet.
    pub fn try_clone(&self, alloc: Global) -> Result<FluentValue<'s, C>, AllocError>
        ensures same { IfOk result (λ copy. value_view C.content copy
            ≡ value_view C.content self.now) }
        ensures succeeds { IsBorrowed self.now → IsOk result }
    {
        match self {
            FluentValue::String(CowStr::Borrowed(text)) => {
                Ok(FluentValue::String(CowStr::Borrowed(*text)))
            }
            _ => self.into_owned(alloc),
        }
    }

    /// A copy with the same content that borrows nothing.
    ///
    /// # Errors
    ///
    /// An allocation failed, which only a text, a currency or a custom value can meet.
    pub fn into_owned<'b>(&self, alloc: Global) -> Result<FluentValue<'b, C>, AllocError>
        ensures same { IfOk result (λ copy. value_view C.content copy
            ≡ value_view C.content self.now) }
        ensures succeeds { IsTextless self.now → IsOk result }
    {
        match self {
            FluentValue::String(text) => {
                let copy = String::from_str(alloc, text.as_str())?;
                Ok(FluentValue::String(CowStr::Owned(copy)))
            }
            FluentValue::Number(number) => Ok(FluentValue::Number(number.try_clone(alloc)?)),
            FluentValue::Custom(custom) => Ok(FluentValue::Custom(custom.duplicate(alloc)?)),
            FluentValue::None => Ok(FluentValue::None),
            FluentValue::Error => Ok(FluentValue::Error),
        }
    }
}

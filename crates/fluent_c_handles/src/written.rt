//! A text as it is written, without asking the formatter about the whole of it.
ghost use Rattle.std.specs.Prelude.{◌≡◌, IfOk, IfErr, string_bytes};
ghost use Rattle.fluent_resolver_state.specs.Status.{reported};
ghost use Rattle.fluent_c_handles.specs.Answers.{bundle_view};
ghost use Rattle.fluent_c_handles.specs.Calls.Formatting.{told_in};
ghost use Rattle.fluent_c_handles.specs.Inside.Written.{NotWritten, Writes};

use crate::opening::Asking;
use crate::texts::{Form, FormatFault, told};
use fluent_answers::OwnValue;
use fluent_bundle::{Counting, FluentArgs, FluentError};
use std::alloc::Global;

/// The text of a value, or of an attribute of a name that is not empty, and what is told of its errors.
pub(crate) fn written<'r, 's: 'r>(
    alloc: Global,
    bundle: &Asking<'r, 's>,
    form: Form,
    id: &str,
    name: &str,
    args: &FluentArgs<'_, OwnValue>,
) -> Result<(String, String), FormatFault>
    ensures ok { IfOk result (Writes form (bundle_view bundle.now) id.now name.now args.now) }
    ensures err { IfErr result (NotWritten (bundle_view bundle.now) id.now name.now) }
{
    let mut errors = Vec::new(alloc);
    let mut writer = Counting::new(Vec::new(alloc));
    let there = if name.is_empty() {
        bundle.write_value(&mut writer, id, Some(args), &mut errors)
    } else {
        bundle.write_attribute(&mut writer, id, name, Some(args), &mut errors)
    };
    match there {
        Ok(true) => both(alloc, form, writer.into_inner(), errors.as_slice()),
        Ok(false) => Err(FormatFault::NoMessage),
        Err(_) => Err(FormatFault::Memory),
    }
}

/// A text that was written, and what is told of errors.
fn both(
    alloc: Global,
    form: Form,
    bytes: Vec<u8>,
    errors: &[FluentError],
) -> Result<(String, String), FormatFault>
    ensures ok { IfOk result (λ t. (string_bytes t.0 ≡ bytes.items) × (string_bytes t.1 ≡ told_in form (reported errors.now))) }
    ensures err { IfErr result (λ f. f ≡ FormatFault.Memory) }
{
    let Ok(text) = String::from_utf8(bytes) else {
        return Err(FormatFault::Memory);
    };
    match told(alloc, form, errors) {
        Ok(lines) => Ok((text, lines)),
        Err(_) => Err(FormatFault::Memory),
    }
}

//! The names of a message's attributes, a line each.
ghost use Rattle.std.specs.Prelude.{◌≡◌, IfOk, string_bytes};
ghost use Rattle.fluent_bundle_entries.specs.MessageView.{message_view};
ghost use Rattle.fluent_c_handles.specs.Calls.Finding.{attribute_names, id_lines};

use fluent_bundle::FluentMessage;
use std::alloc::{AllocError, Global};

/// A line for each attribute of a message, in the order of the source.
///
/// # Errors
///
/// An allocation failed.
pub(crate) fn attribute_lines(
    alloc: Global,
    message: &FluentMessage<'_, '_>,
) -> Result<String, AllocError>
    ensures { IfOk result (λ t. string_bytes t ≡ id_lines (attribute_names (message_view message.now))) }
{
    let mut text = String::new(alloc);
    for attribute in message.attributes() {
        text.push_str(attribute.id())?;
        text.push_str("\n")?;
    }
    Ok(text)
}

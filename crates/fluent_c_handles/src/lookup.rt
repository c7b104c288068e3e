//! Whether a bundle has a message.
ghost use Rattle.std.specs.Prelude.{◌≡◌, is_some};
ghost use Rattle.std.specs.Option.{option_map};
ghost use Rattle.fluent_answers.specs.Tables.{Table};
ghost use Rattle.fluent_bundle.specs.BundleView.{message_at};
ghost use Rattle.fluent_bundle_entries.specs.MessageView.{message_view};
ghost use Rattle.fluent_c_handles.specs.Answers.{bundle_view, found_at, stock_content};

use crate::opening::Asking;
use crate::stock::Stock;
use fluent_bundle::FluentMessage;

/// Whether there is a message of the id with a value, or with an attribute of a name that is not empty. Takes no memory.
pub(crate) fn is_there<'r, 's: 'r>(bundle: &Asking<'r, 's>, id: &str, name: &str) -> bool
    ensures { result ≡ is_some (found_at id.now name.now (bundle_view bundle.now)) }
{
    let Some(message) = bundle.get_message(id) else {
        return false;
    };
    if name.is_empty() {
        message.value().is_some()
    } else {
        message.get_attribute(name).is_some()
    }
}

/// The same of a stock, whatever the caller answers.
pub(crate) fn has_pattern<'r, 's: 'r>(stock: &Stock<'r, 's>, id: &str, name: &str) -> bool
    ensures { (all : Table) → result ≡ is_some (found_at id.now name.now ((stock_content stock.now).by all)) }
{
    is_there(&stock.bundle, id, name)
}

/// The message of the id, whatever the caller answers. Takes no memory.
pub(crate) fn message_of<'r, 's: 'r>(
    stock: &Stock<'r, 's>,
    id: &str,
) -> Option<FluentMessage<'r, 's>>
    ensures { (all : Table) → option_map message_view result ≡ message_at id.now ((stock_content stock.now).by all) }
{
    stock.bundle.get_message(id)
}

//! Where what a caller asks for stands.
ghost use Rattle.std.specs.Prelude.{◌≡◌, IfSome, is_some};
ghost use Rattle.fluent_places.specs.Places.{place_view};
ghost use Rattle.fluent_c_handles.specs.Answers.{bundle_view, found_at, stock_content, unanswered};
ghost use Rattle.fluent_c_handles.specs.Calls.Finding.{place_at};

use crate::opening::Asking;
use crate::stock::Stock;
use fluent_bundle::ast::Identifier;
use fluent_bundle::{FluentMessage, GetEntry};
use fluent_places::Place;

/// The place of a message's value, or of its first attribute of a name that is not empty, where there is one. Takes no memory.
pub(crate) fn place_of<'r, 's: 'r>(stock: &Stock<'r, 's>, id: &str, name: &str) -> Option<Place<'s>>
    ensures there { is_some result ≡ is_some (found_at id.now name.now (unanswered (stock_content stock.now))) }
    ensures is { IfSome result (λ place. place_view place ≡ place_at id.now name.now) }
{
    place_in(&stock.bundle, id, name)
}

/// The same of a bundle, by what was answered last.
fn place_in<'r, 's: 'r>(bundle: &Asking<'r, 's>, id: &str, name: &str) -> Option<Place<'s>>
    ensures there { is_some result ≡ is_some (found_at id.now name.now (bundle_view bundle.now)) }
    ensures is { IfSome result (λ place. place_view place ≡ place_at id.now name.now) }
{
    let message = bundle.get_entry_message(id)?;
    if name.is_empty() {
        return match message.value {
            Some(_) => Some(Place::Message(message.id, None)),
            None => None,
        };
    }
    let attribute = FluentMessage::from(message).get_attribute(name)?;
    let own = Identifier {
        name: attribute.id(),
    };
    Some(Place::Message(message.id, Some(own)))
}

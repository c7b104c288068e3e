//! Whether a name or a place is one of some.

ghost use Rattle.std.specs.Prelude.{◌≡◌};
ghost use Rattle.fluent_places.specs.Asked.{texts};
ghost use Rattle.fluent_places.specs.Places.{place_view, views};
ghost use Rattle.fluent_differences.specs.Among.{is_at, is_in};

use fluent_places::Place;
use indexmap::IndexSet;

/// Whether a name is among these.
pub(crate) fn has(names: &IndexSet<&str>, name: &str) -> bool
    ensures { result ≡ is_in name.now (texts names.now.keys) }
{
    names.contains(name)
}

/// Whether a place is among these.
pub fn stands<'s>(places: &IndexSet<Place<'s>>, place: &Place<'s>) -> bool
    ensures { result ≡ is_at (place_view place.now) (views places.now.keys) }
{
    places.contains(place)
}

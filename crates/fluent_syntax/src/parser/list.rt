//! Adding to a list.
ghost use Rattle.std.specs.Prelude.{◌≡◌, ◌∷◌, ◌++◌, [], OnOk};

use std::alloc::AllocError;

/// Adds an element after the others.
///
/// `Vec::push` hands back an element that found no room, which makes each push of a large one dearer; here it is dropped.
#[inline(always)]
pub fn push<T: Drop>(list: &mut Vec<T>, element: T) -> Result<(), AllocError>
    ensures items { OnOk result (list.new.items ≡ list.old.items ++ element ∷ []) }
{
    list.reserve(1)?;
    list.push_reserved(element);
    Ok(())
}

//! Slots: what ids name, with what is kept of its patterns.
ghost use Rattle.std.specs.Prelude.{◌≡◌};
ghost use Rattle.std.specs.Option.{option_map};
ghost use Rattle.fluent_bundle_entries.specs.KeptLinks.{attributes_kept, value_kept};

use crate::entry::Entry;
use fluent_references::Linked;

/// What is kept of an entry's value, and of each of its attributes.
#[derive(Drop)]
pub struct Kept {
    pub value: Option<Linked>,
    pub attributes: Vec<Linked>,
}

/// What an id names, with what is kept of its patterns where one of them refers to anything.
///
/// Most entries are texts and variables. What is kept stands after a box, so that their slots have 40 bytes in place
/// of 88.
#[derive(Drop)]
pub struct Slot<'r, 's, F> {
    pub entry: Entry<'r, 's, F>,
    pub kept: Option<Box<Kept>>,
}

impl<'r, 's, F> Slot<'r, 's, F> {
    /// What is kept of its value, if anything is.
    #[inline(always)]
    pub fn value(&self) -> Option<&Linked>
        ensures { option_map (λ l. l.now) result ≡ value_kept self.now.kept }
    {
        match &self.kept {
            Some(kept) => kept.value.as_ref(),
            None => None,
        }
    }

    /// What is kept of its attributes: of each, or nothing at all.
    #[inline(always)]
    pub fn attributes(&self) -> &[Linked]
        ensures { result.now ≡ attributes_kept self.now.kept }
    {
        match &self.kept {
            Some(kept) => &kept.attributes,
            None => &[],
        }
    }
}

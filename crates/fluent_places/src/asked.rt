//! Which variables places ask for, where that was gathered.

ghost use Rattle.std.specs.Prelude.{◌≡◌, [], IfOk, OnOk};
ghost use Rattle.std.specs.Option.{option_map};
ghost use Rattle.fluent_places.specs.Inside.Sharing.{AddsList, IsSetTo};
ghost use Rattle.fluent_places.specs.Asked.{index_of, list_of};
ghost use Rattle.fluent_places.specs.Places.{place_view};

use crate::place::Place;
use indexmap::{IndexMap, IndexSet};
use std::alloc::{AllocError, Global};

/// The variables that places ask the arguments for. Places that lead to one another have one list.
#[derive(Drop)]
pub struct Asked<'s> {
    lists: Vec<IndexSet<&'s str>>,
    /// Which of the lists is that of a place.
    indexes: IndexMap<Place<'s>, usize>,
}

impl<'s> Asked<'s> {
    /// Of no place.
    pub(crate) fn new(alloc: Global) -> Asked<'s>
        ensures { result.indexes.entries ≡ [] }
    {
        Asked {
            lists: Vec::new(alloc),
            indexes: IndexMap::new(alloc),
        }
    }

    /// The list of a place, if it has one: of what [`crate::variables_at`] was handed, the variables that it asks for.
    pub fn of(&self, place: &Place<'s>) -> Option<&IndexSet<&'s str>>
        ensures { option_map (λ l. l.now.keys) result ≡ list_of self.now (place_view place.now) }
    {
        let index = self.indexes.get(place)?;
        self.lists.get(*index)
    }

    /// Which list is that of a place, if it has one.
    pub(crate) fn index_of(&self, place: &Place<'s>) -> Option<usize>
        ensures { result ≡ index_of self.now (place_view place.now) }
    {
        match self.indexes.get(place) {
            Some(index) => Some(*index),
            None => None,
        }
    }

    /// Adds a list, as that of a place: which one it is.
    pub(crate) fn add(
        &mut self,
        place: Place<'s>,
        names: IndexSet<&'s str>,
    ) -> Result<usize, AllocError>
        ensures { IfOk result (AddsList self.old self.new place.entry names.entry.keys) }
    {
        let index = self.lists.len();
        self.lists.push(names)?;
        self.indexes.insert(place, index)?;
        Ok(index)
    }

    /// Has a place share a list.
    pub(crate) fn share(&mut self, place: Place<'s>, index: usize) -> Result<(), AllocError>
        ensures lists { OnOk result (self.new.lists ≡ self.old.lists) }
        ensures place { OnOk result (IsSetTo self.old self.new place.entry index) }
    {
        self.indexes.insert(place, index)?;
        Ok(())
    }
}

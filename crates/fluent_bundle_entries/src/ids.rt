//! The map of ids.
ghost use Rattle.std.proofs.Props.{props};
ghost use Rattle.fluent_references.specs.Slots.{slots};
ghost use Rattle.fluent_references.specs.Table.{table as contents};
ghost use Rattle.fluent_bundle_entries.specs.KeptLinks.{AreLinked, content_set};
ghost use Rattle.fluent_bundle_entries.specs.Named.{AreNamed};

use crate::entry::Entry;
use crate::slot::Slot;
use fluent_ast::ast::Pattern;
use fluent_references::{Classes, Linked, Slots};
use std::alloc::{AllocError, Global};
use std::borrow::CowStr;

/// What each id names: ids of a source are slices of it, those of functions are copied. Each id that was seen has a
/// number, and each content of a pattern a class, which stay their own.
pub struct Ids<'r, 's, F> {
    known: Slots<'s, Slot<'r, 's, F>>,
    classes: Classes<'r, 's>,
    /// A message or a term stands under its own id.
    ghost named: { AreNamed (slots known) },
    /// What is kept in a slot is that of its entry's patterns.
    ghost linked: { AreLinked (slots known) (contents classes) } by { Prim.hlevel (props, content_set) },
}

// Written out, so that the drop of what ids name is proved here, and is one step of a caller's proof.
impl<'r, 's: 'r, F: Drop> Drop for Ids<'r, 's, F> {
    fn drop(self) {
        let Ids {
            known: _,
            classes: _,
        } = self;
    }
}

impl<'r, 's, F> Ids<'r, 's, F> {
    ghost use Rattle.std.specs.Prelude.{◌≡◌, [], IfSome};
    ghost use Rattle.fluent_ast.specs.Tree.{Text};
    ghost use Rattle.fluent_semantics.specs.Bundle.{Function};
    ghost use Rattle.fluent_bundle_entries.specs.EntryView.{ids};
    ghost use Rattle.fluent_bundle_entries.specs.IdNumbers.{IsNumberOf};
    ghost use Rattle.fluent_bundle_entries.specs.KeptInIds.{IsLinkedIn};
    ghost use Rattle.fluent_bundle_entries.specs.Inside.LookUps.{FindsEntry, FindsSlot, TellsFilled, TellsNamed};
    ghost use Rattle.fluent_bundle_entries.specs.Named.{IsNamed};

    /// A map that names nothing. It takes no memory yet.
    pub fn new(alloc: Global) -> Ids<'r, 's, F>
        ensures { (answer : F → Function Text) → ids answer result ≡ [] }
    {
        Ids {
            known: Slots::new(alloc),
            classes: Classes::new(alloc),
        }
    }

    /// What an id names, or `None`. Takes no memory.
    pub fn named<'m>(&'m self, id: &str) -> Option<&'m Entry<'r, 's, F>>
        ensures content { FindsEntry self.now id.now result }
        ensures own { IfSome result (λ e. IsNamed id.now e.now) }
    {
        let slot = self.slot(id, None)?;
        Some(&slot.entry)
    }

    /// What an id names, with what is kept of its patterns: by the id's number where that is known, else by look-up.
    /// Of a number that isn't the id's nothing is promised. Takes no memory.
    pub fn slot<'m>(&'m self, id: &str, number: Option<u32>) -> Option<&'m Slot<'r, 's, F>>
        ensures content { IsNumberOf self.now id.now number → FindsSlot self.now id.now result }
        ensures own { IsNumberOf self.now id.now number → IfSome result (λ s. IsNamed id.now s.now.entry) }
        ensures linked { IsNumberOf self.now id.now number → IfSome result (λ s. IsLinkedIn self.now s.now) }
    {
        match number {
            Some(number) => self.known.at(number),
            None => self.known.find(id),
        }
    }

    /// Whether an id names something.
    pub fn is_known(&self, id: &str) -> bool
        ensures { TellsNamed self.now id.now result }
    {
        self.known.find(id).is_some()
    }

    /// Whether the id with this number names something.
    pub fn is_filled(&self, number: u32) -> bool
        ensures { TellsFilled self.now number result }
    {
        self.known.at(number).is_some()
    }
}

impl<'r, 's, F: Drop> Ids<'r, 's, F> {
    ghost use Rattle.std.specs.Prelude.{◌≡◌, IfOk, Some};
    ghost use Rattle.std.specs.Cow.{cow_str_bytes};
    ghost use Rattle.fluent_ast.specs.Tree.{Text};
    ghost use Rattle.fluent_ast.specs.View.{pattern_view};
    ghost use Rattle.fluent_references.specs.Linked.{IsOf};
    ghost use Rattle.fluent_bundle_entries.specs.Changes.{FillsSlot, KeepsEntries};
    ghost use Rattle.fluent_bundle_entries.specs.IdNumbers.{Grown, numbers, table};
    ghost use Rattle.fluent_bundle_entries.specs.KeptInIds.{IsLinkedIn};
    ghost use Rattle.fluent_bundle_entries.specs.Named.{IsNamed};

    /// Makes room for so many more ids, so that their numbers and slots are put where they stay. What ids name stays.
    ///
    /// # Errors
    ///
    /// An allocation failed.
    pub fn reserve(&mut self, more: usize) -> Result<(), AllocError>
        ensures grown { Grown self.old self.new }
        ensures same { KeepsEntries self.old self.new }
    {
        self.known.reserve(more)
    }

    /// The number of an id, a new one where it has none. What ids name stays.
    pub fn number_of(&mut self, id: CowStr<'s>) -> Result<u32, AllocError>
        ensures number { IfOk result (λ n. numbers self.new (cow_str_bytes id.entry) ≡ Some n) }
        ensures grown { Grown self.old self.new }
        ensures same { KeepsEntries self.old self.new }
    {
        self.known.number_of(id)
    }

    /// What is kept of a pattern that is going to be stored: its class, and the numbers of what it refers to. What ids
    /// name stays.
    pub fn link(&mut self, alloc: Global, pattern: &'r Pattern<'s>) -> Result<Linked, AllocError>
        ensures linked { IfOk result
            (IsOf (numbers self.new) (table self.new) (pattern_view pattern.now)) }
        ensures grown { Grown self.old self.new }
        ensures same { KeepsEntries self.old self.new }
    {
        Linked::link(alloc, &mut self.known, &mut self.classes, pattern)
    }

    /// Puts an entry into the slot of its own id, which has this number, in place of what it holds.
    pub fn put(&mut self, number: u32, slot: Slot<'r, 's, F>)
        requires own { (id : Text) × (numbers self.old id ≡ Some number) × IsNamed id slot.entry }
        requires linked { IsLinkedIn self.old slot }
        ensures numbers { (id : Text) → numbers self.new id ≡ numbers self.old id }
        ensures table { table self.new ≡ table self.old }
        ensures after { FillsSlot self.old self.new number slot.entry.entry }
    {
        self.known.fill(number, Some(slot));
    }
}

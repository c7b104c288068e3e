//! Slots by number.
ghost use Rattle.std.specs.Prelude.{◌≡◌, ◌<◌, ◌≤◌, ◌+◌, ◌^◌, [], ◌∷◌, ◌++◌, length, IfOk, IsOk, OnOk, OnErr, Some, None};
ghost use Rattle.std.specs.Cow.{cow_str_bytes};
ghost use Rattle.std.specs.Option.{option_map};
ghost use Rattle.indexmap.specs.Layout.{set_value_at};
ghost use Rattle.fluent_ast.specs.Tree.{Text};
ghost use Rattle.fluent_references.specs.Inside.Filling.{Fills, IsNamedBy};
ghost use Rattle.fluent_references.specs.Links.{KeepsNumbers};
ghost use Rattle.fluent_references.specs.Slots.{room, slots, number as number_in, named, slot_at, with_slot};

use indexmap::IndexMap;
use std::alloc::{AllocError, Global};
use std::borrow::CowStr;

/// The index as a number, which has 32 bits.
fn as_number(index: usize) -> Result<u32, AllocError>
    ensures number { IfOk result (λ n. n ≡ index) }
    ensures succeeds { index < 2 ^ 32 → IsOk result }
{
    u32::try_from(index).map_err(|_| AllocError)
}

/// A slot for each id that was seen, in the order in which they were seen: what the id names, or nothing.
#[derive(Drop)]
pub struct Slots<'s, X> {
    ids: IndexMap<CowStr<'s>, Option<X>>,
}

impl<'s, X> Slots<'s, X> {
    /// No slots. They take no memory yet.
    #[tactic(auto, unfolding(crate::specs::Slots::slots))]
    pub fn new(alloc: Global) -> Slots<'s, X>
        ensures { slots result ≡ [] }
    {
        Slots {
            ids: IndexMap::new(alloc),
        }
    }

    /// What an id names, or `None`. Takes no memory.
    pub fn find(&self, id: &str) -> Option<&X>
        ensures { option_map (λ x. x.now) result ≡ named id.now (slots self.now) }
    {
        self.ids.get(id)?.as_ref()
    }

    /// What stands in the slot of a number, or `None`. Takes no memory.
    #[tactic(auto, unfolding(crate::specs::Slots::slots))]
    pub fn at(&self, number: u32) -> Option<&X>
        ensures slot { option_map (λ x. x.now) result ≡ slot_at number (slots self.now) }
        // By the number of an id it is what the id names.
        ensures by_id { IsNamedBy self.now number (option_map (λ x. x.now) result) }
    {
        let (_, slot) = self.ids.get_index(number as usize)?;
        slot.as_ref()
    }
}

impl<'s, X: Drop> Slots<'s, X> {
    /// The number of an id: its own, or a new one with an empty slot, for which memory is taken where there is no room
    /// left. What ids name stays.
    ///
    /// # Errors
    ///
    /// An allocation failed, or there are 2^32 numbers: no slot is added.
    pub fn number_of(&mut self, id: CowStr<'s>) -> Result<u32, AllocError>
        ensures number { IfOk result (λ n.
            number_in (slots self.new) (cow_str_bytes id.entry) ≡ Some n) }
        ensures kept { KeepsNumbers (number_in (slots self.old)) (number_in (slots self.new)) }
        ensures named { (q : Text) → named q (slots self.new) ≡ named q (slots self.old) }
        ensures ok { OnOk result (slots self.new
            ≡ with_slot (cow_str_bytes id.entry) (slots self.old)) }
        ensures err { OnErr result (slots self.new ≡ slots self.old) }
        // With room it isn't refused while there are numbers, and it uses up the room of one.
        ensures succeeds { 0 < room self.old → length (slots self.old) < 2 ^ 32 → IsOk result }
        ensures room { room self.old ≤ room self.new + 1 }
    {
        if let Some(index) = self.ids.get_index_of(id.as_str()) {
            return as_number(index);
        }
        let number = as_number(self.ids.len())?;
        self.add(id)?;
        Ok(number)
    }

    /// Makes room for so many more ids, so that giving them numbers moves nothing and takes no memory. What ids name
    /// stays.
    ///
    /// # Errors
    ///
    /// An allocation failed.
    #[tactic(auto, unfolding(crate::specs::Slots::slots))]
    pub fn reserve(&mut self, more: usize) -> Result<(), AllocError>
        ensures slots { slots self.new ≡ slots self.old }
        ensures room { OnOk result (more ≤ room self.new) }
        ensures kept { room self.old ≤ room self.new }
        ensures succeeds { more ≤ room self.old → IsOk result }
    {
        self.ids.reserve(more)
    }

    /// An empty slot for an id that has none yet.
    #[tactic(auto, unfolding(crate::specs::Slots::slots))]
    fn add(&mut self, id: CowStr<'s>) -> Result<(), AllocError>
        requires { number_in (slots self.old) (cow_str_bytes id) ≡ None }
        ensures ok { OnOk result (slots self.new
            ≡ slots self.old ++ (cow_str_bytes id.entry, None) ∷ []) }
        ensures err { OnErr result (slots self.new ≡ slots self.old) }
        ensures succeeds { 0 < room self.old → IsOk result }
        ensures room { room self.old ≤ room self.new + 1 }
    {
        self.ids.insert(id, None)?;
        Ok(())
    }

    /// Puts what it names, if anything, into the slot of an id with this number, in place of what stood there.
    #[tactic(auto, unfolding(crate::specs::Slots::slots))]
    pub fn fill(&mut self, number: u32, x: Option<X>)
        ensures numbers { (id : Text) →
            number_in (slots self.new) id ≡ number_in (slots self.old) id }
        ensures filled { Fills self.old self.new number x }
        // A number beyond them changes nothing.
        ensures set { slots self.new ≡ set_value_at (slots self.old) number x }
    {
        if let Some(slot) = self.ids.get_index_mut(number as usize) {
            *slot = x;
        }
    }
}

//! Entries that wait to be put into their slots.
ghost use Rattle.std.specs.Prelude.{◌≡◌, ◌++◌, [], ◌∷◌, IfOk, OnOk};
ghost use Rattle.std.specs.Option.{option_to_list};
ghost use Rattle.fluent_adding.specs.Inside.AddingSteps.{IsMarkedToo, ready};
ghost use Rattle.fluent_adding.specs.Inside.WaitingEntries.{is_marked};

use fluent_bundle_entries::Kept;
use std::alloc::{AllocError, Global};

/// An entry that waits: its index among the entries of the call, the number of its id, and whether anything is kept of
/// its patterns.
#[derive(Drop)]
pub(crate) struct Ready {
    pub(crate) index: u32,
    pub(crate) number: u32,
    pub(crate) is_linked: bool,
}

/// The entries that wait, in order, and in the same order what is kept of those of which anything is.
///
/// Each takes twelve bytes, since it is found again by its index; what is put into its slot has 32.
#[derive(Drop)]
pub(crate) struct Waiting {
    pub(crate) list: Vec<Ready>,
    pub(crate) kept: Vec<Box<Kept>>,
}

impl Waiting {
    /// None that waits, with room for so many.
    pub(crate) fn with_capacity(alloc: Global, count: usize) -> Result<Waiting, AllocError>
        ensures list { IfOk result (λ w. w.list.items ≡ []) }
        ensures kept { IfOk result (λ w. w.kept.items ≡ []) }
    {
        Ok(Waiting {
            list: Vec::with_capacity(alloc, count)?,
            kept: Vec::new(alloc),
        })
    }

    /// Puts one more after them.
    pub(crate) fn push(
        &mut self,
        index: u32,
        number: u32,
        kept: Option<Box<Kept>>,
    ) -> Result<(), AllocError>
        ensures list { OnOk result (self.new.list.items ≡ self.old.list.items ++ ready index number kept ∷ []) }
        ensures kept { OnOk result (self.new.kept.items ≡ self.old.kept.items ++ option_to_list kept) }
    {
        let is_linked = kept.is_some();
        self.list.push(Ready {
            index,
            number,
            is_linked,
        })?;
        if let Some(kept) = kept {
            self.kept.push(kept)?;
        }
        Ok(())
    }
}

/// Whether a number is marked.
pub(crate) fn is_marked(marks: &[bool], number: u32) -> bool
    ensures { result ≡ is_marked marks.now number }
{
    match marks.get(number as usize) {
        Some(mark) => *mark,
        None => false,
    }
}

/// Marks a number.
pub(crate) fn mark(marks: &mut Vec<bool>, number: u32) -> Result<(), AllocError>
    ensures { OnOk result (IsMarkedToo number marks.old.items marks.new.items) }
{
    let index = number as usize;
    if marks.len() <= index {
        marks.resize(index + 1, false)?;
    }
    marks[index] = true;
    Ok(())
}

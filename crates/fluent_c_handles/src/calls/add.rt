//! Adds sources, and tells what was passed over in them.
ghost use Rattle.fluent_c_handles.specs.Calls.Adding.{AddsOverriding, AddsSource, TellsReport};
ghost use Rattle.fluent_c_handles.specs.Answers.{SlotDoes, SlotGivesText, WhenOpen};

use crate::answer::Answer;
use crate::slot::Slot;
use crate::sources::SourceFault;
use crate::stock::Stock;
use crate::turns::Call;
use std::alloc::{AllocError, Global};

/// To add a source.
#[derive(Drop)]
struct Add<'w> {
    source: &'w [u8],
}

/// To add a source whose entries take the place of what has their ids.
#[derive(Drop)]
struct Override<'w> {
    source: &'w [u8],
}

/// To tell what was passed over.
#[derive(Drop)]
struct Report {}

impl Slot {
    /// Adds a source (0): of its entries those whose id is free. Its report, of what can't be read and of entries whose id was
    /// there, takes the place of the one before. Else all stays: 2, an allocation failed; 3, the source is not UTF-8, which is
    /// told before any memory is taken; 11, no bundle is open.
    pub fn add(&mut self, alloc: Global, source: &[u8]) -> u8
        ensures { SlotDoes (WhenOpen (AddsSource source.now)) self result }
    {
        self.ask(alloc, &Add { source }).status()
    }

    /// Adds a source (0) whose entries take the place of what has their ids. Its report, of what can't be read, takes the place
    /// of the one before. Else all stays: 2, an allocation failed; 3, the source is not UTF-8; 11, no bundle is open.
    pub fn add_overriding(&mut self, alloc: Global, source: &[u8]) -> u8
        ensures { SlotDoes (WhenOpen (AddsOverriding source.now)) self result }
    {
        self.ask(alloc, &Override { source }).status()
    }

    /// Gives the report on the source that was added last: a line for each part that can't be read, and for each entry that was
    /// passed over since its id was there. The bundle stays. 0: `out` begins with the text. 1: it has no room, and stays. Else
    /// nothing is given: 2, an allocation failed; 11, no bundle is open.
    pub fn report(&mut self, alloc: Global, out: &mut [u8], length: &mut usize) -> u8
        ensures { SlotGivesText (WhenOpen TellsReport) self out length result }
    {
        self.ask(alloc, &Report {}).give_one(out, length)
    }
}

impl Call for Add<'_> {
    ghost does = { λ add. AddsSource add.source.now };

    fn done<'r, 's: 'r>(&self, alloc: Global, stock: &mut Stock<'r, 's>) -> Answer {
        let (resource, unreadable) = match stock.read(alloc, self.source) {
            Ok(read) => read,
            Err(fault) => return Answer::Fault(fault),
        };
        match stock.put(alloc, resource, unreadable.as_slice()) {
            Ok(()) => Answer::Done,
            Err(AllocError) => Answer::Fault(SourceFault::Memory),
        }
    }
}

impl Call for Override<'_> {
    ghost does = { λ add. AddsOverriding add.source.now };

    fn done<'r, 's: 'r>(&self, alloc: Global, stock: &mut Stock<'r, 's>) -> Answer {
        let (resource, unreadable) = match stock.read(alloc, self.source) {
            Ok(read) => read,
            Err(fault) => return Answer::Fault(fault),
        };
        match stock.put_over(alloc, resource, unreadable.as_slice()) {
            Ok(()) => Answer::Done,
            Err(AllocError) => Answer::Fault(SourceFault::Memory),
        }
    }
}

impl Call for Report {
    ghost does = { λ _. TellsReport };

    fn done<'r, 's: 'r>(&self, alloc: Global, stock: &mut Stock<'r, 's>) -> Answer {
        match String::from_str(alloc, stock.told.as_str()) {
            Ok(text) => Answer::Texts {
                text,
                lines: String::new(alloc),
            },
            Err(AllocError) => Answer::Fault(SourceFault::Memory),
        }
    }
}

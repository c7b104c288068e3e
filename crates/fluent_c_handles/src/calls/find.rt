//! Says which messages there are.
ghost use Rattle.fluent_c_handles.specs.Calls.Finding.{HasMessage, HasPattern, ListsAttributes, ListsIds};
ghost use Rattle.fluent_c_handles.specs.Answers.{SlotDoes, SlotGivesText, WhenOpen};

use crate::answer::Answer;
use crate::attributes::attribute_lines;
use crate::lookup::{has_pattern, message_of};
use crate::message_ids::listed_of;
use crate::slot::Slot;
use crate::sources::SourceFault;
use crate::stock::Stock;
use crate::texts::FormatFault;
use crate::turns::Call;
use std::alloc::{AllocError, Global};
use std::str;

/// The ids of all messages.
#[derive(Drop)]
struct Ids {}

/// The names of a message's attributes.
#[derive(Drop)]
struct Attributes<'w> {
    id: &'w [u8],
}

/// Whether there is a message.
#[derive(Drop)]
struct Message<'w> {
    id: &'w [u8],
}

/// Whether there is a message with a value, or with an attribute.
#[derive(Drop)]
struct Part<'w> {
    id: &'w [u8],
    name: &'w [u8],
}

impl Slot {
    /// Gives the ids of all messages, a line each, in the order of their bytes. The bundle stays. 0: `out` begins with the text.
    /// 1: it has no room, and stays. Else nothing is given: 2, an allocation failed; 11, no bundle is open.
    pub fn ids(&mut self, alloc: Global, out: &mut [u8], length: &mut usize) -> u8
        ensures { SlotGivesText (WhenOpen ListsIds) self out length result }
    {
        self.ask(alloc, &Ids {}).give_one(out, length)
    }

    /// Gives the names of a message's attributes, a line each, in the order of the source. The bundle stays. 0: `out` begins with
    /// the text. 1: it has no room, and stays. Else nothing is given: 2, an allocation failed; 7, the id is not UTF-8; 8, there
    /// is no such message; 11, no bundle is open.
    pub fn attributes(&mut self, alloc: Global, id: &[u8], out: &mut [u8], length: &mut usize) -> u8
        ensures { SlotGivesText (WhenOpen (ListsAttributes id.now)) self out length result }
    {
        self.ask(alloc, &Attributes { id }).give_one(out, length)
    }

    /// Whether there is a message: 0 where there is, 8 where there is none; 7, the id is not UTF-8; 11, no bundle is open. The
    /// bundle stays.
    pub fn has(&mut self, alloc: Global, id: &[u8]) -> u8
        ensures { SlotDoes (WhenOpen (HasMessage id.now)) self result }
    {
        self.ask(alloc, &Message { id }).status()
    }

    /// Whether there is a message with a value, or with an attribute of a name that is not empty: 0 where there is, 8 where
    /// there is none; 7, the id or the name is not UTF-8; 11, no bundle is open. The bundle stays.
    pub fn find(&mut self, alloc: Global, id: &[u8], name: &[u8]) -> u8
        ensures { SlotDoes (WhenOpen (HasPattern id.now name.now)) self result }
    {
        self.ask(alloc, &Part { id, name }).status()
    }
}

impl Call for Ids {
    ghost does = { λ _. ListsIds };

    fn done<'r, 's: 'r>(&self, alloc: Global, stock: &mut Stock<'r, 's>) -> Answer {
        match listed_of(alloc, stock) {
            Ok(text) => Answer::Texts {
                text,
                lines: String::new(alloc),
            },
            Err(AllocError) => Answer::Fault(SourceFault::Memory),
        }
    }
}

impl Call for Attributes<'_> {
    ghost does = { λ it. ListsAttributes it.id.now };

    fn done<'r, 's: 'r>(&self, alloc: Global, stock: &mut Stock<'r, 's>) -> Answer {
        let Ok(id) = str::from_utf8(self.id) else {
            return Answer::Fault(SourceFault::Format(FormatFault::NotText));
        };
        let Some(message) = message_of(stock, id) else {
            return Answer::Fault(SourceFault::Format(FormatFault::NoMessage));
        };
        match attribute_lines(alloc, &message) {
            Ok(text) => Answer::Texts {
                text,
                lines: String::new(alloc),
            },
            Err(AllocError) => Answer::Fault(SourceFault::Memory),
        }
    }
}

impl Call for Message<'_> {
    ghost does = { λ it. HasMessage it.id.now };

    fn done<'r, 's: 'r>(&self, _: Global, stock: &mut Stock<'r, 's>) -> Answer {
        let Ok(id) = str::from_utf8(self.id) else {
            return Answer::Fault(SourceFault::Format(FormatFault::NotText));
        };
        if message_of(stock, id).is_some() {
            Answer::Done
        } else {
            Answer::Fault(SourceFault::Format(FormatFault::NoMessage))
        }
    }
}

impl Call for Part<'_> {
    ghost does = { λ it. HasPattern it.id.now it.name.now };

    fn done<'r, 's: 'r>(&self, _: Global, stock: &mut Stock<'r, 's>) -> Answer {
        let (Ok(id), Ok(name)) = (str::from_utf8(self.id), str::from_utf8(self.name)) else {
            return Answer::Fault(SourceFault::Format(FormatFault::NotText));
        };
        if has_pattern(stock, id, name) {
            Answer::Done
        } else {
            Answer::Fault(SourceFault::Format(FormatFault::NoMessage))
        }
    }
}

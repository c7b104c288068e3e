//! Says which variables messages ask for.
ghost use Rattle.fluent_c_handles.specs.Calls.Finding.{ListsVariables};
ghost use Rattle.fluent_c_handles.specs.Answers.{SlotGivesText, WhenOpen};

use crate::answer::Answer;
use crate::place::place_of;
use crate::slot::Slot;
use crate::sources::SourceFault;
use crate::stock::Stock;
use crate::texts::FormatFault;
use crate::turns::Call;
use crate::variables::variable_lines;
use std::alloc::{AllocError, Global};
use std::str;

/// The variables that a value or an attribute asks for.
#[derive(Drop)]
struct Variables<'w> {
    id: &'w [u8],
    name: &'w [u8],
}

impl Slot {
    /// Gives the variables that the value of a message asks the arguments for, or its attribute of a name that is not empty: a
    /// line each, in the order of their bytes. The bundle stays. 0: `out` begins with the text. 1: it has no room, and stays.
    /// Else nothing is given: 2, an allocation failed; 7, the id or the name is not UTF-8; 8, there is no such value or
    /// attribute; 11, no bundle is open.
    pub fn variables(
        &mut self,
        alloc: Global,
        id: &[u8],
        name: &[u8],
        out: &mut [u8],
        length: &mut usize,
    ) -> u8
        ensures { SlotGivesText (WhenOpen (ListsVariables id.now name.now)) self out length result }
    {
        self.ask(alloc, &Variables { id, name })
            .give_one(out, length)
    }
}

impl Call for Variables<'_> {
    ghost does = { λ it. ListsVariables it.id.now it.name.now };

    fn done<'r, 's: 'r>(&self, alloc: Global, stock: &mut Stock<'r, 's>) -> Answer {
        let (Ok(id), Ok(name)) = (str::from_utf8(self.id), str::from_utf8(self.name)) else {
            return Answer::Fault(SourceFault::Format(FormatFault::NotText));
        };
        let Some(place) = place_of(stock, id, name) else {
            return Answer::Fault(SourceFault::Format(FormatFault::NoMessage));
        };
        match variable_lines(alloc, stock, &place) {
            Ok(text) => Answer::Texts {
                text,
                lines: String::new(alloc),
            },
            Err(AllocError) => Answer::Fault(SourceFault::Memory),
        }
    }
}

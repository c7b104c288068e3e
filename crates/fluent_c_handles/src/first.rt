//! The first of several kept bundles that has a message.
ghost use Rattle.std.specs.Prelude.{◌≡◌};
ghost use Rattle.std.specs.List.{position};
ghost use Rattle.fluent_c_handles.specs.Calls.Formatting.{FindsFirst, FormatsFirst, answers, told_in};
ghost use Rattle.fluent_answers.specs.Answered.{AllAgree};
ghost use Rattle.fluent_c_handles.specs.Answers.{SlotsStay, all_kept};

use crate::slot::Slot;
use crate::texts::{Form, Lengths};
use fluent_answers::Meant;
use std::alloc::Global;
use std::str;

/// The status where there is such a message.
const FOUND: u8 = 0;

/// The status where no bundle is open.
const CLOSED: u8 = 11;

/// The status where the id, or the name of the attribute, is not UTF-8.
const NOT_TEXT: u8 = 7;

/// The status where there is no such message.
const NO_MESSAGE: u8 = 8;

/// Formats the value of a message, or its attribute of a name that is not empty, by the first of the bundles that has it:
/// what [`Slot::format`] of that one answers. All bundles stay as they are. No memory is taken to look for it.
///
/// Before any bundle is asked, an id or a name that is not UTF-8 is told. Where a bundle that is not open stands before the
/// first that has the message, or where none has it and one is not open, that is told; else that none has it. Then both
/// buffers are as before, and both lengths are 0.
pub fn format_first(
    alloc: Global,
    meant: &Meant,
    form: Form,
    slots: &mut [Slot],
    id: &[u8],
    name: &[u8],
    args: &[u8],
    answers: &[u8],
    out: &mut [u8],
    err: &mut [u8],
    sizes: &mut Lengths,
) -> u8
    requires { AllAgree meant.now.table answers.now }
    ensures left { SlotsStay slots.old slots.new }
    ensures text { FormatsFirst meant.now.table answers.now (told_in form) id.now name.now args.now slots out err sizes result }
{
    let (Ok(message), Ok(attribute)) = (str::from_utf8(id), str::from_utf8(name)) else {
        return refuse(sizes, NOT_TEXT);
    };
    match first_to_answer(alloc, slots, message, attribute) {
        Some(index) => slots[index].format(
            alloc, meant, form, id, name, args, answers, out, err, sizes,
        ),
        None => refuse(sizes, NO_MESSAGE),
    }
}

/// Says which of several bundles answers [`format_first`]: the index of the first that has the value, or the attribute of a name
/// that is not empty (0), or that is not open (11). Else the index is how many there are: 7, the id or the name is not UTF-8; 8,
/// none has it. All bundles stay as they are. No memory is taken.
pub fn find_first(
    alloc: Global,
    slots: &mut [Slot],
    id: &[u8],
    name: &[u8],
    index: &mut usize,
) -> u8
    ensures left { SlotsStay slots.old slots.new }
    ensures first { FindsFirst id.now name.now slots index result }
{
    *index = slots.len();
    let (Ok(id), Ok(name)) = (str::from_utf8(id), str::from_utf8(name)) else {
        return NOT_TEXT;
    };
    match first_to_answer(alloc, slots, id, name) {
        Some(at) => {
            *index = at;
            if slots[at].is_open { FOUND } else { CLOSED }
        }
        None => NO_MESSAGE,
    }
}

/// The index of the first bundle that has the value or the attribute, or that is not open.
fn first_to_answer(alloc: Global, slots: &mut [Slot], id: &str, name: &str) -> Option<usize>
    ensures left { SlotsStay slots.old slots.new }
    ensures first { result ≡ position (answers id.now name.now) (all_kept slots.old) }
{
    for index in 0..slots.len() {
        let status = slots[index].find(alloc, id.as_bytes(), name.as_bytes());
        if status != NO_MESSAGE {
            return Some(index);
        }
    }
    None
}

/// Gives nothing.
fn refuse(sizes: &mut Lengths, status: u8) -> u8
    ensures zero { (sizes.new.text ≡ 0) × (sizes.new.errors ≡ 0) }
    ensures status { result ≡ status }
{
    *sizes = Lengths { text: 0, errors: 0 };
    status
}

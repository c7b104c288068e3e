//! What C calls: `c/fluent.h` says how.
#![tactic(auto)]

ghost use Rattle.std.specs.Prelude.{◌≡◌, false, true};
ghost use Rattle.fluent_c_handles.specs.Calls.Adding.{AddsOverriding, AddsSource, TellsReport};
ghost use Rattle.fluent_c_handles.specs.Calls.Declaring.{AddsBuiltins, DeclaresFormatter, DeclaresFunction, DeclaresTransform};
ghost use Rattle.fluent_c_handles.specs.Calls.Finding.{HasMessage, HasPattern, ListsAttributes, ListsIds, ListsVariables};
ghost use Rattle.fluent_answers.specs.Answered.{AllAgree};
ghost use Rattle.fluent_c_handles.specs.Calls.Formatting.{FindsFirst, FormatsBy, FormatsFirst, FormatsSource, told_as, told_in};
ghost use Rattle.fluent_c_check.specs.Checks.{ChecksSources};
ghost use Rattle.fluent_c_handles.specs.Calls.Opening.{OpensByRules, OpensByTag, SetsLimit};
ghost use Rattle.fluent_c_handles.specs.Answers.{SlotDoes, SlotGivesText, SlotGivesTexts, SlotCloses, SlotsStay, WhenOpen};

use fluent_answers::Meant;
use fluent_c_check::Checked;
use fluent_c_handles::{Form, Lengths, Slot};
use std::alloc::Global;

/// Formats a message of one source, in a bundle with the plural rules of a language and the function `NUMBER`, isolated as
/// asked: the message's value, or the attribute of the name where that isn't empty. What can't be read in the source is passed
/// over, and so is an entry whose id stands in it before.
///
/// 0: `out` begins with the text, `err` with a line for each of its errors, and `sizes` has both lengths. 1: so too, but a
/// buffer that is too small for its text is as it was. From 2 on both buffers are as they were, both lengths are 0, and the
/// number's cause holds. 2: an allocation failed. 3: the source is not UTF-8, which is told before all else. 4: the tag is
/// not UTF-8; where the CLDR has no rules for the tag, the root's choose. 7: the id or the name is not UTF-8. 8: there is no such
/// message with a value, or with the attribute, which is told before the arguments are read. 9: these are cut short, or one begins
/// with no kind of value. 10: the name or the value of one is not UTF-8.
#[unsafe(no_mangle)]
pub extern "C" fn fluent_format_source(
    alloc: Global,
    tag: &[u8],
    isolate: bool,
    source: &[u8],
    id: &[u8],
    name: &[u8],
    args: &[u8],
    out: &mut [u8],
    err: &mut [u8],
    sizes: &mut Lengths,
) -> u8
    ensures { FormatsSource tag.now isolate source.now id.now name.now args.now out err sizes result }
{
    fluent_c_handles::format_source(alloc, tag, isolate, source, id, name, args, out, err, sizes)
}

/// Opens a bundle for the tag of a language: it has the rules that the CLDR has for the tag, the function `NUMBER` and nothing
/// else, isolates as asked, has a limit of 100 placeables, and its report is empty.
///
/// 0: it is open. 5: it is open with the rules of the root, by which each number is `other`, since the CLDR has none for the tag;
/// of a tag of more than 35 bytes this is so whatever it is. 12: one was open, and stays as it was. Else none is open: 2, an
/// allocation failed; 4, the tag is not UTF-8.
#[unsafe(no_mangle)]
pub extern "C" fn fluent_open(alloc: Global, slot: &mut Slot, tag: &[u8], isolate: bool) -> u8
    ensures { SlotDoes (OpensByTag tag.now isolate false) slot result }
{
    slot.open(alloc, tag, isolate)
}

/// Opens a bundle as `fluent_open` does, without the function `NUMBER`.
#[unsafe(no_mangle)]
pub extern "C" fn fluent_open_bare(alloc: Global, slot: &mut Slot, tag: &[u8], isolate: bool) -> u8
    ensures { SlotDoes (OpensByTag tag.now isolate true) slot result }
{
    slot.open_bare(alloc, tag, isolate)
}

/// Opens a bundle for the plural rules of two texts, as `fluent_open` does by a tag.
///
/// 0: it is open. 12: one was open, and stays as it was. Else none is open: 2, an allocation failed; 4, a text is not UTF-8;
/// 6, the rules can't be read.
#[unsafe(no_mangle)]
pub extern "C" fn fluent_open_rules(
    alloc: Global,
    slot: &mut Slot,
    cardinal: &[u8],
    ordinal: &[u8],
    isolate: bool,
) -> u8
    ensures { SlotDoes (OpensByRules cardinal.now ordinal.now isolate) slot result }
{
    slot.open_rules(alloc, cardinal, ordinal, isolate)
}

/// Sets how many placeables one call opens, and nothing else.
///
/// 0: it is set, and from 1 to 10,000. 13: it is none of these, and the bundle stays as it was. 11: no bundle is open.
#[unsafe(no_mangle)]
pub extern "C" fn fluent_set_limit(alloc: Global, slot: &mut Slot, limit: usize) -> u8
    ensures { SlotDoes (WhenOpen (SetsLimit limit)) slot result }
{
    slot.set_limit(alloc, limit)
}

/// Adds the function `NUMBER`.
///
/// 0: it is added. Else the bundle stays as it was: 15, an entry or a function has its id; 2, an allocation failed; 11, no bundle
/// is open.
#[unsafe(no_mangle)]
pub extern "C" fn fluent_add_builtins(alloc: Global, slot: &mut Slot) -> u8
    ensures { SlotDoes (WhenOpen AddsBuiltins) slot result }
{
    slot.add_builtins(alloc)
}

/// Has an id stand for a function of the caller's from now on, in place of what has the id where `over` is set.
///
/// 0: it does. Else the bundle stays as it was: 15, an entry or a function has the id; 7, it is not UTF-8; 2, an allocation
/// failed; 11, no bundle is open.
#[unsafe(no_mangle)]
pub extern "C" fn fluent_declare_function(
    alloc: Global,
    slot: &mut Slot,
    name: &[u8],
    over: bool,
) -> u8
    ensures { SlotDoes (WhenOpen (DeclaresFunction name.now over)) slot result }
{
    slot.declare_function(alloc, name, over)
}

/// Has the caller be asked how each value is shown from now on, or no longer.
///
/// 0: so it is. 11: no bundle is open.
#[unsafe(no_mangle)]
pub extern "C" fn fluent_declare_formatter(alloc: Global, slot: &mut Slot, on: bool) -> u8
    ensures { SlotDoes (WhenOpen (DeclaresFormatter on)) slot result }
{
    slot.declare_formatter(alloc, on)
}

/// Has the caller be asked what each text element becomes from now on, or no longer.
///
/// 0: so it is. 11: no bundle is open.
#[unsafe(no_mangle)]
pub extern "C" fn fluent_declare_transform(alloc: Global, slot: &mut Slot, on: bool) -> u8
    ensures { SlotDoes (WhenOpen (DeclaresTransform on)) slot result }
{
    slot.declare_transform(alloc, on)
}

/// Adds a source: of its entries those whose id is free, and of each id the first. Its report takes the place of the one
/// before: a line for each part that can't be read, and for each entry that was passed over since its id was there.
///
/// 0: it was added. Else the bundle and its report stay as they were: 2, an allocation failed; 3, the source is not UTF-8; 11,
/// no bundle is open.
#[unsafe(no_mangle)]
pub extern "C" fn fluent_add(alloc: Global, slot: &mut Slot, source: &[u8]) -> u8
    ensures { SlotDoes (WhenOpen (AddsSource source.now)) slot result }
{
    slot.add(alloc, source)
}

/// Adds a source whose entries take the place of what has their ids. Its report takes the place of the one before: a line for
/// each part that can't be read.
///
/// 0: it was added. Else the bundle and its report stay as they were: 2, an allocation failed; 3, the source is not UTF-8; 11,
/// no bundle is open.
#[unsafe(no_mangle)]
pub extern "C" fn fluent_add_overriding(alloc: Global, slot: &mut Slot, source: &[u8]) -> u8
    ensures { SlotDoes (WhenOpen (AddsOverriding source.now)) slot result }
{
    slot.add_overriding(alloc, source)
}

/// Gives the report on the source that was added last, and an empty text before one was. The bundle stays as it was.
///
/// 0: `out` begins with the text, and `length` has its length. 1: the length is there, but `out` is too small, and as it was.
/// Else `out` is as it was, and the length is 0: 2, an allocation failed; 11, no bundle is open.
#[unsafe(no_mangle)]
pub extern "C" fn fluent_report(
    alloc: Global,
    slot: &mut Slot,
    out: &mut [u8],
    length: &mut usize,
) -> u8
    ensures { SlotGivesText (WhenOpen TellsReport) slot out length result }
{
    slot.report(alloc, out, length)
}

/// Gives the ids of all messages, each once and in the order of its bytes, with a line feed after each. The bundle stays as it
/// was.
///
/// The status, `out` and `length` are as those of `fluent_report`.
#[unsafe(no_mangle)]
pub extern "C" fn fluent_ids(
    alloc: Global,
    slot: &mut Slot,
    out: &mut [u8],
    length: &mut usize,
) -> u8
    ensures { SlotGivesText (WhenOpen ListsIds) slot out length result }
{
    slot.ids(alloc, out, length)
}

/// Gives the names of the attributes of a message, in the order of the source, with a line feed after each. The bundle stays as
/// it was.
///
/// The status, `out` and `length` are as those of `fluent_report`, and beside them: 7, the id is not UTF-8; 8, there is no such
/// message.
#[unsafe(no_mangle)]
pub extern "C" fn fluent_attributes(
    alloc: Global,
    slot: &mut Slot,
    id: &[u8],
    out: &mut [u8],
    length: &mut usize,
) -> u8
    ensures { SlotGivesText (WhenOpen (ListsAttributes id.now)) slot out length result }
{
    slot.attributes(alloc, id, out, length)
}

/// Gives the names of the variables that the value of a message asks the arguments for, or the attribute of the name where that
/// isn't empty: its own, those in what it gives to terms and functions, and those of messages that it refers to. Each stands there
/// once, in the order of its bytes, with a line feed after each. The bundle stays as it was.
///
/// The status, `out` and `length` are as those of `fluent_report`, and beside them: 7, the id or the name is not UTF-8; 8, there is
/// no such message with a value, or with the attribute.
#[unsafe(no_mangle)]
pub extern "C" fn fluent_variables(
    alloc: Global,
    slot: &mut Slot,
    id: &[u8],
    name: &[u8],
    out: &mut [u8],
    length: &mut usize,
) -> u8
    ensures { SlotGivesText (WhenOpen (ListsVariables id.now name.now)) slot out length result }
{
    slot.variables(alloc, id, name, out, length)
}

/// Says whether there is a message of an id. The bundle stays as it was.
///
/// 0: there is. 8: there is none. 7: the id is not UTF-8. 11: no bundle is open.
#[unsafe(no_mangle)]
pub extern "C" fn fluent_has(alloc: Global, slot: &mut Slot, id: &[u8]) -> u8
    ensures { SlotDoes (WhenOpen (HasMessage id.now)) slot result }
{
    slot.has(alloc, id)
}

/// Says whether there is a message with a value, or, where the name isn't empty, with an attribute of the name. The bundle stays
/// as it was.
///
/// 0: there is. 8: there is none. 7: the id or the name is not UTF-8. 11: no bundle is open.
#[unsafe(no_mangle)]
pub extern "C" fn fluent_find(alloc: Global, slot: &mut Slot, id: &[u8], name: &[u8]) -> u8
    ensures { SlotDoes (WhenOpen (HasPattern id.now name.now)) slot result }
{
    slot.find(alloc, id, name)
}

/// Formats the value of a message, or the attribute of the name where that isn't empty, by what the caller's functions, formatter
/// and transform answered: `meant` says what they answer to all questions, and `answers` some of it. The bundle stays as it was.
///
/// 0: `out` begins with the text, `err` with a line for each of its errors, or with a record where `records` is set: the letter of
/// its kind, an id and the name of an attribute, each of which may be empty and is followed by a zero byte; `sizes` has both
/// lengths. 1: so too, but a buffer that is too small for its text is as it was. 14: something was declared, and the answers lack
/// one: `out` begins with the question unless it is too small for it, `sizes` has its length, and `err` is as it was. Else both
/// buffers are as they were, both lengths are 0, and the number's cause holds. 2: an allocation failed. 7: the id or the name is
/// not UTF-8. 8: there is no such message with a value, or with the attribute, which is told before the arguments are read. 9: these
/// are cut short, or one begins with no kind of value, or so it is of the answers. 10: the name or the value of one is not UTF-8.
/// 11: no bundle is open. Where nothing was declared no answers are read.
#[unsafe(no_mangle)]
pub extern "C" fn fluent_format_asking(
    alloc: Global,
    slot: &mut Slot,
    meant: &Meant,
    records: bool,
    id: &[u8],
    name: &[u8],
    args: &[u8],
    answers: &[u8],
    out: &mut [u8],
    err: &mut [u8],
    sizes: &mut Lengths,
) -> u8
    requires { AllAgree meant.now.table answers.now }
    ensures { SlotGivesTexts (WhenOpen (FormatsBy meant.now.table answers.now (told_as records) id.now name.now args.now)) slot out err sizes result }
{
    slot.format(
        alloc,
        meant,
        form_of(records),
        id,
        name,
        args,
        answers,
        out,
        err,
        sizes,
    )
}

/// How errors are told.
fn form_of(records: bool) -> Form
    ensures { told_in result ≡ told_as records }
{
    if records { Form::Records } else { Form::Lines }
}

/// Formats a message by the first of some bundles that has the value, or the attribute of the name where that isn't empty, or
/// that isn't open: status, buffers and lengths are as those of `fluent_format_asking` for this one. All bundles stay as they were.
///
/// Where the id or the name is not UTF-8 (7), or all bundles are open and none has it (8), both buffers are as they were, and
/// both lengths are 0.
#[unsafe(no_mangle)]
pub extern "C" fn fluent_format_chain(
    alloc: Global,
    meant: &Meant,
    records: bool,
    slots: &mut [Slot],
    id: &[u8],
    name: &[u8],
    args: &[u8],
    answers: &[u8],
    out: &mut [u8],
    err: &mut [u8],
    sizes: &mut Lengths,
) -> u8
    requires { AllAgree meant.now.table answers.now }
    ensures left { SlotsStay slots.old slots.new }
    ensures text { FormatsFirst meant.now.table answers.now (told_as records) id.now name.now args.now slots out err sizes result }
{
    fluent_c_handles::format_first(
        alloc,
        meant,
        form_of(records),
        slots,
        id,
        name,
        args,
        answers,
        out,
        err,
        sizes,
    )
}

/// Says which of some bundles `fluent_format_chain` asks: the first that has the value, or the attribute of the name where that
/// isn't empty (0), or that isn't open (11); `index` is its place. All bundles stay as they were.
///
/// Where the id or the name is not UTF-8 (7), or all bundles are open and none has it (8), `index` is how many there are.
#[unsafe(no_mangle)]
pub extern "C" fn fluent_find_chain(
    alloc: Global,
    slots: &mut [Slot],
    id: &[u8],
    name: &[u8],
    index: &mut usize,
) -> u8
    ensures left { SlotsStay slots.old slots.new }
    ensures first { FindsFirst id.now name.now slots index result }
{
    fluent_c_handles::find_first(alloc, slots, id, name, index)
}

/// Closes a bundle: none is open then.
#[unsafe(no_mangle)]
pub extern "C" fn fluent_close(alloc: Global, slot: &mut Slot)
    ensures { SlotCloses slot }
{
    slot.close(alloc)
}

/// Tells what is wrong in sources of a language, which count as one: a line for each finding, or a list in JSON; and in `told` the
/// length of that, how many errors and how many warnings there are, and whether the linter finds nothing, so that no text of the
/// sources ever shows an error.
///
/// `sources`, `beside` and `references` are records, of which each is a source by its name and its text: those that are checked,
/// those that are loaded before them, and those that they were translated from, if any. Each name of the records `functions` is a
/// function of the program. Where `language` is empty no plural categories are looked at.
///
/// 0: `out` begins with the text. 1: so it is told, but `out` is too small, and as it was. Else `out` is as it was, and in `told` all
/// is 0: 2, an allocation failed; 4, the language is not UTF-8, which is told first; of the first run of records that can't be
/// read: 9, it is cut short, or a record begins with no kind of value; 10, a name or a text in it is not UTF-8.
#[unsafe(no_mangle)]
pub extern "C" fn fluent_check(
    alloc: Global,
    language: &[u8],
    sources: &[u8],
    beside: &[u8],
    references: &[u8],
    functions: &[u8],
    as_json: bool,
    out: &mut [u8],
    told: &mut Checked,
) -> u8
    ensures { ChecksSources language.now sources.now beside.now references.now functions.now as_json out told result }
{
    fluent_c_check::check_sources(
        alloc, language, sources, beside, references, functions, as_json, out, told,
    )
}

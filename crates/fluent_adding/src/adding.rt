//! Adding the entries of a resource: all that takes memory is made first, and then slots are filled, which can't fail.
ghost use Rattle.std.specs.Prelude.{◌≡◌, ◌<◌, List, IfOk, OnOk, OnErr, Some, length, map};
ghost use Rattle.std.specs.Vec.Iter.{into_iter_items, into_iter_len};
ghost use Rattle.fluent_ast.specs.Tree.{Text};
ghost use Rattle.fluent_ast.specs.View.{entry_view};
ghost use Rattle.fluent_ast.specs.declared.ast.Entry as tree;
ghost use Rattle.fluent_semantics.specs.Arguments.{set_all};
ghost use Rattle.fluent_semantics.specs.Bundle.{added, overridden, not_added};
ghost use Rattle.fluent_adding.specs.Added.{Becomes, Reports};
ghost use Rattle.fluent_adding.specs.Inside.AddingSteps.{AddsAll, AddsAt, AllWait, HasNumberToo, ReportsAll, ReportsAt, TakesFirst, TellsTaken, WaitsToo};
ghost use Rattle.fluent_adding.specs.Inside.WaitingEntries.{AreMarked, AreReadyFor, HasPartsAt, Waits, given_at, given_by};
ghost use Rattle.fluent_bundle_entries.specs.Changes.{KeepsEntries};
ghost use Rattle.fluent_bundle_entries.specs.IdNumbers.{Grown, numbers, table};

use crate::kept::kept_of;
use crate::left::left;
use crate::parts::{Parts, parts_of};
use crate::ready::{Ready, Waiting, is_marked, mark};
use fluent_ast::ast;
use fluent_bundle_entries::{Entry, FluentError, Ids, Kept, Slot};
use std::alloc::{AllocError, Global};
use std::borrow::CowStr;
use std::vec::IntoIter;

/// Puts an entry after those that wait, with the number of its id and what is kept of its patterns.
fn make_ready<'r, 's, F: Drop>(
    alloc: Global,
    known: &mut Ids<'r, 's, F>,
    index: u32,
    number: u32,
    parts: Parts<'r, 's>,
    waiting: &mut Waiting,
) -> Result<(), AllocError>
    requires { numbers known.old parts.id.now ≡ Some number }
    ensures ready { OnOk result ((es : List tree.Entry) → HasPartsAt es index parts.entry →
        AreReadyFor known.old es waiting.old → AreReadyFor known.new es waiting.new) }
    ensures more { OnOk result ((es : List tree.Entry) → WaitsToo es index waiting.old waiting.new) }
    ensures number { OnOk result (HasNumberToo number waiting.old waiting.new) }
    ensures grown { Grown known.old known.new }
    ensures same { KeepsEntries known.old known.new }
{
    let kept = kept_of(alloc, known, parts.value, parts.attributes)?;
    waiting.push(index, number, kept)?;
    Ok(())
}

/// Has the entry at an index wait to be put in place of what its id names. Junk is passed over.
fn override_entry<'r, 's, F: Drop>(
    alloc: Global,
    known: &mut Ids<'r, 's, F>,
    entries: &'r [ast::Entry<'s>],
    index: u32,
    waiting: &mut Waiting,
) -> Result<(), AllocError>
    requires within { index < length entries.now }
    requires ready { AreReadyFor known.old entries.now waiting.old }
    ensures ready { OnOk result (AreReadyFor known.new entries.now waiting.new) }
    ensures given { OnOk result (WaitsToo entries.now index waiting.old waiting.new) }
    ensures grown { Grown known.old known.new }
    ensures same { KeepsEntries known.old known.new }
{
    let Some(parts) = parts_of(&entries[index as usize]) else {
        return Ok(());
    };
    let number = known.number_of(CowStr::Borrowed(parts.id))?;
    make_ready(alloc, known, index, number, parts, waiting)
}

/// Has each message and term wait to be put in place of what its id names.
fn override_all<'r, 's, F: Drop>(
    alloc: Global,
    known: &mut Ids<'r, 's, F>,
    entries: &'r [ast::Entry<'s>],
) -> Result<Waiting, AllocError>
    ensures ready { IfOk result (AreReadyFor known.new entries.now) }
    ensures given { IfOk result (AllWait entries.now) }
    ensures grown { Grown known.old known.new }
    ensures same { KeepsEntries known.old known.new }
{
    let mut waiting = Waiting::with_capacity(alloc, entries.len())?;
    'entries: for index in 0..as_index(entries.len())? {
        override_entry(alloc, known, entries, index, &mut waiting)?;
    }
    Ok(waiting)
}

/// Whether the id with this number names something, or an entry waits for it.
fn is_taken<'r, 's, F>(known: &Ids<'r, 's, F>, marks: &[bool], number: u32) -> bool
    ensures { TellsTaken known.now marks.now number result }
{
    is_marked(marks, number) || known.is_filled(number)
}

/// Has the entry at an index wait where its id is free, and reports it otherwise. Junk is passed over.
fn add_entry<'r, 's, F: Drop>(
    alloc: Global,
    known: &mut Ids<'r, 's, F>,
    entries: &'r [ast::Entry<'s>],
    index: u32,
    waiting: &mut Waiting,
    marks: &mut Vec<bool>,
    errors: &mut Vec<FluentError>,
) -> Result<(), AllocError>
    requires within { index < length entries.now }
    requires ready { AreReadyFor known.old entries.now waiting.old }
    requires marked { AreMarked marks.old.items waiting.old.list.items }
    ensures ready { OnOk result (AreReadyFor known.new entries.now waiting.new) }
    ensures marked { OnOk result (AreMarked marks.new.items waiting.new.list.items) }
    ensures after { OnOk result (AddsAt known.old entries.now index waiting.old waiting.new) }
    ensures told { OnOk result (ReportsAt known.old entries.now index waiting.old errors.old errors.new) }
    ensures grown { Grown known.old known.new }
    ensures same { KeepsEntries known.old known.new }
{
    let Some(parts) = parts_of(&entries[index as usize]) else {
        return Ok(());
    };
    let number = known.number_of(CowStr::Borrowed(parts.id))?;
    if is_taken(known, marks, number) {
        errors.push(left(alloc, parts.kind, parts.id)?)?;
        return Ok(());
    }
    mark(marks, number)?;
    make_ready(alloc, known, index, number, parts, waiting)
}

/// Has each message and term wait whose id is free when its turn comes, and reports the others.
fn add_all<'r, 's, F: Drop>(
    alloc: Global,
    known: &mut Ids<'r, 's, F>,
    entries: &'r [ast::Entry<'s>],
    errors: &mut Vec<FluentError>,
) -> Result<Waiting, AllocError>
    ensures ready { IfOk result (AreReadyFor known.new entries.now) }
    ensures after { IfOk result (AddsAll known.old entries.now) }
    ensures told { OnOk result (ReportsAll known.old entries.now errors.old errors.new) }
    ensures grown { Grown known.old known.new }
    ensures same { KeepsEntries known.old known.new }
{
    let mut waiting = Waiting::with_capacity(alloc, entries.len())?;
    let mut marks = Vec::with_capacity(alloc, entries.len())?;
    'entries: for index in 0..as_index(entries.len())? {
        add_entry(
            alloc,
            known,
            entries,
            index,
            &mut waiting,
            &mut marks,
            errors,
        )?;
    }
    Ok(waiting)
}

/// Puts an entry into the slot of its id's number, with what is kept of its patterns.
fn put_one<'r, 's, F: Drop>(
    known: &mut Ids<'r, 's, F>,
    entries: &'r [ast::Entry<'s>],
    ready: Ready,
    kept: Option<Box<Kept>>,
)
    requires { Waits (numbers known.old) (table known.old) entries.now ready kept }
    ensures numbers { (id : Text) → numbers known.new id ≡ numbers known.old id }
    ensures table { table known.new ≡ table known.old }
    ensures after { Becomes known.old known.new (set_all (given_at entries.now ready.index)) }
{
    match &entries[ready.index as usize] {
        ast::Entry::Message(message) => {
            let entry = Entry::Message(message);
            known.put(ready.number, Slot { entry, kept });
        }
        ast::Entry::Term(term) => {
            let entry = Entry::Term(term);
            known.put(ready.number, Slot { entry, kept });
        }
        ast::Entry::Junk { .. } => {}
    }
}

/// What is kept of the next that waits, if anything is.
fn next_kept(kept: &mut IntoIter<Box<Kept>>, is_linked: bool) -> Option<Box<Kept>>
    requires { into_iter_len kept.old ≡ length (into_iter_items kept.old) }
    ensures next { TakesFirst (into_iter_items kept.old) is_linked result (into_iter_items kept.new) }
    ensures full { into_iter_len kept.new ≡ length (into_iter_items kept.new) }
{
    if is_linked { kept.next() } else { None }
}

/// Puts all that wait into their slots, in order, in place of what stood there.
fn put_all<'r, 's, F: Drop>(
    known: &mut Ids<'r, 's, F>,
    entries: &'r [ast::Entry<'s>],
    waiting: Waiting,
)
    requires { AreReadyFor known.old entries.now waiting }
    ensures grown { Grown known.old known.new }
    ensures after { Becomes known.old known.new (set_all (given_by entries.now waiting.list.items)) }
{
    let Waiting { list, kept } = waiting;
    let mut kept = kept.into_iter();
    for ready in list {
        let kept = next_kept(&mut kept, ready.is_linked);
        put_one(known, entries, ready, kept);
    }
}

/// The number of entries, which has 32 bits.
fn as_index(count: usize) -> Result<u32, AllocError>
    ensures { IfOk result (λ n. n ≡ count) }
{
    u32::try_from(count).map_err(|_| AllocError)
}

/// Adds each message and term whose id is free when its turn comes, in order. The answer has an error for each
/// other one, in order too. Junk is passed over.
///
/// # Errors
///
/// An allocation failed: each id names what it named.
pub fn add_entries<'r, 's, F: Drop>(
    alloc: Global,
    known: &mut Ids<'r, 's, F>,
    entries: &'r [ast::Entry<'s>],
) -> Result<Vec<FluentError>, AllocError>
    ensures grown { Grown known.old known.new }
    ensures after { OnOk result (Becomes known.old known.new (added (map entry_view entries.now))) }
    ensures errors { IfOk result (Reports known.old (not_added (map entry_view entries.now))) }
    ensures err { OnErr result (KeepsEntries known.old known.new) }
{
    known.reserve(entries.len())?;
    let mut errors = Vec::new(alloc);
    let waiting = add_all(alloc, known, entries, &mut errors)?;
    put_all(known, entries, waiting);
    Ok(errors)
}

/// Puts each message and term, in order, in place of what its id names, if anything. Junk is passed over.
///
/// # Errors
///
/// An allocation failed: each id names what it named.
pub fn override_entries<'r, 's, F: Drop>(
    alloc: Global,
    known: &mut Ids<'r, 's, F>,
    entries: &'r [ast::Entry<'s>],
) -> Result<(), AllocError>
    ensures grown { Grown known.old known.new }
    ensures after { OnOk result (Becomes known.old known.new (overridden (map entry_view entries.now))) }
    ensures err { OnErr result (KeepsEntries known.old known.new) }
{
    known.reserve(entries.len())?;
    let waiting = override_all(alloc, known, entries)?;
    put_all(known, entries, waiting);
    Ok(())
}

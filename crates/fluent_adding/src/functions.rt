//! Adding a function of the application, or a built-in one.
ghost use Rattle.std.specs.Prelude.{◌≡◌, ℕ, [], IfOk, List, None, OnErr, OnOk, Option};
ghost use Rattle.std.specs.Cow.{cow_str_bytes};
ghost use Rattle.fluent_ast.specs.Tree.{Pattern, Text};
ghost use Rattle.fluent_adding.specs.Added.{AddsFree, ReportsIfTaken, SetsEntry};
ghost use Rattle.fluent_bundle_entries.specs.Changes.{KeepsEntries};
ghost use Rattle.fluent_bundle_entries.specs.IdNumbers.{Grown};
ghost use Rattle.fluent_bundle_entries.specs.KeptLinks.{IsLinked, attributes_in, value_in};
ghost use Rattle.fluent_bundle_entries.specs.Named.{IsNamed};
ghost use Rattle.fluent_bundle_entries.specs.declared.entry.Entry.TheVariants as entry;

use crate::left::left;
use fluent_bundle_entries::{Entry, EntryKind, FluentError, Ids, Slot};
use std::alloc::{AllocError, Global};
use std::borrow::CowStr;

/// The slot of an entry that has no patterns. It takes no memory.
fn plain<'r, 's, F>(entry: Entry<'r, 's, F>) -> Slot<'r, 's, F>
    requires value { value_in entry ≡ None }
    requires attributes { attributes_in entry ≡ [] }
    ensures entry { result.entry ≡ entry.entry }
    ensures linked { (number : Text → Option ℕ) (table : List Pattern) →
        IsLinked number table result }
{
    Slot { entry, kept: None }
}

/// Adds a function under a free id. Where the id is taken, the answer has an error.
fn add_where_free<'r, 's, F: Drop>(
    alloc: Global,
    known: &mut Ids<'r, 's, F>,
    id: CowStr<'s>,
    function: Entry<'r, 's, F>,
) -> Result<Vec<FluentError>, AllocError>
    requires own { IsNamed (cow_str_bytes id) function }
    requires value { value_in function ≡ None }
    requires attributes { attributes_in function ≡ [] }
    ensures grown { Grown known.old known.new }
    ensures after { OnOk result (AddsFree known.old known.new id.entry function.entry) }
    ensures errors { IfOk result (ReportsIfTaken known.old id.entry) }
    ensures err { OnErr result (KeepsEntries known.old known.new) }
{
    let mut errors = Vec::new(alloc);
    if known.is_known(id.as_str()) {
        errors.push(left(alloc, EntryKind::Function, id.as_str())?)?;
    } else {
        let number = known.number_of(id)?;
        known.put(number, plain(function));
    }
    Ok(errors)
}

/// Puts an entry in place of what an id names, if anything.
fn set_entry<'r, 's, F: Drop>(
    known: &mut Ids<'r, 's, F>,
    id: CowStr<'s>,
    function: Entry<'r, 's, F>,
) -> Result<(), AllocError>
    requires own { IsNamed (cow_str_bytes id) function }
    requires value { value_in function ≡ None }
    requires attributes { attributes_in function ≡ [] }
    ensures grown { Grown known.old known.new }
    ensures after { OnOk result (SetsEntry known.old known.new id.entry function.entry) }
    ensures err { OnErr result (KeepsEntries known.old known.new) }
{
    let number = known.number_of(id)?;
    known.put(number, plain(function));
    Ok(())
}

/// Adds a function under a free id. Where the id is taken, the function is dropped, and the answer has an error.
///
/// # Errors
///
/// An allocation failed: each id names what it named.
pub fn add_function<'r, 's, F: Drop>(
    alloc: Global,
    known: &mut Ids<'r, 's, F>,
    id: CowStr<'s>,
    function: F,
) -> Result<Vec<FluentError>, AllocError>
    ensures grown { Grown known.old known.new }
    ensures after { OnOk result (AddsFree known.old known.new id.entry (entry.Function function)) }
    ensures errors { IfOk result (ReportsIfTaken known.old id.entry) }
    ensures err { OnErr result (KeepsEntries known.old known.new) }
{
    add_where_free(alloc, known, id, Entry::Function(function))
}

/// Puts a function in place of what its id names, if anything.
///
/// # Errors
///
/// An allocation failed, which only an id that was never seen can meet: each id names what it named.
pub fn override_function<'r, 's, F: Drop>(
    known: &mut Ids<'r, 's, F>,
    id: CowStr<'s>,
    function: F,
) -> Result<(), AllocError>
    ensures grown { Grown known.old known.new }
    ensures after { OnOk result (SetsEntry known.old known.new id.entry (entry.Function function)) }
    ensures err { OnErr result (KeepsEntries known.old known.new) }
{
    set_entry(known, id, Entry::Function(function))
}

/// Adds the built-in function `NUMBER` under a free id. Where the id is taken, the answer has an error.
///
/// # Errors
///
/// An allocation failed: each id names what it named.
pub fn add_number<'r, 's, F: Drop>(
    alloc: Global,
    known: &mut Ids<'r, 's, F>,
    id: CowStr<'s>,
) -> Result<Vec<FluentError>, AllocError>
    ensures grown { Grown known.old known.new }
    ensures after { OnOk result (AddsFree known.old known.new id.entry entry.Number) }
    ensures errors { IfOk result (ReportsIfTaken known.old id.entry) }
    ensures err { OnErr result (KeepsEntries known.old known.new) }
{
    add_where_free(alloc, known, id, Entry::Number)
}

//! Entries of a resource that a bundle leaves, since their ids are there.
ghost use Rattle.std.specs.Prelude.{◌≡◌, [], ◌∷◌, IfOk, OnOk, map};
ghost use Rattle.fluent_ast.specs.View.{entry_view};
ghost use Rattle.fluent_bundle_entries.specs.ErrorView.{kind_view};
ghost use Rattle.fluent_c_handles.specs.Inside.Seen.{AreLeft, GoesOver, GoesOverId, TellsTaken};

use fluent_bundle::{EntryKind, FluentError, Ids, ast};
use indexmap::IndexSet;
use std::alloc::{AllocError, Global};

/// An entry that is left: which one of the resource, and what is reported of it.
#[derive(Debug, Drop)]
pub(crate) struct Left {
    pub(crate) entry: usize,
    pub(crate) error: FluentError,
}

/// What is seen while entries are gone over: their ids, and what is left.
#[derive(Drop)]
pub(crate) struct Seen<'s> {
    earlier: IndexSet<&'s str>,
    left: Vec<Left>,
}

/// The entries whose ids name something, by a bundle or by an earlier entry.
pub(crate) fn left_of<'s, F>(
    alloc: Global,
    ids: &Ids<'_, '_, F>,
    entries: &[ast::Entry<'s>],
) -> Result<Vec<Left>, AllocError>
    ensures { IfOk result (λ left. AreLeft ids.now (map entry_view entries.now) left.items) }
{
    let mut seen = Seen {
        earlier: IndexSet::new(alloc),
        left: Vec::new(alloc),
    };
    for (k, entry) in entries.iter().enumerate() {
        add_entry(alloc, ids, k, entry, &mut seen)?;
    }
    Ok(seen.left)
}

/// Goes over an entry with this index.
fn add_entry<'s, F>(
    alloc: Global,
    ids: &Ids<'_, '_, F>,
    k: usize,
    entry: &ast::Entry<'s>,
    seen: &mut Seen<'s>,
) -> Result<(), AllocError>
    ensures { OnOk result (GoesOver ids.now k (entry_view entry.now ∷ []) seen.old seen.new) }
{
    match entry {
        ast::Entry::Message(message) => {
            add_id(alloc, ids, k, EntryKind::Message, message.id.name, seen)
        }
        ast::Entry::Term(term) => add_id(alloc, ids, k, EntryKind::Term, term.id.name, seen),
        ast::Entry::Junk { .. } => Ok(()),
    }
}

/// Goes over an entry with this index, kind and id.
fn add_id<'s, F>(
    alloc: Global,
    ids: &Ids<'_, '_, F>,
    k: usize,
    kind: EntryKind,
    id: &'s str,
    seen: &mut Seen<'s>,
) -> Result<(), AllocError>
    ensures { OnOk result (GoesOverId ids.now k (kind_view kind) id.now seen.old seen.new) }
{
    if is_taken(ids, id, &mut seen.earlier)? {
        let id = String::from_str(alloc, id)?;
        let error = FluentError::Overriding { kind, id };
        seen.left.push(Left { entry: k, error })?;
    }
    Ok(())
}

/// Whether an id names something, by a bundle or by an earlier entry. It is seen then.
fn is_taken<'s, F>(
    ids: &Ids<'_, '_, F>,
    id: &'s str,
    earlier: &mut IndexSet<&'s str>,
) -> Result<bool, AllocError>
    ensures { IfOk result (λ taken.
        TellsTaken ids.now id.now taken earlier.old.keys earlier.new.keys) }
{
    if ids.named(id).is_some() {
        return Ok(true);
    }
    let is_new = earlier.insert(id)?;
    Ok(!is_new)
}

//! The parts of an entry that has an id.
ghost use Rattle.std.specs.Prelude.{IfNone, IfSome};
ghost use Rattle.fluent_adding.specs.Inside.WaitingEntries.{HasParts, IsJunk};

use fluent_ast::ast;
use fluent_bundle_entries::EntryKind;

/// A message or a term, by its parts.
#[derive(Clone, Copy, Drop)]
pub(crate) struct Parts<'r, 's> {
    pub(crate) kind: EntryKind,
    pub(crate) id: &'s str,
    pub(crate) value: Option<&'r ast::Pattern<'s>>,
    pub(crate) attributes: &'r [ast::Attribute<'s>],
}

/// The parts of an entry that has an id.
#[inline(always)]
pub(crate) fn parts_of<'r, 's>(entry: &'r ast::Entry<'s>) -> Option<Parts<'r, 's>>
    ensures some { IfSome result (HasParts entry.now) }
    ensures none { IfNone result (IsJunk entry.now) }
{
    match entry {
        ast::Entry::Message(message) => Some(Parts {
            kind: EntryKind::Message,
            id: message.id.name,
            value: message.value.as_ref(),
            attributes: &message.attributes,
        }),
        ast::Entry::Term(term) => Some(Parts {
            kind: EntryKind::Term,
            id: term.id.name,
            value: Some(&term.value),
            attributes: &term.attributes,
        }),
        ast::Entry::Junk { .. } => None,
    }
}

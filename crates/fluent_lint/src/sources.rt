//! What is told of sources, without a bundle.

ghost use Rattle.std.specs.Prelude.{◌≡◌, [], ◌∷◌, IfOk, OnOk, map};
ghost use Rattle.std.specs.Option.{option_map};
ghost use Rattle.fluent_ast.specs.View.{entry_view};
ghost use Rattle.fluent_lint.specs.Twice.{AreTwice, AreUnreadable, defined_from, defined_if, id_of};
ghost use Rattle.fluent_lint.specs.Inside.Seen.{GoesOver, noted_first};
ghost use Rattle.fluent_places.specs.Places.{views};
ghost use Rattle.fluent_lint.specs.Lints.{places_in_resources};
ghost use Rattle.fluent_resource.specs.ResourceView.{source_in};

use fluent_bundle::{FluentResource, ParserError, TryNewFault, ast};
use fluent_places::{Place, places_of};
use indexmap::IndexMap;
use std::alloc::{AllocError, Global};

/// Where an entry stands: which resource, and which of its entries.
#[derive(Clone, Copy, Debug, Drop)]
pub struct Definition {
    pub resource: usize,
    pub entry: usize,
}

/// An id that is defined again. A message and a term may share one, since they share one map of ids.
#[derive(Clone, Copy, Debug, Drop)]
pub struct Twice<'s> {
    pub id: &'s str,
    /// The first definition of it.
    pub first: Definition,
    pub again: Definition,
}

/// What is noted of definitions: where each id is defined first, and what is defined again.
#[derive(Drop)]
pub(crate) struct Seen<'s> {
    firsts: IndexMap<&'s str, Definition>,
    list: Vec<Twice<'s>>,
}

/// The values and attributes of resources, in order.
pub(crate) fn places_in<'s>(
    alloc: Global,
    resources: &[FluentResource<'s>],
) -> Result<Vec<Place<'s>>, AllocError>
    ensures { IfOk result (λ places. views places.items ≡ places_in_resources resources.now) }
{
    let mut places = Vec::new(alloc);
    for resource in resources {
        let more = places_of(alloc, resource.entries().as_slice())?;
        places.extend_from_slice(&more)?;
    }
    Ok(places)
}

/// The byte ranges of what can't be read of a resource's source, one for each Junk, in order. Where all can be read,
/// there is none.
///
/// # Errors
///
/// An allocation failed.
pub fn unreadable(
    alloc: Global,
    resource: &FluentResource<'_>,
) -> Result<Vec<ParserError>, AllocError>
    ensures { IfOk result (AreUnreadable (source_in resource.now)) }
{
    match FluentResource::try_new(alloc, resource.source()) {
        Ok(_) => Ok(Vec::new(alloc)),
        Err(TryNewFault::Parser(_, errors)) => Ok(errors),
        Err(TryNewFault::Memory) => Err(AllocError),
    }
}

/// The ids that are defined again, in order: of each entry whose id an earlier one has, in the same resource or in one
/// before it, where it stands, and where the first entry with that id does. Resources, and the entries of each, are
/// numbered from 0; Junk is an entry without an id.
///
/// # Errors
///
/// An allocation failed.
pub fn defined_twice<'s>(
    alloc: Global,
    resources: &[FluentResource<'s>],
) -> Result<Vec<Twice<'s>>, AllocError>
    ensures { IfOk result (AreTwice resources.now) }
{
    let mut seen = Seen {
        firsts: IndexMap::new(alloc),
        list: Vec::new(alloc),
    };
    for (i, resource) in resources.iter().enumerate() {
        add_entries(i, resource.entries().as_slice(), &mut seen)?;
    }
    Ok(seen.list)
}

/// Goes over the entries of a resource.
fn add_entries<'s>(
    resource: usize,
    entries: &[ast::Entry<'s>],
    seen: &mut Seen<'s>,
) -> Result<(), AllocError>
    ensures { OnOk result
        (GoesOver (defined_from resource 0 (map entry_view entries.now)) seen.old seen.new) }
{
    for (k, entry) in entries.iter().enumerate() {
        let here = Definition { resource, entry: k };
        add_entry(here, entry, seen)?;
    }
    Ok(())
}

/// Goes over an entry that stands there.
fn add_entry<'s>(
    here: Definition,
    entry: &ast::Entry<'s>,
    seen: &mut Seen<'s>,
) -> Result<(), AllocError>
    ensures { OnOk result
        (GoesOver (defined_if (id_of (entry_view entry.now)) here) seen.old seen.new) }
{
    match id_of(entry) {
        Some(id) => add_id(id, here, seen),
        None => Ok(()),
    }
}

/// Notes an id that is defined there: as the first one, or again.
fn add_id<'s>(id: &'s str, here: Definition, seen: &mut Seen<'s>) -> Result<(), AllocError>
    ensures { OnOk result (GoesOver ((id.now, here) ∷ []) seen.old seen.new) }
{
    match first_of(seen, id) {
        Some(first) => {
            seen.list.push(Twice {
                id,
                first,
                again: here,
            })?;
        }
        None => {
            seen.firsts.insert(id, here)?;
        }
    }
    Ok(())
}

/// Where an id is defined first, if it was seen.
fn first_of(seen: &Seen<'_>, id: &str) -> Option<Definition>
    ensures { result ≡ noted_first id.now seen.now }
{
    match seen.firsts.get(&id) {
        Some(first) => Some(*first),
        None => None,
    }
}

/// The id of an entry that has one.
fn id_of<'s>(entry: &ast::Entry<'s>) -> Option<&'s str>
    ensures { option_map (λ id. id.now) result ≡ id_of (entry_view entry.now) }
{
    match entry {
        ast::Entry::Message(message) => Some(message.id.name),
        ast::Entry::Term(term) => Some(term.id.name),
        ast::Entry::Junk { .. } => None,
    }
}

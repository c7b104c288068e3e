//! What is kept of the patterns of an entry that is going to be stored.
ghost use Rattle.std.specs.Prelude.{◌≡◌, IfOk};
ghost use Rattle.std.specs.List.{list_all};
ghost use Rattle.fluent_ast.specs.View.{pattern_view};
ghost use Rattle.fluent_bundle_entries.specs.Changes.{KeepsEntries};
ghost use Rattle.fluent_bundle_entries.specs.IdNumbers.{Grown};
ghost use Rattle.fluent_bundle_entries.specs.KeptInIds.{KeepsAttributes, KeepsBoth, KeepsValue};
ghost use Rattle.fluent_bundle_entries.specs.KeptLinks.{Keeps, is_bare, is_value_bare};
ghost use Rattle.fluent_bundle_entries.specs.Texts.{is_text};

use fluent_ast::ast;
use fluent_bundle_entries::{Ids, Kept, is_text};
use fluent_references::Linked;
use std::alloc::{AllocError, Global};

/// What is kept of each attribute's pattern, in order, or nothing where all are texts.
fn linked_attributes<'r, 's, F: Drop>(
    alloc: Global,
    known: &mut Ids<'r, 's, F>,
    attributes: &'r [ast::Attribute<'s>],
) -> Result<Vec<Linked>, AllocError>
    ensures linked { IfOk result (λ list. KeepsAttributes known.new attributes.now list.items) }
    ensures grown { Grown known.old known.new }
    ensures same { KeepsEntries known.old known.new }
{
    if are_texts(attributes) {
        return Ok(Vec::new(alloc));
    }
    let mut list = Vec::with_capacity(alloc, attributes.len())?;
    for attribute in attributes {
        let linked = known.link(alloc, &attribute.value)?;
        list.push(linked)?;
    }
    Ok(list)
}

/// Whether each attribute's pattern holds texts alone, so that it refers to nothing.
fn are_texts(attributes: &[ast::Attribute<'_>]) -> bool
    ensures { result ≡ list_all (λ a. is_text (pattern_view a.value)) attributes.now }
{
    attributes.iter().all(|attribute| is_text(&attribute.value))
}

/// What is kept of a value, or nothing where there is none or it holds texts alone.
fn linked_value<'r, 's, F: Drop>(
    alloc: Global,
    known: &mut Ids<'r, 's, F>,
    value: Option<&'r ast::Pattern<'s>>,
) -> Result<Option<Linked>, AllocError>
    ensures linked { IfOk result (KeepsValue known.new value.entry) }
    ensures grown { Grown known.old known.new }
    ensures same { KeepsEntries known.old known.new }
{
    match value {
        Some(pattern) => {
            if is_text(pattern) {
                return Ok(None);
            }
            Ok(Some(known.link(alloc, pattern)?))
        }
        None => Ok(None),
    }
}

/// What is kept of an entry's patterns.
pub(crate) fn kept_of<'r, 's, F: Drop>(
    alloc: Global,
    known: &mut Ids<'r, 's, F>,
    value: Option<&'r ast::Pattern<'s>>,
    attributes: &'r [ast::Attribute<'s>],
) -> Result<Option<Box<Kept>>, AllocError>
    ensures linked { IfOk result (KeepsBoth known.new value.entry attributes.now) }
    ensures grown { Grown known.old known.new }
    ensures same { KeepsEntries known.old known.new }
{
    let value = linked_value(alloc, known, value)?;
    let attributes = linked_attributes(alloc, known, attributes)?;
    keep(alloc, value, attributes)
}

/// Whether nothing needs to be kept of a pattern, since it refers to nothing.
fn is_bare(linked: &Linked) -> bool
    ensures { result ≡ is_bare linked.now }
{
    linked.class().is_none()
}

/// Whether nothing needs to be kept of a value, since it refers to nothing or there is none.
fn is_value_bare(value: &Option<Linked>) -> bool
    ensures { result ≡ is_value_bare value.now }
{
    match value {
        Some(linked) => is_bare(linked),
        None => true,
    }
}

/// Whether nothing needs to be kept of attributes, since none of them refers to anything.
fn are_bare(attributes: &[Linked]) -> bool
    ensures { result ≡ list_all is_bare attributes.now }
{
    attributes.iter().all(|linked| is_bare(linked))
}

/// What is kept of a value and of attributes: nothing where none of them refers to anything.
fn keep(
    alloc: Global,
    value: Option<Linked>,
    attributes: Vec<Linked>,
) -> Result<Option<Box<Kept>>, AllocError>
    ensures { IfOk result (Keeps value attributes.items) }
{
    if is_value_bare(&value) && are_bare(&attributes) {
        return Ok(None);
    }
    let kept = Kept { value, attributes };
    Ok(Some(Box::new(alloc, kept)?))
}

//! Where the values and attributes of entries stand, and the references, selects and variants of each.

ghost use Rattle.std.specs.Prelude.{◌≡◌, ◌≤◌, ◌++◌, IfOk, OnOk, drop, length, map, slice_index_or};
ghost use Rattle.fluent_ast.specs.View.{entry_view};
ghost use Rattle.fluent_sources.specs.Sites as spec;
ghost use Rattle.fluent_sources.specs.Sites.{sites, sorted};
ghost use Rattle.fluent_resource.specs.ResourceView.{entries_of, source_in};
ghost use Rattle.fluent_sources.specs.SiteView.{offsets_view, site_views};
ghost use Rattle.fluent_places.specs.Places.{views};

use fluent_ast::ast::Entry;
use fluent_patterns::{Mark, What, marks_of};
use fluent_places::{Place, places_of};
use fluent_resource::FluentResource;
use fluent_syntax::entry_starts;
use std::alloc::{AllocError, Global};

/// The offsets of the parts of a value or an attribute, by their kind, each in the order of the tree.
#[derive(Drop)]
pub struct Offsets {
    pub references: Vec<usize>,
    /// Of the brace of each select.
    pub selects: Vec<usize>,
    pub variants: Vec<usize>,
}

/// A value or an attribute, and where it stands.
#[derive(Drop)]
pub struct Site<'s> {
    pub place: Place<'s>,
    /// A value stands where its entry begins, an attribute where its dot is.
    pub at: usize,
    pub offsets: Offsets,
}

/// The sites of the entries of a resource, in order: of each message or term its value, then its attributes. A message that
/// has no value has the site of it all the same. What can't be read has none. The source is read once more.
///
/// # Errors
///
/// An allocation failed.
pub fn sites_of<'s>(
    alloc: Global,
    resource: &FluentResource<'s>,
) -> Result<Vec<Site<'s>>, AllocError>
    ensures { IfOk result (λ list. site_views list.items
        ≡ sites (source_in resource.now) (entries_of resource.now)) }
{
    let source = resource.source();
    let starts = entry_starts(alloc, source)?;
    sites_from(alloc, source, &starts, resource.entries().as_slice())
}

/// The sites of entries that begin at these offsets of a source, each of which ends where the next one begins.
fn sites_from<'s>(
    alloc: Global,
    source: &str,
    starts: &[usize],
    entries: &[Entry<'s>],
) -> Result<Vec<Site<'s>>, AllocError>
    ensures { IfOk result (λ list. site_views list.items
        ≡ spec.sites_from source.now starts.now (map entry_view entries.now)) }
{
    let mut list = Vec::new(alloc);
    for i in 0..entries.len() {
        let from = start_of(source, starts, i);
        let to = start_of(source, starts, i + 1);
        let marks = marks_of(alloc, source, from, to)?;
        let places = places_of(alloc, &entries[i..i + 1])?;
        add_sites(alloc, from, &places, &marks, &mut list)?;
    }
    Ok(list)
}

/// Where the entry with this index begins; where there is none, the end of the source.
fn start_of(source: &str, starts: &[usize], index: usize) -> usize
    ensures { result ≡ slice_index_or starts.now index (length source.now) }
{
    match starts.get(index) {
        Some(start) => *start,
        None => source.len(),
    }
}

/// Adds the sites of the places of an entry that begins there, by the marks of the entry.
fn add_sites<'s>(
    alloc: Global,
    start: usize,
    places: &[Place<'s>],
    marks: &[Mark],
    list: &mut Vec<Site<'s>>,
) -> Result<(), AllocError>
    ensures { OnOk result (site_views list.new.items
        ≡ site_views list.old.items ++ spec.sites_at start start (views places.now) marks.now) }
{
    let mut at = start;
    let mut rest = marks;
    for place in places {
        let (own, others) = rest.split_at(own_len(rest));
        list.push(Site {
            place: *place,
            at,
            offsets: sorted(alloc, own)?,
        })?;
        (at, rest) = after(start, others);
    }
    Ok(())
}

/// How many marks stand before the next attribute.
fn own_len(marks: &[Mark]) -> usize
    ensures len { result ≡ spec.own_len marks.now }
    ensures within { result ≤ length marks.now }
{
    'marks: for at in 0..marks.len() {
        if is_attribute(marks[at].what) {
            return at;
        }
    }
    marks.len()
}

/// The offset of the attribute with which these marks begin, and those behind it.
fn after(start: usize, marks: &[Mark]) -> (usize, &[Mark])
    ensures at { result.0 ≡ spec.offset_or start marks.now }
    ensures rest { result.1.now ≡ drop 1 marks.now }
{
    match marks {
        [] => (start, marks),
        [mark, rest @ ..] => (mark.at, rest),
    }
}

/// The offsets of marks, by their kind.
fn sorted(alloc: Global, marks: &[Mark]) -> Result<Offsets, AllocError>
    ensures { IfOk result (λ offsets. offsets_view offsets ≡ sorted marks.now) }
{
    Ok(Offsets {
        references: references_among(alloc, marks)?,
        selects: selects_among(alloc, marks)?,
        variants: variants_among(alloc, marks)?,
    })
}

fn references_among(alloc: Global, marks: &[Mark]) -> Result<Vec<usize>, AllocError>
    ensures { IfOk result (λ offsets. offsets.items ≡ spec.offsets_of spec.is_reference marks.now) }
{
    marks
        .iter()
        .filter(|mark| is_reference(mark.what))
        .map(|mark| mark.at)
        .collect(alloc)
}

fn selects_among(alloc: Global, marks: &[Mark]) -> Result<Vec<usize>, AllocError>
    ensures { IfOk result (λ offsets. offsets.items ≡ spec.offsets_of spec.is_select marks.now) }
{
    marks
        .iter()
        .filter(|mark| is_select(mark.what))
        .map(|mark| mark.at)
        .collect(alloc)
}

fn variants_among(alloc: Global, marks: &[Mark]) -> Result<Vec<usize>, AllocError>
    ensures { IfOk result (λ offsets. offsets.items ≡ spec.offsets_of spec.is_variant marks.now) }
{
    marks
        .iter()
        .filter(|mark| is_variant(mark.what))
        .map(|mark| mark.at)
        .collect(alloc)
}

fn is_attribute(what: What) -> bool
    ensures { result ≡ spec.is_attribute what }
{
    matches!(what, What::Attribute)
}

fn is_reference(what: What) -> bool
    ensures { result ≡ spec.is_reference what }
{
    matches!(what, What::Reference)
}

fn is_select(what: What) -> bool
    ensures { result ≡ spec.is_select what }
{
    matches!(what, What::Select)
}

fn is_variant(what: What) -> bool
    ensures { result ≡ spec.is_variant what }
{
    matches!(what, What::Variant)
}

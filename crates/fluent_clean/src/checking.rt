//! What is wrong with a pattern, by what is known of those that it refers to.

ghost use Rattle.std.specs.Prelude.{IfOk};
ghost use Rattle.fluent_ast.specs.View.{attribute_of};
ghost use Rattle.fluent_places.specs.NeedsView.{need_view};
ghost use Rattle.fluent_places.specs.Places.{place_view};
ghost use Rattle.fluent_clean.specs.Inside.Table.{AreRight};
ghost use Rattle.fluent_clean.specs.Inside.Steps.{Answers, AnswersAt, IsExplainedBy, IsLook, Misses, MissesMessage, MissesTerm};

use crate::counting::{Table, most_opened};
use crate::finding::{Finding, Kind};
use crate::laws;
use fluent_ast::ast::{Identifier, Pattern};
use fluent_bundle_entries::GetEntry;
use fluent_places::{Need, Place, needs, pattern_at};
use std::alloc::{AllocError, Global};
use std::collections::LinkedList;

/// What is found at a place of which no count is known.
#[derive(Drop)]
pub(crate) enum Look<'s> {
    /// No pattern stands there.
    Nothing,
    /// A clean pattern, which opens so many placeables.
    Clean(u64),
    /// A pattern that isn't clean: a finding for each reason, in the order of the tree.
    Unclean(Vec<Finding<'s>>),
}

/// Looks at a place.
pub(crate) fn look_at<'s, F, B: GetEntry<'s, F>>(
    alloc: Global,
    bundle: &B,
    table: &Table<'s>,
    place: &Place<'s>,
) -> Result<Look<'s>, AllocError>
    requires { AreRight (B.named bundle.now) table.now.entries }
    ensures { IfOk result
        (IsLook (B.named bundle.now) table.now.entries (place_view place.now)) }
{
    laws::met_is_clean::<LinkedList<u8>>();
    let Some(pattern) = pattern_at(bundle, place) else {
        return Ok(Look::Nothing);
    };
    let findings = findings_of(alloc, bundle, table, place, pattern)?;
    if findings.is_empty() {
        Ok(Look::Clean(most_opened(pattern, table)))
    } else {
        Ok(Look::Unclean(findings))
    }
}

/// Why the pattern at a place isn't clean: no finding where it is.
fn findings_of<'s, F, B: GetEntry<'s, F>>(
    alloc: Global,
    bundle: &B,
    table: &Table<'s>,
    place: &Place<'s>,
    pattern: &Pattern<'s>,
) -> Result<Vec<Finding<'s>>, AllocError>
    requires { AreRight (B.named bundle.now) table.now.entries }
    ensures { IfOk result
        (IsExplainedBy (B.named bundle.now) table.now.entries place.now pattern.now) }
{
    let list = needs(alloc, pattern)?;
    let mut findings = Vec::new(alloc);
    for need in &list {
        match kind_of(bundle, table, need) {
            Some(kind) => findings.push(Finding {
                place: *place,
                kind,
            })?,
            None => {}
        }
    }
    Ok(findings)
}

/// Why a need isn't met.
fn kind_of<'s, F, B: GetEntry<'s, F>>(
    bundle: &B,
    table: &Table<'s>,
    need: &Need<'_, 's>,
) -> Option<Kind<'s>>
    requires { AreRight (B.named bundle.now) table.now.entries }
    ensures { Answers (B.named bundle.now) table.now.entries (need_view need.now) result }
{
    match need {
        Need::Message(id, attribute) => kind_at(bundle, table, &Place::Message(*id, *attribute)),
        Need::Term(id, attribute, _) => kind_at(bundle, table, &Place::Term(*id, *attribute)),
        Need::Function(id) => match bundle.get_entry_function(id.name) {
            Some(_) => None,
            None => Some(Kind::UnknownFunction { id: id.name }),
        },
        Need::Variable(_) => None,
        Need::Default => Some(Kind::NoDefault),
    }
}

/// Why a reference isn't met.
fn kind_at<'s, F, B: GetEntry<'s, F>>(
    bundle: &B,
    table: &Table<'s>,
    place: &Place<'s>,
) -> Option<Kind<'s>>
    requires { AreRight (B.named bundle.now) table.now.entries }
    ensures { AnswersAt (B.named bundle.now) table.now.entries (place_view place.now) result }
{
    let Some(_) = pattern_at(bundle, place) else {
        return Some(missing(bundle, place));
    };
    match table.get(place) {
        None => Some(Kind::Elsewhere { place: *place }),
        Some(None) => Some(Kind::LeadsTo { place: *place }),
        Some(Some(_)) => None,
    }
}

/// What is missing where no pattern stands.
fn missing<'s, F, B: GetEntry<'s, F>>(bundle: &B, place: &Place<'s>) -> Kind<'s>
    ensures { Misses (B.named bundle.now) (place_view place.now) result }
{
    match place {
        Place::Message(id, attribute) => missing_message(bundle, id, attribute),
        Place::Term(id, attribute) => missing_term(bundle, id, attribute),
    }
}

/// What is missing of a message.
fn missing_message<'s, F, B: GetEntry<'s, F>>(
    bundle: &B,
    id: &Identifier<'s>,
    attribute: &Option<Identifier<'s>>,
) -> Kind<'s>
    ensures { MissesMessage (B.named bundle.now) id.now.name.now (attribute_of attribute.now) result }
{
    let id = id.name;
    match bundle.get_entry_message(id) {
        None => Kind::UnknownMessage { id },
        Some(_) => match attribute {
            None => Kind::NoValue { id },
            Some(attribute) => Kind::UnknownAttribute {
                id,
                attribute: attribute.name,
            },
        },
    }
}

/// What is missing of a term: an attribute, where the term is there, since each has a value.
fn missing_term<'s, F, B: GetEntry<'s, F>>(
    bundle: &B,
    id: &Identifier<'s>,
    attribute: &Option<Identifier<'s>>,
) -> Kind<'s>
    ensures { MissesTerm (B.named bundle.now) id.now.name.now (attribute_of attribute.now) result }
{
    let id = id.name;
    match attribute {
        None => Kind::UnknownTerm { id },
        Some(attribute) => match bundle.get_entry_term(id) {
            None => Kind::UnknownTerm { id },
            Some(_) => Kind::UnknownTermAttribute {
                id,
                attribute: attribute.name,
            },
        },
    }
}

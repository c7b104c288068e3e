//! Answers in a run of bytes.
ghost use Rattle.std.specs.Prelude.{◌≢◌, [], map, IfOk, IfErr, OnOk, OnErr};
ghost use Rattle.fluent_answers.specs.Records.{AreAnswers, NotReadAsAnswers};
ghost use Rattle.fluent_answers.specs.Inside.Raw.{raw_view};
ghost use Rattle.fluent_answers.specs.Inside.Given.{AddsFirst, KeepsFirst, TextOf, given_view};

use crate::answer::Answer;
use crate::fault::Fault;
use crate::kind::Kind;
use crate::reading::{Raw, next};
use std::alloc::{AllocError, Global};
use std::collections::BTreeMap;
use std::str;

/// An answer in bytes: the question, the kind of its value, and the text of its value.
#[derive(Clone, Copy, Drop)]
pub(super) struct Given<'b> {
    pub question: &'b [u8],
    pub kind: Kind,
    pub value: &'b str,
}

/// Reads answers that stand one after the other.
///
/// # Errors
///
/// The first [`Fault`] from the start. No bytes take no memory.
pub(super) fn read_given(alloc: Global, bytes: &[u8]) -> Result<Vec<Given<'_>>, Fault>
    ensures ok { IfOk result (λ list. AreAnswers (map given_view list.items) bytes.now) }
    ensures err { IfErr result (NotReadAsAnswers bytes.now) }
{
    let mut list = Vec::new(alloc);
    let mut rest = bytes;
    while !rest.is_empty() {
        let Some((raw, after)) = next(rest) else {
            return Err(Fault::Cut);
        };
        let Some(given) = text(raw) else {
            return Err(Fault::NotText);
        };
        if list.push(given).is_err() {
            return Err(Fault::Memory);
        }
        rest = after;
    }
    Ok(list)
}

/// An answer whose value is UTF-8.
fn text(raw: Raw<'_>) -> Option<Given<'_>>
    ensures { TextOf (raw_view raw.entry) result }
{
    let Ok(value) = str::from_utf8(raw.value) else {
        return None;
    };
    Some(Given {
        question: raw.name,
        kind: raw.kind,
        value,
    })
}

/// Keeps answers by their questions. The first to a question stands.
///
/// # Errors
///
/// An allocation failed, which no answers can't meet.
pub(super) fn rows_of(
    alloc: Global,
    list: &[Given<'_>],
) -> Result<BTreeMap<Vec<u8>, Answer>, AllocError>
    ensures ok { IfOk result (KeepsFirst (map given_view list.now)) }
    ensures err { OnErr result (list.now ≢ []) }
{
    let mut rows = BTreeMap::new(alloc);
    for given in list {
        keep_first(alloc, &mut rows, given)?;
    }
    Ok(rows)
}

/// Keeps an answer, unless there is one to its question.
fn keep_first(
    alloc: Global,
    rows: &mut BTreeMap<Vec<u8>, Answer>,
    given: &Given<'_>,
) -> Result<(), AllocError>
    ensures { OnOk result (AddsFirst (given_view given.now) rows.old rows.new) }
{
    if rows.contains_key(given.question) {
        return Ok(());
    }
    let question = Vec::from_slice(alloc, given.question)?;
    let text = String::from_str(alloc, given.value)?;
    let answer = Answer {
        kind: given.kind,
        text,
    };
    rows.insert(question, answer)?;
    Ok(())
}

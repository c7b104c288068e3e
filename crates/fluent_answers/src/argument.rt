//! Arguments in a run of bytes.
ghost use Rattle.std.specs.Prelude.{map, IfOk, IfErr};
ghost use Rattle.fluent_answers.specs.Records.{Are, NotRead};
ghost use Rattle.fluent_answers.specs.ArgumentView.{argument_view};
ghost use Rattle.fluent_answers.specs.Inside.Raw.{raw_view, TextsOf};

use crate::fault::Fault;
use crate::kind::Kind;
use crate::reading::{Raw, next};
use std::alloc::Global;
use std::str;

/// An argument: a name with a value, by the kind of the value and its text.
#[derive(Clone, Copy, Debug, Drop)]
pub struct Argument<'b> {
    pub name: &'b str,
    pub value: &'b str,
    pub kind: Kind,
}

/// Reads arguments that stand one after the other.
///
/// # Errors
///
/// The first [`Fault`] from the start. No bytes take no memory.
pub fn arguments(alloc: Global, bytes: &[u8]) -> Result<Vec<Argument<'_>>, Fault>
    ensures ok { IfOk result (λ list. Are (map argument_view list.items) bytes.now) }
    ensures err { IfErr result (NotRead bytes.now) }
{
    let mut list = Vec::new(alloc);
    let mut rest = bytes;
    while !rest.is_empty() {
        let Some((raw, after)) = next(rest) else {
            return Err(Fault::Cut);
        };
        let Some(argument) = text(raw) else {
            return Err(Fault::NotText);
        };
        if list.push(argument).is_err() {
            return Err(Fault::Memory);
        }
        rest = after;
    }
    Ok(list)
}

/// An argument whose name and value are UTF-8.
pub(crate) fn text(raw: Raw<'_>) -> Option<Argument<'_>>
    ensures { TextsOf (raw_view raw.entry) result }
{
    let Ok(name) = str::from_utf8(raw.name) else {
        return None;
    };
    let Ok(value) = str::from_utf8(raw.value) else {
        return None;
    };
    Some(Argument {
        name,
        value,
        kind: raw.kind,
    })
}

//! What a check is asked for: in bytes, and as texts.
ghost use Rattle.std.specs.Prelude.{IfErr, IfOk};
ghost use Rattle.fluent_c_check.specs.Checks.{NoneFollows, Refuses};
ghost use Rattle.fluent_c_check.specs.Inside.Handed.{HandsLists, IsHanded, runs_in, wanted_by};

use fluent_answers::{Argument, Fault, arguments};
use std::alloc::Global;
use std::str;

/// Bytes by which a check is asked for.
#[derive(Clone, Copy, Drop)]
pub(crate) struct Bytes<'b> {
    /// The tag of the language, empty where none is given.
    pub language: &'b [u8],
    /// Records of sources.
    pub sources: &'b [u8],
    /// Records of sources that are loaded before these.
    pub beside: &'b [u8],
    /// Records of what the sources were translated from.
    pub references: &'b [u8],
    /// Records whose names are the functions of the program.
    pub functions: &'b [u8],
}

/// The same, as it is read.
#[derive(Drop)]
pub(crate) struct Handed<'b> {
    pub language: &'b str,
    pub sources: Vec<Argument<'b>>,
    pub beside: Vec<Argument<'b>>,
    pub references: Vec<Argument<'b>>,
    pub functions: Vec<Argument<'b>>,
}

/// Why nothing is told.
#[derive(Clone, Copy, Debug, Drop, PartialEq, Eq)]
pub enum CheckFault {
    /// The tag is not UTF-8.
    Language,
    /// One of the runs of records can't be read.
    Records(Fault),
    /// An allocation failed.
    Memory,
}

/// The records of each run, for a language.
///
/// # Errors
///
/// The first fault of the first run that can't be read.
fn lists_in<'b>(alloc: Global, language: &'b str, bytes: &Bytes<'b>) -> Result<Handed<'b>, Fault>
    ensures ok { IfOk result (HandsLists language.entry.now bytes.now) }
    ensures err { IfErr result (NoneFollows (runs_in bytes.now)) }
{
    let sources = arguments(alloc, bytes.sources)?;
    let beside = arguments(alloc, bytes.beside)?;
    let references = arguments(alloc, bytes.references)?;
    let functions = arguments(alloc, bytes.functions)?;
    Ok(Handed {
        language,
        sources,
        beside,
        references,
        functions,
    })
}

/// What bytes ask for.
///
/// # Errors
///
/// As [`CheckFault`] says. The language is looked at first.
pub(crate) fn handed_in<'b>(alloc: Global, bytes: &Bytes<'b>) -> Result<Handed<'b>, CheckFault>
    ensures ok { IfOk result (IsHanded bytes.now) }
    ensures err { IfErr result (Refuses (wanted_by bytes.now)) }
{
    let Ok(language) = str::from_utf8(bytes.language) else {
        return Err(CheckFault::Language);
    };
    match lists_in(alloc, language, bytes) {
        Ok(handed) => Ok(handed),
        Err(fault) => Err(CheckFault::Records(fault)),
    }
}

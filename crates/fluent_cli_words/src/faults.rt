//! What is said where words ask for nothing.

ghost use Rattle.std.specs.Prelude.{◌≡◌, IfOk, find, not, option_map, string_bytes};
ghost use Rattle.clap.specs.Words.{HasKind, Kinds, found_of, kind_of, rows_of};
ghost use Rattle.fluent_cli_words.specs.Faults.{check_fault, each_fault, files_fault, format_fault, kind_fault, language_fault, show_fault};
ghost use Rattle.fluent_cli_words.specs.Given.{is_argument, texts};
ghost use Rattle.fluent_cli_words.specs.Words.{Refuses, Tells, TellsOneOf};

use crate::kinds::no_kind;
use crate::request::{Asked, Format};
use crate::values::{add_values, is_given, value, values};
use clap::error::ErrorKind;
use clap::{ArgMatches, Error};
use fluent_plural_rules::{cldr_plurals, rules_for};
use std::alloc::{AllocError, Global};

/// A fault of the words, in the form in which `clap` says its own.
pub fn refused<'w>(alloc: Global, why: &str) -> Result<Asked<'w>, AllocError>
    ensures { IfOk result (Refuses why.now) }
{
    let text = format!(in alloc; "error: {why}\n\nFor more information, try '--help'.\n")?;
    Ok(Asked::Fault(text))
}

/// What `clap` says, as help or as a fault.
fn told<'w>(error: &Error, text: String) -> Asked<'w>
    ensures { Tells (kind_of error.now) result }
{
    if error.use_stderr() {
        Asked::Fault(text)
    } else {
        Asked::Help(text)
    }
}

/// What is said where the words ask for help, or are not of the form.
pub fn said<'w>(alloc: Global, error: Error) -> Result<Asked<'w>, AllocError>
    ensures { IfOk result (λ asked. (kinds : Kinds) → HasKind kinds error → TellsOneOf kinds asked) }
{
    if error.kind() == ErrorKind::OutOfMemory {
        return Err(AllocError);
    }
    let text = format!(in alloc; "{error}")?;
    Ok(told(&error, text))
}

/// Why the language is refused: the Unicode CLDR has no plural rules for it.
fn language_fault(alloc: Global, matches: &ArgMatches<'_>) -> Result<Option<String>, AllocError>
    ensures { IfOk result (λ why. option_map string_bytes why ≡ language_fault (rows_of (found_of matches.now))) }
{
    let Some(tag) = value(matches, "language") else {
        return Ok(None);
    };
    match rules_for(cldr_plurals(), tag) {
        Some(_) => Ok(None),
        None => Ok(Some(format!(in alloc; "no plural rules are known for the language '{tag}'")?)),
    }
}

/// Why the format is refused: there is none of its name.
fn format_fault(alloc: Global, matches: &ArgMatches<'_>) -> Result<Option<String>, AllocError>
    ensures { IfOk result (λ why. option_map string_bytes why ≡ format_fault (rows_of (found_of matches.now))) }
{
    let Some(name) = value(matches, "format") else {
        return Ok(None);
    };
    match Format::named(name) {
        Some(_) => Ok(None),
        None => Ok(Some(format!(in alloc;
            "a format is text, json, github or sarif, and '{name}' is not"
        )?)),
    }
}

/// Why a kind of finding is refused: there is none of its name.
fn kind_fault(alloc: Global, matches: &ArgMatches<'_>) -> Result<Option<String>, AllocError>
    ensures { IfOk result (λ why. option_map string_bytes why ≡ kind_fault (rows_of (found_of matches.now))) }
{
    let names = values(alloc, matches, "allow")?;
    match no_kind(names.as_slice()) {
        Some(name) => Ok(Some(format!(in alloc; "there is no kind of finding '{name}'")?)),
        None => Ok(None),
    }
}

/// Why files and folders are refused: there is none, or a folder of translations stands beside files, or alone.
fn files_fault(alloc: Global, matches: &ArgMatches<'_>) -> Result<Option<String>, AllocError>
    ensures { IfOk result (λ why. option_map string_bytes why ≡ files_fault (rows_of (found_of matches.now))) }
{
    let files = values(alloc, matches, "file")?;
    let references = values(alloc, matches, "reference")?;
    let why = match value(matches, "translation") {
        None if files.len() == 0 => "there is no FILE to check",
        Some(_) if files.len() != 0 || references.len() != 1 => {
            "--translation FOLDER goes with --reference FOLDER alone"
        }
        _ => return Ok(None),
    };
    Ok(Some(String::from_str(alloc, why)?))
}

/// Why `--each` is refused: it stands beside references, with which files are compared together.
fn each_fault(alloc: Global, matches: &ArgMatches<'_>) -> Result<Option<String>, AllocError>
    ensures { IfOk result (λ why. option_map string_bytes why ≡ each_fault (rows_of (found_of matches.now))) }
{
    if is_given(matches, "each") && value(matches, "reference").is_some() {
        let why = "--each goes without --reference; --translation takes each file for itself";
        return Ok(Some(String::from_str(alloc, why)?));
    }
    Ok(None)
}

/// Why the words after `check` are refused.
pub fn check_fault(alloc: Global, matches: &ArgMatches<'_>) -> Result<Option<String>, AllocError>
    ensures { IfOk result (λ why. option_map string_bytes why ≡ check_fault (rows_of (found_of matches.now))) }
{
    if let Some(why) = language_fault(alloc, matches)? {
        return Ok(Some(why));
    }
    if let Some(why) = format_fault(alloc, matches)? {
        return Ok(Some(why));
    }
    if let Some(why) = kind_fault(alloc, matches)? {
        return Ok(Some(why));
    }
    if let Some(why) = files_fault(alloc, matches)? {
        return Ok(Some(why));
    }
    each_fault(alloc, matches)
}

/// Whether a word is NAME=VALUE.
fn is_argument(word: &str) -> bool
    ensures { result ≡ is_argument word.now }
{
    match word.split_once('=') {
        Some((name, _)) => name.len() > 0,
        None => false,
    }
}

/// The first word that is not.
fn no_argument<'w>(words: &[&'w str]) -> Option<&'w str>
    ensures { option_map (λ word. word.now) result ≡ find (λ word. not (is_argument word)) (texts words.now) }
{
    for word in words {
        if !is_argument(*word) {
            return Some(*word);
        }
    }
    None
}

/// Why the words after `show` are refused.
pub fn show_fault(alloc: Global, matches: &ArgMatches<'_>) -> Result<Option<String>, AllocError>
    ensures { IfOk result (λ why. option_map string_bytes why ≡ show_fault (rows_of (found_of matches.now))) }
{
    if let Some(why) = language_fault(alloc, matches)? {
        return Ok(Some(why));
    }
    let mut words = values(alloc, matches, "argument")?;
    add_values(matches, "text", &mut words)?;
    match no_argument(words.as_slice()) {
        Some(word) => Ok(Some(format!(in alloc;
            "an argument is NAME=VALUE, and '{word}' is not"
        )?)),
        None => Ok(None),
    }
}

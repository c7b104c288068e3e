//! Requests, by what the words give.

ghost use Rattle.std.specs.Prelude.{◌≡◌, ◌++◌, IfOk, OnOk, map};
ghost use Rattle.std.specs.List.{before_first};
ghost use Rattle.clap.specs.Words.{found_of, rows_of};
ghost use Rattle.fluent_cli_words.specs.Faults.{check_fault, show_fault};
ghost use Rattle.fluent_cli_words.specs.Given.{argument_in, argument_view, arguments_in, attribute_in, format_of, is_dot, text_of, texts};
ghost use Rattle.fluent_cli_words.specs.Requests.{IsCheck, IsShow};
ghost use Rattle.fluent_cli_words.specs.Words.{AsksIn, ChecksBy, IsAsked, ListsBy, RefusesOr, ShowsBy};

use crate::faults::{check_fault, refused, show_fault};
use crate::request::{Argument, Asked, CheckRequest, Format, ListRequest, Request, ShowRequest};
use crate::values::{add_values, is_given, value, values};
use clap::ArgMatches;
use std::alloc::{AllocError, Global};

/// The format that is asked for, and plain text where none is.
fn format_of(matches: &ArgMatches<'_>) -> Format
    ensures { result ≡ format_of (rows_of (found_of matches.now)) }
{
    match value(matches, "format") {
        Some(name) => Format::named(name).unwrap_or(Format::Text),
        None => Format::Text,
    }
}

fn to_check<'w>(alloc: Global, matches: &ArgMatches<'w>) -> Result<CheckRequest<'w>, AllocError>
    ensures { IfOk result (IsCheck (rows_of (found_of matches.now))) }
{
    Ok(CheckRequest {
        language: value(matches, "language"),
        files: values(alloc, matches, "file")?,
        references: values(alloc, matches, "reference")?,
        beside: values(alloc, matches, "with")?,
        translation: value(matches, "translation"),
        format: format_of(matches),
        is_quiet: is_given(matches, "quiet"),
        is_strict: is_given(matches, "strict"),
        is_every: is_given(matches, "every"),
        has_caret: is_given(matches, "caret"),
        has_color: is_given(matches, "color"),
        is_each: is_given(matches, "each"),
        has_all_categories: is_given(matches, "all-categories"),
        functions: values(alloc, matches, "function")?,
        allowed: values(alloc, matches, "allow")?,
    })
}

fn asked_to_check<'w>(alloc: Global, matches: &ArgMatches<'w>) -> Result<Asked<'w>, AllocError>
    ensures { IfOk result (RefusesOr (check_fault (rows_of (found_of matches.now))) (ChecksBy (rows_of (found_of matches.now)))) }
{
    if let Some(why) = check_fault(alloc, matches)? {
        return refused(alloc, why.as_str());
    }
    Ok(Asked::Request(Request::Check(to_check(alloc, matches)?)))
}

/// The argument that a word gives: what stands before its first `=`, and what stands behind that.
fn argument_in<'w>(is_text: bool, word: &'w str) -> Argument<'w>
    ensures { argument_view result ≡ argument_in is_text word.entry.now }
{
    let (name, value) = word.split_once('=').unwrap_or((word, ""));
    Argument {
        name,
        value,
        is_text,
    }
}

/// Adds the arguments that words give.
fn add_arguments<'w>(
    is_text: bool,
    words: &[&'w str],
    arguments: &mut Vec<Argument<'w>>,
) -> Result<(), AllocError>
    ensures { OnOk result (map argument_view arguments.new.items ≡ map argument_view arguments.old.items ++ map (argument_in is_text) (texts words.now)) }
{
    for word in words {
        arguments.push(argument_in(is_text, *word))?;
    }
    Ok(())
}

/// The arguments of a message, plain ones before texts.
fn arguments_in<'w>(
    alloc: Global,
    matches: &ArgMatches<'w>,
) -> Result<Vec<Argument<'w>>, AllocError>
    ensures { IfOk result (λ arguments. map argument_view arguments.items ≡ arguments_in (rows_of (found_of matches.now))) }
{
    let mut arguments = Vec::new(alloc);
    let plain = values(alloc, matches, "argument")?;
    add_arguments(false, plain.as_slice(), &mut arguments)?;
    let texts = values(alloc, matches, "text")?;
    add_arguments(true, texts.as_slice(), &mut arguments)?;
    Ok(arguments)
}

/// The id and the name of the attribute, if there is one.
fn id_and_attribute(word: &str) -> (&str, Option<&str>)
    ensures { (result.0.now ≡ before_first is_dot word.now) × (text_of result.1 ≡ attribute_in word.now) }
{
    match word.split_once('.') {
        Some((id, attribute)) => (id, Some(attribute)),
        None => (word, None),
    }
}

fn to_show<'w>(alloc: Global, matches: &ArgMatches<'w>) -> Result<ShowRequest<'w>, AllocError>
    ensures { IfOk result (IsShow (rows_of (found_of matches.now))) }
{
    let mut files = values(alloc, matches, "file")?;
    add_values(matches, "fallback", &mut files)?;
    let (id, attribute) = id_and_attribute(value(matches, "id").unwrap_or(""));
    Ok(ShowRequest {
        language: value(matches, "language").unwrap_or("en"),
        is_strict: is_given(matches, "strict"),
        files,
        beside: values(alloc, matches, "with")?,
        functions: values(alloc, matches, "function")?,
        id,
        attribute,
        arguments: arguments_in(alloc, matches)?,
    })
}

fn asked_to_show<'w>(alloc: Global, matches: &ArgMatches<'w>) -> Result<Asked<'w>, AllocError>
    ensures { IfOk result (RefusesOr (show_fault (rows_of (found_of matches.now))) (ShowsBy (rows_of (found_of matches.now)))) }
{
    if let Some(why) = show_fault(alloc, matches)? {
        return refused(alloc, why.as_str());
    }
    Ok(Asked::Request(Request::Show(to_show(alloc, matches)?)))
}

fn asked_to_list<'w>(alloc: Global, matches: &ArgMatches<'w>) -> Result<Asked<'w>, AllocError>
    ensures { IfOk result (IsAsked (ListsBy (rows_of (found_of matches.now)))) }
{
    Ok(Asked::Request(Request::List(ListRequest {
        files: values(alloc, matches, "file")?,
    })))
}

/// What the words after the name of a subcommand ask for.
pub fn asked_for<'w>(
    alloc: Global,
    name: &str,
    matches: &ArgMatches<'w>,
) -> Result<Asked<'w>, AllocError>
    ensures { IfOk result (AsksIn name.now (rows_of (found_of matches.now))) }
{
    if name == "check" {
        asked_to_check(alloc, matches)
    } else if name == "show" {
        asked_to_show(alloc, matches)
    } else {
        asked_to_list(alloc, matches)
    }
}

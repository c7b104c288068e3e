//! What the words give an option or an argument.

ghost use Rattle.std.specs.Prelude.{◌≡◌, ◌++◌, IfOk, OnOk};
ghost use Rattle.clap.specs.Words.{first_of, found_of, rows_of};
ghost use Rattle.fluent_cli_words.specs.Given.{are_words, is_given, text_of, texts, values_of};

use clap::ArgMatches;
use clap::parser::ValueSource;
use std::alloc::{AllocError, Global};

/// The first value.
pub fn value<'w>(matches: &ArgMatches<'w>, id: &str) -> Option<&'w str>
    ensures { text_of result ≡ first_of id.now (rows_of (found_of matches.now)) }
{
    matches.get_str(id)
}

/// Adds the values.
pub fn add_values<'w>(
    matches: &ArgMatches<'w>,
    id: &str,
    list: &mut Vec<&'w str>,
) -> Result<(), AllocError>
    ensures { OnOk result (texts list.new.items ≡ texts list.old.items ++ values_of id.now (rows_of (found_of matches.now))) }
{
    match matches.get_strs(id) {
        Some(found) => {
            list.extend_from_slice(found)?;
            Ok(())
        }
        None => Ok(()),
    }
}

/// The values.
pub fn values<'w>(
    alloc: Global,
    matches: &ArgMatches<'w>,
    id: &str,
) -> Result<Vec<&'w str>, AllocError>
    ensures { IfOk result (λ list. texts list.items ≡ values_of id.now (rows_of (found_of matches.now))) }
{
    let mut list = Vec::new(alloc);
    add_values(matches, id, &mut list)?;
    Ok(list)
}

/// Whether values come from the words, and not from a default.
fn are_words(source: Option<ValueSource>) -> bool
    ensures { result ≡ are_words source }
{
    match source {
        Some(ValueSource::CommandLine) => true,
        Some(ValueSource::DefaultValue) | None => false,
    }
}

/// Whether an option without a value stands in the words.
pub fn is_given(matches: &ArgMatches<'_>, id: &str) -> bool
    ensures { result ≡ is_given id.now (rows_of (found_of matches.now)) }
{
    are_words(matches.value_source(id))
}

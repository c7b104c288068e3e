//! What the words of a call to the program `fluent` ask for.
#![tactic(auto)]

ghost use Rattle.std.specs.Prelude.{IfOk, map, string_bytes};
ghost use Rattle.fluent_cli_words.specs.Words.{Asks};

mod commands;
mod faults;
mod kinds;
mod request;
mod requests;
mod values;

pub use kinds::KINDS;
pub use request::{Argument, Asked, CheckRequest, Format, ListRequest, Request, ShowRequest};
use std::alloc::{AllocError, Global};

/// What these words ask for, of which the first is the one after the program's name.
///
/// # Errors
///
/// An allocation failed.
pub fn ask<'w>(alloc: Global, words: &'w [String]) -> Result<Asked<'w>, AllocError>
    ensures { IfOk result (Asks (map string_bytes words.entry.now)) }
{
    let matches = match commands::program(alloc)?.try_get_matches_from(words) {
        Ok(matches) => matches,
        Err(error) => return faults::said(alloc, error),
    };
    match matches.subcommand() {
        Some((name, matches)) => requests::asked_for(alloc, name, matches),
        None => faults::refused(alloc, "no subcommand"),
    }
}

//! A run of the program, over the contents of its files.

ghost use Rattle.std.specs.Prelude.{◌≡◌, IfOk};
ghost use Rattle.fluent_cli_report.specs.Unread.{unread_views};
ghost use Rattle.fluent_cli.specs.Runs.{Gives, GivesAfter, GivesOver, Runs, are_pairs, is_lost, is_lost_by, needs_file, status_by_whole};

use crate::answer::{Answer, Status};
use crate::check::check;
use crate::list::list;
pub use crate::reading::File;
use crate::reading::{Inputs, read_inputs};
use crate::show::show;
use fluent_cli_report::{UnreadFile, unread_lines};
use fluent_cli_words::Request;
use fluent_sources::source::mark_lines;
use std::alloc::{AllocError, Global};

/// What a request gives over what was read.
fn answer(
    alloc: Global,
    request: &Request<'_>,
    inputs: &Inputs<'_>,
    unread: &[UnreadFile<'_>],
) -> Result<Answer, AllocError>
    ensures { IfOk result (Gives request.now inputs.now (unread_views unread.now)) }
{
    match request {
        Request::Check(request) => check(alloc, request, inputs, unread),
        Request::Show(request) => show(alloc, request, inputs),
        Request::List(_) => list(alloc, &inputs.sources),
    }
}

/// The status of a run, by whether all of its files could be read.
fn status_after(is_whole: bool, status: Status) -> Status
    ensures { result ≡ status_by_whole is_whole status }
{
    if is_whole { status } else { Status::Fault }
}

/// Whether a request needs a file that can be read. A check reports it where there is none.
fn needs_file(request: &Request<'_>) -> bool
    ensures { result ≡ needs_file request.now }
{
    match request {
        Request::Check(_) => false,
        Request::Show(_) | Request::List(_) => true,
    }
}

/// What a request gives over what was read, after what is said of files that can't be read, and of byte order marks.
fn answer_after(
    alloc: Global,
    request: &Request<'_>,
    inputs: &Inputs<'_>,
    unread: &[UnreadFile<'_>],
) -> Result<Answer, AllocError>
    ensures { IfOk result (GivesAfter request.now inputs.now (unread_views unread.now)) }
{
    let mut errors = unread_lines(alloc, unread)?;
    let texts = inputs.texts(alloc)?;
    let marks = mark_lines(alloc, texts.as_slice())?;
    errors.push_str(marks.as_str())?;
    let given = answer(alloc, request, inputs, unread)?;
    errors.push_str(given.errors.as_str())?;
    Ok(Answer {
        status: status_after(unread.is_empty(), given.status),
        output: given.output,
        errors,
    })
}

/// Whether a request that needs a file has none, as it can't be read.
fn is_lost_by(needs_file: bool, is_nothing: bool, is_whole: bool) -> bool
    ensures { result ≡ is_lost_by needs_file is_nothing is_whole }
{
    needs_file && (is_nothing && !is_whole)
}

/// Whether no file is left for a request that needs one.
fn is_lost(request: &Request<'_>, inputs: &Inputs<'_>, unread: &[UnreadFile<'_>]) -> bool
    ensures { result ≡ is_lost request.now inputs.now (unread_views unread.now) }
{
    let is_nothing = inputs.sources.texts.is_empty();
    let is_whole = unread.is_empty();
    is_lost_by(needs_file(request), is_nothing, is_whole)
}

/// The same, but where no file is left for a request that needs one: then nothing is printed.
fn answer_over(
    alloc: Global,
    request: &Request<'_>,
    inputs: &Inputs<'_>,
    unread: &[UnreadFile<'_>],
) -> Result<Answer, AllocError>
    ensures { IfOk result (GivesOver request.now inputs.now (unread_views unread.now)) }
{
    if is_lost(request, inputs, unread) {
        let errors = unread_lines(alloc, unread)?;
        return Ok(Answer::says(alloc, Status::Fault, errors));
    }
    answer_after(alloc, request, inputs, unread)
}

/// Whether each file goes with the reference at its place.
fn are_pairs(request: &Request<'_>) -> bool
    ensures { result ≡ are_pairs request.now }
{
    match request {
        Request::Check(request) => request.translation.is_some(),
        Request::Show(_) | Request::List(_) => false,
    }
}

/// What a request gives over its files, those that are loaded with each of them, and those that they were translated from.
/// Where it names a folder of translations, files and references go in pairs, as they stand in the lists. What can't be read
/// is said and left out, a pair as a whole; the status is then 3, and where no file is left to show or list, nothing is printed.
/// A check reports it too. Otherwise status, output and what is said come from the request and the contents of the files alone, after a line for each byte
/// order mark. Where a check allows no finding, its status 0 says that no value and no attribute of its files ever shows an
/// error, for all arguments that give what it asks for; what is shown is the text that a bundle of the first file that has it
/// writes.
///
/// # Errors
///
/// An allocation failed.
pub fn run<'f>(
    alloc: Global,
    request: &Request<'_>,
    beside: &[File<'f>],
    files: &[File<'f>],
    references: &[File<'f>],
) -> Result<Answer, AllocError>
    ensures { IfOk result (Runs request.now beside.now files.now references.now) }
{
    let mut unread = Vec::new(alloc);
    let inputs = read_inputs(
        alloc,
        are_pairs(request),
        beside,
        files,
        references,
        &mut unread,
    )?;
    answer_over(alloc, request, &inputs, unread.as_slice())
}

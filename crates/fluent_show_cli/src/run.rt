//! The program over any reader and writers.

ghost use Rattle.std.specs.Prelude.{◌≡◌, ◌≢◌, ◌≤◌, [], None};
ghost use Rattle.fluent_resolver_state.specs.Status.{reported};
ghost use Rattle.fluent_show_cli.specs.Program.{bad_usage, reading_failed};
ghost use Rattle.fluent_show_words.specs.Words.{HasBadRule};
ghost use Rattle.fluent_show_cli.specs.Runs.{ending_view, ReadsAreBounded, IsUntouched, CameTo, Stopped, Works, asked_of};
ghost use Rattle.fluent_show_cli.specs.Inside.Ends.{EndsAsked, EndsOnRule, EndsOver, EndsReading, ReadAs};
ghost use Rattle.fluent_show_cli.specs.Inside.RunWith.{RanWith};

use crate::input::{ReadFault, Reads, read_all};
use crate::report::{Ending, report};
use crate::show::show;
use crate::task::Task;
use fluent_bundle::{Counting, FluentError};
use fluent_show_words::plurals::{Plurals, read_rules};
use fluent_show_words::request::Request;
use std::alloc::Global;
use std::io::{Read, Write};
use std::str;

/// Shows a message of what was read, if that is a text.
fn show_bytes<'w, W: Write>(
    alloc: Global,
    task: Task<'w, '_>,
    bytes: &[u8],
    out: &mut Counting<W>,
    errors: &mut Vec<FluentError>,
) -> Ending<'w>
    requires { errors.old.items ≡ [] }
    ensures ends { EndsOver W.contents task.entry bytes.now out.old out.new result errors.new }
    ensures read { ending_view result ≢ reading_failed }
{
    match str::from_utf8(bytes) {
        Ok(source) => match show(alloc, task, source, out, errors) {
            Ok(ending) => ending,
            Err(fault) => Ending::from(fault),
        },
        Err(_) => Ending::NotUtf8,
    }
}

/// Reads the input, and shows a message of it.
fn show_input<'w, R: Read, W: Write>(
    alloc: Global,
    task: Task<'w, '_>,
    input: &mut Reads<R>,
    out: &mut Counting<W>,
    errors: &mut Vec<FluentError>,
) -> Ending<'w>
    requires { errors.old.items ≡ [] }
    ensures ends { EndsReading R.remaining W.contents task.entry
        input.old input.new out.old out.new result errors.new }
    ensures reads { ReadAs R.remaining input.old input.new result }
    ensures bounded { ReadsAreBounded input.new }
{
    match read_all(alloc, input) {
        Ok(bytes) => show_bytes(alloc, task, bytes.as_slice(), out, errors),
        Err(ReadFault::Memory) => Ending::Memory,
        Err(ReadFault::Reading) => Ending::Reading,
    }
}

/// Does what the words ask for, but for standard error: what is to be reported is added to the errors.
fn attempt<'w, R: Read, W: Write>(
    alloc: Global,
    words: &'w [String],
    input: &mut Reads<R>,
    out: &mut Counting<W>,
    errors: &mut Vec<FluentError>,
) -> Ending<'w>
    requires { errors.old.items ≡ [] }
    ensures ends { EndsAsked R.remaining W.contents words.now
        input.old input.new out.old out.new result errors.new }
    ensures usage { asked_of words.now ≡ None → ending_view result ≡ bad_usage }
    ensures rule { HasBadRule (asked_of words.now) → EndsOnRule result }
    ensures reads { ReadAs R.remaining input.old input.new result }
    ensures unread { asked_of words.now ≡ None → input.new ≡ input.old }
    ensures untouched { HasBadRule (asked_of words.now) → IsUntouched input.old input.new }
    ensures bounded { asked_of words.now ≢ None → ReadsAreBounded input.new }
{
    let Some(request) = Request::of(words) else {
        return Ending::Usage;
    };
    match read_rules(alloc, request.options) {
        Ok(rules) => {
            let plurals = Plurals::of(&rules);
            show_input(alloc, Task { request, plurals }, input, out, errors)
        }
        Err(fault) => {
            // No read is made.
            input.begin();
            Ending::from(fault)
        }
    }
}

/// Runs the program with a list for its errors. All that stand in it at the end were to be reported.
fn run_with<R: Read, W: Write, E: Write>(
    alloc: Global,
    words: &[String],
    input: &mut Reads<R>,
    out: &mut Counting<W>,
    err: &mut Counting<E>,
    errors: &mut Vec<FluentError>,
) -> u8
    requires { errors.old.items ≡ [] }
    ensures ran { RanWith R.remaining W.contents E.contents words.now input.old input.new
        out.old out.new err.old err.new (reported errors.new.items) result }
    ensures unread { asked_of words.now ≡ None → input.new ≡ input.old }
    ensures untouched { HasBadRule (asked_of words.now) → IsUntouched input.old input.new }
    ensures bounded { asked_of words.now ≢ None → ReadsAreBounded input.new }
{
    let ending = attempt(alloc, words, input, out, errors);
    match report(alloc, errors.as_slice(), ending, err) {
        Ok(ending) => ending.status(),
        Err(_) => 3,
    }
}

/// Runs the program on its words, its input and its two outputs, and gives the exit status. It returns for
/// every reader, also one that never ends, and for all writers.
///
/// Where the status is not 3, status, output and error text are those that `program` defines for the words and
/// the bytes of the input. Where it is 3, a read failed or all were made and each gave bytes, a write failed or took
/// nothing, or the error text says that an allocation failed. The output then holds a beginning of what it should; with a
/// fallback it holds all or nothing unless a write failed, since its text is made before it is written.
/// The error text is the lines of the first errors and one that names the cause or, where it was standard error
/// that failed, a beginning of such lines. Faults of usage are found first, then plural rules that can't be read, and
/// both before anything is read; all errors of the sources are found before anything is written, and with a fallback
/// all errors.
pub fn run<R: Read, W: Write, E: Write>(
    alloc: Global,
    words: &[String],
    input: &mut Reads<R>,
    out: &mut Counting<W>,
    err: &mut Counting<E>,
) -> u8
    ensures works { Works R.remaining W.contents E.contents words.now input.old
        out.old out.new err.old err.new result }
    ensures stopped { Stopped R.remaining W.contents E.contents input.old input.new
        out.old out.new err.old err.new result }
    ensures ran { CameTo R.remaining W.contents E.contents words.now input.old input.new
        out.old out.new err.old err.new result }
    ensures unread { asked_of words.now ≡ None → input.new ≡ input.old }
    ensures untouched { HasBadRule (asked_of words.now) → IsUntouched input.old input.new }
    ensures bounded { asked_of words.now ≢ None → ReadsAreBounded input.new }
    ensures status { result ≤ 3 }
{
    let mut errors = Vec::new(alloc);
    run_with(alloc, words, input, out, err, &mut errors)
}

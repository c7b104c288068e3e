//! What is said on standard error, and the status.

ghost use Rattle.std.specs.Prelude.{◌≡◌, ◌≢◌, Err, IfOk, string_bytes};
ghost use Rattle.fluent_text.specs.Writer.{CountsFault};
ghost use Rattle.fluent_semantics.specs.Errors.{error_text};
ghost use Rattle.fluent_bundle_entries.specs.ErrorView.{error_view};
ghost use Rattle.fluent_show_cli.specs.Program.{exit_status, line, no_message, ending_line};
ghost use Rattle.fluent_resolver_state.specs.Status.{reported};
ghost use Rattle.fluent_show_cli.specs.Runs.{ending_view, SaysAlone};
ghost use Rattle.fluent_show_cli.specs.Inside.OutputProgress.{Took};
ghost use Rattle.fluent_show_cli.specs.Inside.Said.{At, SaysAll, SaysPrefix, TookErrors, line_of};

use fluent_bundle::{Counting, FluentError, WriteFault};
use fluent_plural_rules::RuleFault;
use fluent_syntax::put;
use std::alloc::{AllocError, Global};
use std::io::Write;

/// How a run ends.
#[derive(Clone, Copy, Debug)]
pub enum Ending<'w> {
    /// The text was written.
    Shown,
    /// No message of this id has a value.
    NoMessage(&'w str),
    /// The words are not of the form that the program takes.
    Usage,
    /// A plural rule can't be read.
    PluralRule,
    /// The input is no text.
    NotUtf8,
    /// An allocation failed.
    Memory,
    /// A read failed, or none of all showed the end.
    Reading,
    /// A write on the output failed, or took nothing.
    Writing,
}

impl<'w> Ending<'w> {
    /// The exit status: 0, 1, 2 or 3.
    pub(crate) fn status(self) -> u8
        ensures { result ≡ exit_status (ending_view self.entry) }
    {
        match self {
            Ending::Shown => 0,
            Ending::NoMessage(_) => 1,
            Ending::Usage | Ending::PluralRule | Ending::NotUtf8 => 2,
            Ending::Memory | Ending::Reading | Ending::Writing => 3,
        }
    }
}

impl<'w> From<WriteFault> for Ending<'w> {
    ghost use Rattle.fluent_show_cli.specs.Runs.{ending_view, ending_of};

    ghost from_gives = { λ fault ending. ending_view ending ≡ ending_of fault };

    fn from(fault: WriteFault) -> Ending<'w> {
        match fault {
            WriteFault::Memory => Ending::Memory,
            WriteFault::Writer(_) | WriteFault::Zero => Ending::Writing,
        }
    }
}

impl<'w> From<RuleFault> for Ending<'w> {
    ghost use Rattle.fluent_show_cli.specs.Runs.{ending_view, ending_of_rules};

    ghost from_gives = { λ fault ending. ending_view ending ≡ ending_of_rules fault };

    fn from(fault: RuleFault) -> Ending<'w> {
        match fault {
            RuleFault::Syntax(..) => Ending::PluralRule,
            RuleFault::Memory => Ending::Memory,
        }
    }
}

/// The text of an error, and a line feed.
fn error_line(alloc: Global, error: &FluentError) -> Result<String, AllocError>
    ensures { IfOk result (λ text. string_bytes text ≡ line (error_text (error_view error.now))) }
{
    format!(in alloc; "{error}\n")
}

/// Writes a line for each error. It takes memory for one line at a time.
fn put_errors<E: Write>(
    alloc: Global,
    errors: &[FluentError],
    err: &mut Counting<E>,
) -> Result<(), WriteFault>
    ensures lines { At E.contents err.old err.new (TookErrors result (reported errors.now)) }
    ensures fault { CountsFault err.old err.new result }
{
    for error in errors {
        let line = error_line(alloc, error)?;
        put(err, line.as_bytes())?;
    }
    Ok(())
}

fn put_no_message<E: Write>(id: &str, err: &mut Counting<E>) -> Result<(), WriteFault>
    ensures took { At E.contents err.old err.new (Took result (ending_line (no_message id.now))) }
    ensures fault { CountsFault err.old err.new result }
    ensures memory { result ≢ Err WriteFault.Memory }
{
    put(err, b"fluent_show: no message with a value: ")?;
    put(err, id.as_bytes())?;
    put(err, b"\n")
}

/// Writes the line of an ending, which takes no memory.
fn put_ending<E: Write>(ending: Ending<'_>, err: &mut Counting<E>) -> Result<(), WriteFault>
    ensures took { At E.contents err.old err.new (Took result (line_of ending.entry)) }
    ensures fault { CountsFault err.old err.new result }
    ensures memory { result ≢ Err WriteFault.Memory }
{
    match ending {
        Ending::Shown => Ok(()),
        Ending::NoMessage(id) => put_no_message(id, err),
        Ending::Usage => put(
            err,
            b"usage: fluent_show [--no-isolate] ID [NAME=VALUE]..\n",
        ),
        Ending::PluralRule => put(err, b"fluent_show: bad plural rule\n"),
        Ending::NotUtf8 => put(err, b"fluent_show: standard input is not UTF-8\n"),
        Ending::Memory => put(err, b"fluent_show: out of memory\n"),
        Ending::Reading => put(err, b"fluent_show: reading failed\n"),
        Ending::Writing => put(err, b"fluent_show: writing failed\n"),
    }
}

/// Writes the errors and the ending, one a line, and gives the ending that was said. That is the one it was handed,
/// but where an allocation fails for the line of an error: then that is said in place of all that is still to say.
///
/// # Errors
///
/// `Writer` or `Zero` of standard error, never `Memory`: it then took a beginning of what was to be said.
pub(crate) fn report<'w, E: Write>(
    alloc: Global,
    errors: &[FluentError],
    ending: Ending<'w>,
    err: &mut Counting<E>,
) -> Result<Ending<'w>, WriteFault>
    ensures says { At E.contents err.old err.new (SaysAll result errors.now ending.entry) }
    ensures prefix { At E.contents err.old err.new (SaysPrefix result errors.now ending.entry) }
    ensures fault { CountsFault err.old err.new result }
    ensures memory { result ≢ Err WriteFault.Memory }
{
    let ending = match put_errors(alloc, errors, err) {
        Ok(()) => ending,
        Err(WriteFault::Memory) => Ending::Memory,
        Err(fault) => return Err(fault),
    };
    put_ending(ending, err)?;
    Ok(ending)
}

/// Writes the line of an ending alone, and gives the exit status: for a program that ends before it can call `run`.
///
/// It is 3 also where standard error failed or took nothing: that took a beginning of the line then.
/// Memory is not asked for.
pub fn say<E: Write>(ending: Ending<'_>, err: &mut Counting<E>) -> u8
    ensures { SaysAlone E.contents ending.entry err.old err.new result }
{
    match put_ending(ending, err) {
        Ok(()) => ending.status(),
        Err(_) => 3,
    }
}

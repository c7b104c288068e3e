//! Shows one message of an FTL source that stands on standard input.
#![tactic(auto)]

ghost use Rattle.std.specs.Prelude.{◌≡◌, ◌≢◌};
ghost use Rattle.std.specs.IoError.{error_kind};
ghost use Rattle.fluent_show_cli.specs.Program.{bad_usage, out_of_memory};
ghost use Rattle.fluent_show_cli.specs.Runs.{ending_view};

use fluent_bundle::Counting;
use fluent_show_cli::input::Reads;
use fluent_show_cli::report::{Ending, say};
use fluent_show_cli::run::run;
use std::io::ErrorKind;
use std::process::ExitCode;
use std::{env, io};

/// The words after the program's name.
fn words(rt: &HostRuntime) -> io::Result<Vec<String>> {
    let mut words = Vec::new(rt.alloc());
    for word in env::args(rt)?.skip(1) {
        words.push(word)?;
    }
    Ok(words)
}

/// Words that can't be had end the program, too: one that is no text is a fault of usage.
fn refusal(error: &io::Error) -> Ending<'static>
    ensures memory { error_kind error.now ≡ ErrorKind.OutOfMemory →
        ending_view result ≡ out_of_memory }
    ensures word { error_kind error.now ≢ ErrorKind.OutOfMemory → ending_view result ≡ bad_usage }
{
    match error.kind() {
        ErrorKind::OutOfMemory => Ending::Memory,
        _ => Ending::Usage,
    }
}

fn main(rt: HostRuntime) -> ExitCode {
    let mut input = Reads::new(rt.stdin());
    let mut out = Counting::new(rt.stdout());
    let mut err = Counting::new(rt.stderr());
    let status = match words(&rt) {
        Ok(words) => run(rt.alloc(), words.as_slice(), &mut input, &mut out, &mut err),
        Err(error) => say(refusal(&error), &mut err),
    };
    ExitCode::from(status)
}

//! What a run leaves: its status, what it prints, and what it says on standard error.

ghost use Rattle.std.specs.Prelude.{◌≡◌, [], string_bytes};
ghost use Rattle.fluent_cli.specs.Answers.{AnswersWords, Leaves, code_of};

use fluent_cli_words::{Asked, Request};
use std::alloc::Global;

/// How a run ends.
#[derive(Clone, Copy, Debug, PartialEq, Eq)]
pub enum Status {
    /// Nothing is wrong.
    Fine,
    /// Something is wrong: there is a finding, a message is missing, or a text that is shown strictly has an error.
    Wrong,
    /// The words are not of the form that the program takes.
    Usage,
    /// A file can't be read, or an allocation failed.
    Fault,
}

impl Status {
    /// The exit status of the program.
    pub fn code(self) -> u8
        ensures { result ≡ code_of self }
    {
        match self {
            Status::Fine => 0,
            Status::Wrong => 1,
            Status::Usage => 2,
            Status::Fault => 3,
        }
    }
}

/// What a run leaves.
#[derive(Drop)]
pub struct Answer {
    pub status: Status,
    /// What goes to standard output.
    pub output: String,
    /// What goes to standard error.
    pub errors: String,
}

impl Answer {
    /// Nothing is printed, and this is said.
    pub(crate) fn says(alloc: Global, status: Status, errors: String) -> Answer
        ensures { Leaves status [] (string_bytes errors) result }
    {
        Answer {
            status,
            output: String::new(alloc),
            errors,
        }
    }

    /// This is printed, and nothing is said.
    pub(crate) fn prints(alloc: Global, status: Status, output: String) -> Answer
        ensures { Leaves status (string_bytes output) [] result }
    {
        Answer {
            status,
            output,
            errors: String::new(alloc),
        }
    }
}

/// The request that words ask for. Where they ask for none, what is answered: help is printed with status 0, and a fault of
/// the words is said with status 2.
pub fn request_of<'w>(alloc: Global, asked: Asked<'w>) -> Result<Request<'w>, Answer>
    ensures { AnswersWords asked.entry result }
{
    match asked {
        Asked::Request(request) => Ok(request),
        Asked::Help(text) => Err(Answer::prints(alloc, Status::Fine, text)),
        Asked::Fault(text) => Err(Answer::says(alloc, Status::Usage, text)),
    }
}

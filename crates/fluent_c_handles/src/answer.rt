//! What a call on a kept bundle answers, and how C gets it.
ghost use Rattle.std.specs.Prelude.{◌≡◌, ◌<◌};
ghost use Rattle.fluent_c_handles.specs.Answers.{GivenBy, GivenOneBy, GivesTwo, answer_status, fault_status};

use crate::buffers::{put_bytes, put_text};
use crate::opening::OpenFault;
use crate::sources::SourceFault;
use crate::texts::{FormatFault, Lengths};
use fluent_answers::Fault;
use fluent_plural_rules::RuleFault;

/// What is answered.
#[derive(Debug, Drop)]
pub enum Answer {
    /// It was done, or there is such a message.
    Done,
    /// It was done, by the rules of the root, since there are none for the language.
    Root,
    /// A text, and the lines of its errors, if it is that of a message.
    Texts { text: String, lines: String },
    /// What has to be asked of the caller before there is a text.
    Asks(Vec<u8>),
    /// Nothing is open.
    Closed,
    /// There is a bundle, which stays.
    Open,
    /// The limit is none of those that can be set, and nothing was done.
    OutOfRange,
    /// The id names something, and nothing was done.
    Taken,
    /// Nothing was done, and why.
    Fault(SourceFault),
}

impl Answer {
    /// The status of an answer that is no text.
    pub(crate) fn status(&self) -> u8
        ensures { result ≡ answer_status self.now }
    {
        match self {
            Answer::Done => 0,
            Answer::Root => 5,
            Answer::Texts { .. } => 0,
            Answer::Asks(_) => 14,
            Answer::Closed => 11,
            Answer::Open => 12,
            Answer::OutOfRange => 13,
            Answer::Taken => 15,
            Answer::Fault(fault) => status(*fault),
        }
    }

    /// Writes the texts to buffers.
    pub(crate) fn give(&self, out: &mut [u8], err: &mut [u8], sizes: &mut Lengths) -> u8
        ensures { GivenBy self.now out.old out.new err.old err.new sizes.new result }
    {
        match self {
            Answer::Texts { text, lines } => {
                give_texts(text.as_str(), lines.as_str(), out, err, sizes)
            }
            Answer::Asks(question) => {
                *sizes = Lengths {
                    text: put_bytes(question.as_slice(), out),
                    errors: 0,
                };
                14
            }
            _ => {
                *sizes = Lengths { text: 0, errors: 0 };
                self.status()
            }
        }
    }

    /// Writes the text to a buffer.
    pub(crate) fn give_one(&self, out: &mut [u8], length: &mut usize) -> u8
        ensures { GivenOneBy self.now out.old out.new length.new result }
    {
        let Answer::Texts { text, lines: _ } = self else {
            *length = 0;
            return self.status();
        };
        let room = out.len();
        let needed = put_text(text.as_str(), out);
        *length = needed;
        if needed <= room { 0 } else { 1 }
    }
}

/// Writes two texts to buffers.
fn give_texts(text: &str, lines: &str, out: &mut [u8], err: &mut [u8], sizes: &mut Lengths) -> u8
    ensures { GivesTwo text.now lines.now out.old out.new err.old err.new sizes.new result }
{
    let room = out.len();
    let err_room = err.len();
    *sizes = Lengths {
        text: put_text(text, out),
        errors: put_text(lines, err),
    };
    if sizes.text <= room && sizes.errors <= err_room {
        0
    } else {
        1
    }
}

/// The status of a fault, from 2 on.
pub(crate) fn status(fault: SourceFault) -> u8
    ensures status { result ≡ fault_status fault }
    ensures above { 1 < result }
{
    match fault {
        SourceFault::Memory => 2,
        SourceFault::NotText => 3,
        SourceFault::Open(fault) => open_status(fault),
        SourceFault::Format(fault) => format_status(fault),
    }
}

fn open_status(fault: OpenFault) -> u8
    ensures status { result ≡ fault_status (SourceFault.Open fault) }
    ensures above { 1 < result }
{
    match fault {
        OpenFault::Memory => 2,
        OpenFault::NotText => 4,
        OpenFault::Rules(RuleFault::Memory) => 2,
        OpenFault::Rules(RuleFault::Syntax(..)) => 6,
    }
}

fn format_status(fault: FormatFault) -> u8
    ensures status { result ≡ fault_status (SourceFault.Format fault) }
    ensures above { 1 < result }
{
    match fault {
        FormatFault::Memory => 2,
        FormatFault::NotText => 7,
        FormatFault::NoMessage => 8,
        FormatFault::Arguments(Fault::Cut) => 9,
        FormatFault::Arguments(Fault::NotText) => 10,
        FormatFault::Arguments(Fault::Memory) => 2,
        FormatFault::Answers(Fault::Cut) => 9,
        FormatFault::Answers(Fault::NotText) => 10,
        FormatFault::Answers(Fault::Memory) => 2,
    }
}

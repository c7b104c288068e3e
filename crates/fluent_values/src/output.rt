//! Where the text of a formatting call goes, and why it may stop.
ghost use Rattle.std.specs.Prelude.{◌≡◌, ◌≢◌, ◌++◌, Err, false};
ghost use Rattle.fluent_text.specs.Escapes.{unescaped};
ghost use Rattle.fluent_values.specs.Shown.{Puts};
ghost use Rattle.fluent_values.specs.Sinks.{GoesThrough, SinkTook, halt_of, outside, without_error};

use fluent_text::{Counting, WriteFault, put, unescape_unicode, unescape_unicode_to_string};
use std::alloc::{AllocError, Global};
use std::io;
use std::io::Write;

/// Why a text was not written whole: a [`WriteFault`] without the writer's own error, which the output keeps. Each
/// call of the resolver hands its answer up, and a call pays for the size of what it may hold: with this an answer
/// is one byte, with the error it is some ninety.
#[derive(Clone, Copy, Drop)]
pub enum Halt {
    /// There was no memory.
    Memory,
    /// A single write failed.
    Writer,
    /// A single write of a nonempty piece took no byte.
    Zero,
}

impl From<AllocError> for Halt {
    ghost use Rattle.fluent_values.specs.declared.output.Halt.TheVariants.{Memory};

    ghost from_gives = { λ _ halt. halt ≡ Memory };

    fn from(_: AllocError) -> Halt {
        Halt::Memory
    }
}

/// A writer, and a buffer beside it, which takes the text in its place where that is wanted. A text that is kept, as the
/// value of something else, takes it in the place of both.
pub struct Output<'w, 'buffer, W> {
    pub writer: &'w mut Counting<W>,
    pub buffer: &'buffer mut String,
    pub is_buffered: bool,
    /// The error of the write that failed, where one did.
    pub error: Option<io::Error>,
    /// The text that is kept, where one is.
    pub kept: &'buffer mut String,
    pub is_kept: bool,
}

impl<W> Drop for Output<'_, '_, W> {
    // By hand, so that it says that both keep what they took.
    fn drop(self)
        ensures writer { self.exit.0.now ≡ self.entry.writer.now }
        ensures buffer { self.exit.1.0.now ≡ self.entry.buffer.now }
    {
        let Output {
            writer: _,
            buffer: _,
            is_buffered: _,
            error: _,
            kept: _,
            is_kept: _,
        } = self;
    }
}

/// Writes a text.
pub fn put_text<W: Write>(out: &mut Output<W>, text: &str) -> Result<(), Halt>
    ensures took { Puts W.contents result text.now out.old out.new }
    ensures memory { GoesThrough out.old → result ≢ Err Halt.Memory }
{
    put_here(out, text)
}

/// Writes three texts, one after the other. It stands by itself, as a call costs as much as a short text.
#[inline(never)]
pub fn put_three<W: Write>(
    out: &mut Output<W>,
    first: &str,
    second: &str,
    third: &str,
) -> Result<(), Halt>
    ensures took { Puts W.contents result (first.now ++ (second.now ++ third.now)) out.old out.new }
    ensures memory { GoesThrough out.old → result ≢ Err Halt.Memory }
{
    put_here(out, first)?;
    put_here(out, second)?;
    put_here(out, third)
}

/// Writes a text, without a call: of a literal the length is known then, which is up to half of what it takes.
#[inline(always)]
pub fn put_here<W: Write>(out: &mut Output<W>, text: &str) -> Result<(), Halt>
    ensures took { Puts W.contents result text.now out.old out.new }
    ensures memory { GoesThrough out.old → result ≢ Err Halt.Memory }
{
    if out.is_kept {
        out.kept.push_str(text)?;
        Ok(())
    } else {
        put_outside(out, text)
    }
}

/// Writes a text where it goes if none is kept.
#[inline(always)]
fn put_outside<W: Write>(out: &mut Output<W>, text: &str) -> Result<(), Halt>
    ensures took { SinkTook result text.now (outside W.contents out.old) (outside W.contents out.new) }
    ensures kept { out.new.is_kept ≡ out.old.is_kept }
    ensures memory { out.old.is_buffered ≡ false → result ≢ Err Halt.Memory }
{
    if out.is_buffered {
        out.buffer.push_str(text)?;
        Ok(())
    } else {
        let answer = put(out.writer, text.as_bytes());
        set_aside(answer, &mut out.error)
    }
}

/// Writes the text of a string literal, with its escapes resolved.
pub fn put_unescaped<W: Write>(alloc: Global, out: &mut Output<W>, value: &str) -> Result<(), Halt>
    ensures { Puts W.contents result (unescaped value.now) out.old out.new }
{
    if out.is_kept || out.is_buffered {
        let text = unescape_unicode_to_string(alloc, value)?;
        put_text(out, &text)
    } else {
        let answer = unescape_unicode(out.writer, value);
        set_aside(answer, &mut out.error)
    }
}

/// An answer without the writer's own error, which is kept.
fn set_aside(answer: Result<(), WriteFault>, error: &mut Option<io::Error>) -> Result<(), Halt>
    ensures { result ≡ without_error answer }
{
    match answer {
        Ok(()) => Ok(()),
        Err(fault) => Err(halt_of(fault, error)),
    }
}

/// The halt that a fault is, of which the writer's own error is kept.
#[inline(never)]
#[cold]
fn halt_of(fault: WriteFault, error: &mut Option<io::Error>) -> Halt
    ensures { result ≡ halt_of fault }
{
    match fault {
        WriteFault::Memory => Halt::Memory,
        WriteFault::Zero => Halt::Zero,
        WriteFault::Writer(cause) => {
            *error = Some(cause);
            Halt::Writer
        }
    }
}

/// An answer with the writer's own error, where a write failed.
#[inline(always)]
pub fn with_error(answer: Result<(), Halt>, error: &mut Option<io::Error>) -> Result<(), WriteFault>
    ensures { without_error result ≡ answer }
{
    match answer {
        Ok(()) => Ok(()),
        Err(halt) => Err(fault_of(halt, error.take())),
    }
}

/// The fault that a halt was, with the writer's own error.
#[inline(never)]
#[cold]
fn fault_of(halt: Halt, error: Option<io::Error>) -> WriteFault
    ensures { halt_of result ≡ halt }
{
    match halt {
        Halt::Memory => WriteFault::Memory,
        Halt::Zero => WriteFault::Zero,
        Halt::Writer => {
            WriteFault::Writer(error.unwrap_or(io::Error::from(io::ErrorKind::Other)))
        }
    }
}

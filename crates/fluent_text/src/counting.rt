//! A writer that counts its single writes that failed and those that took nothing.
#![tactic(auto, unfolding(crate::specs::Writer::writer_in, crate::specs::Writer::failed_in, crate::specs::Writer::empty_in))]

ghost use Rattle.std.specs.Prelude.{◌≡◌, is_ok};
ghost use Rattle.std.specs.Io.{WritesAtMost};
ghost use Rattle.fluent_text.specs.Taken.{raised_if, raised_unless, took_nothing};
ghost use Rattle.fluent_text.specs.Written.{WroteAsAnswered};

use std::alloc::AllocError;
use std::io;
use std::io::Write;

/// Passes bytes on to a writer, and counts its single writes that failed and its nonempty ones that took no byte.
///
/// Only its own writes change the counts, and each stands still at `u64::MAX`.
#[derive(Drop)]
pub struct Counting<W> {
    inner: W,
    failed: u64,
    empty: u64,
}

/// Why a text was not written whole. What the writer took until then is a prefix of the text.
#[derive(Debug, Drop)]
pub enum WriteFault {
    /// There was no memory.
    Memory,
    /// A single write failed, of whatever kind. It is not tried again.
    Writer(io::Error),
    /// A single write of a nonempty piece took no byte.
    Zero,
}

impl From<AllocError> for WriteFault {
    ghost use Rattle.fluent_text.specs.declared.counting.WriteFault.TheVariants.{Memory};

    ghost from_gives = { λ _ fault. fault ≡ Memory };

    fn from(_: AllocError) -> WriteFault {
        WriteFault::Memory
    }
}

impl<W: Write> Counting<W> {
    ghost use Rattle.fluent_text.specs.Writer.{writer_in, failed_in, empty_in};

    /// Both counts begin at 0.
    pub fn new(inner: W) -> Counting<W>
        ensures inner { writer_in result ≡ inner }
        ensures failed { failed_in result ≡ 0 }
        ensures empty { empty_in result ≡ 0 }
    {
        Counting {
            inner,
            failed: 0,
            empty: 0,
        }
    }

    /// How many single writes failed.
    pub fn failed(&self) -> u64
        ensures { result ≡ failed_in self.now }
    {
        self.failed
    }

    /// How many single writes of a nonempty piece took no byte.
    pub fn empty(&self) -> u64
        ensures { result ≡ empty_in self.now }
    {
        self.empty
    }

    /// The writer, with all that it took.
    pub fn into_inner(self) -> W
        ensures { result ≡ writer_in self }
    {
        let Counting {
            inner,
            failed: _,
            empty: _,
        } = self;
        inner
    }

    /// One single write: how many bytes of the piece were taken, or why it failed, and one of the counts raised where
    /// that is due.
    #[inline(always)]
    pub fn write(&mut self, piece: &[u8]) -> io::Result<usize>
        ensures bytes { WroteAsAnswered W.contents self.old self.new result piece.now }
        ensures bound { WritesAtMost result piece.now }
        ensures failed { failed_in self.new ≡ raised_unless (is_ok result) (failed_in self.old) }
        ensures empty { empty_in self.new
            ≡ raised_if (took_nothing result piece.now) (empty_in self.old) }
    {
        let outcome = self.inner.write(piece);
        match &outcome {
            Ok(0) => {
                if !piece.is_empty() {
                    self.empty = self.empty.saturating_add(1);
                }
            }
            Ok(_) => {}
            Err(_) => self.failed = self.failed.saturating_add(1),
        }
        outcome
    }
}

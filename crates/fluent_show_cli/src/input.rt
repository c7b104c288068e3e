//! The bytes of an input, by a bounded number of single reads.
#![tactic(auto, unfolding(crate::specs::Runs::reader_in, crate::specs::Runs::room_in, crate::specs::Runs::made_in, crate::specs::Runs::state_in))]

ghost use Rattle.std.specs.Prelude.{◌≡◌, ◌+◌, ◌≤◌, ◌<◌, IfOk, IfErr, OnOk};
ghost use Rattle.std.specs.Io.KnownBytes.{IsAtEnd};
ghost use Rattle.fluent_show_cli.specs.Runs.{ReadsAreBounded, reader_in, made_in, state_in, most_reads};
ghost use Rattle.fluent_show_cli.specs.Inside.OneRead.{ReadsInto, state_after};
ghost use Rattle.fluent_show_cli.specs.Inside.WholeRead.{Gave, StaysOpen, StaysUnread};

use std::alloc::{AllocError, Global};
use std::io;
use std::io::Read;

/// How many single reads a run makes at most.
pub const MOST_READS: u32 = 1_000_000;

/// How many bytes each of them has room for.
const ROOM: usize = 4096;

/// What the reads of an input showed.
#[derive(Clone, Copy)]
pub enum InputState {
    /// Bytes alone, or none was made yet.
    Open,
    /// The last one showed the end.
    AtEnd,
    /// The last one failed.
    Failed,
}

/// A reader with the room for a single read, how many a run made, and what they showed.
#[derive(Drop)]
pub struct Reads<R> {
    inner: R,
    room: [u8; ROOM],
    made: u32,
    state: InputState,
}

/// Why an input was not read to its end.
#[derive(Clone, Copy)]
pub(crate) enum ReadFault {
    /// An allocation failed.
    Memory,
    /// A read failed, also where it was interrupted, or all were made and none showed the end.
    Reading,
}

impl From<AllocError> for ReadFault {
    ghost use Rattle.fluent_show_cli.specs.declared.input.ReadFault.TheVariants.{Memory};

    ghost from_gives = { λ _ fault. fault ≡ Memory };

    fn from(_: AllocError) -> ReadFault {
        ReadFault::Memory
    }
}

impl<R: Read> Reads<R> {
    /// A reader of which nothing was read.
    pub fn new(inner: R) -> Reads<R>
        ensures inner { reader_in result ≡ inner }
        ensures made { made_in result ≡ 0 }
        ensures state { state_in result ≡ InputState.Open }
    {
        Reads {
            inner,
            room: [0; ROOM],
            made: 0,
            state: InputState::Open,
        }
    }

    /// The reader itself, which stands where the reads left it.
    pub fn into_inner(self) -> R
        ensures { result ≡ reader_in self }
    {
        let Reads {
            inner,
            room: _,
            made: _,
            state: _,
        } = self;
        inner
    }

    /// Counts the reads of a run from its beginning.
    pub(crate) fn begin(&mut self)
        ensures inner { reader_in self.new ≡ reader_in self.old }
        ensures bounded { ReadsAreBounded self.new }
        ensures made { made_in self.new ≡ 0 }
        ensures state { state_in self.new ≡ InputState.Open }
    {
        self.made = 0;
        self.state = InputState::Open;
    }

    /// One single read into the room: how many bytes it gave, or why it failed. It is not tried again.
    fn read(&mut self) -> io::Result<usize>
        requires open { state_in self.old ≡ InputState.Open }
        requires left { made_in self.old < most_reads }
        ensures bytes { ReadsInto R.remaining self.old self.new result }
        ensures bound { IfOk result (λ n. n ≤ ROOM) }
        ensures bounded { ReadsAreBounded self.new }
        ensures made { made_in self.new ≡ made_in self.old + 1 }
        ensures state { state_in self.new ≡ state_after result }
    {
        let outcome = self.inner.read(&mut self.room);
        self.made += 1;
        self.state = match &outcome {
            Ok(0) => InputState::AtEnd,
            Ok(_) => InputState::Open,
            Err(_) => InputState::Failed,
        };
        outcome
    }
}

/// The bytes of the input up to its end, in whatever pieces they come.
///
/// # Errors
///
/// `Reading` where a read failed or none of all showed the end, `Memory` where an allocation failed. What was read
/// is lost then.
pub(crate) fn read_all<R: Read>(alloc: Global, input: &mut Reads<R>) -> Result<Vec<u8>, ReadFault>
    ensures bytes { IfOk result (Gave R.remaining input.old input.new) }
    ensures end { OnOk result (IsAtEnd (R.remaining (reader_in input.new))) }
    ensures bounded { ReadsAreBounded input.new }
    ensures shown { OnOk result (state_in input.new ≡ InputState.AtEnd) }
    ensures unread { IfErr result (StaysUnread R.remaining input.old input.new) }
    ensures memory { IfErr result (StaysOpen input.new) }
{
    let mut bytes = Vec::new(alloc);
    input.begin();
    while input.made < MOST_READS {
        match input.read() {
            Ok(0) => return Ok(bytes),
            Ok(n) => bytes.extend_from_slice(&input.room[..n])?,
            Err(_) => return Err(ReadFault::Reading),
        }
    }
    Err(ReadFault::Reading)
}

//! A source as chunks: entries, comment lines, blank lines and Junk.
ghost use Rattle.std.specs.Prelude.{◌≡◌, ◌+◌, ◌^◌, ◌<◌, ◌++◌, [], Some, length, OnOk, IfOk, IsOk};
ghost use Rattle.fluent_syntax.specs.Chunks as spec;
ghost use Rattle.fluent_syntax.specs.Chunks.{entries, entry_starts, junk_ranges};
ghost use Rattle.fluent_syntax.specs.Inside.Leaving.{LeavesEntry, LeavesError};
ghost use Rattle.fluent_syntax.specs.Parsed.{HoldsEntries, HoldsErrors, HasSome, error_range};
ghost use Rattle.fluent_syntax.specs.Inside.PartView.{part_view, chunk_view};
ghost use Rattle.fluent_syntax.specs.Inside.Reading.{all};
ghost use Rattle.fluent_ast.specs.View.{entry_view};

use crate::parser::entry::entry;
use crate::parser::errors::ParseFault;
use crate::parser::junk::{comment_line, junk};
use crate::parser::lines::blank_block;
use crate::parser::list::push;
use crate::parser::stop::Stop;
use fluent_ast::ParserError;
use fluent_ast::ast::{Entry, Resource};
use std::alloc::{AllocError, Global};

/// What a chunk is.
#[derive(Drop)]
enum Part<'s> {
    Entry(Entry<'s>),
    /// A comment line, or blank lines.
    Blank,
    Junk,
}

#[derive(Drop)]
struct Chunk<'s> {
    text: &'s str,
    part: Part<'s>,
}

/// What was read so far.
#[derive(Drop)]
struct Found<'s> {
    body: Vec<Entry<'s>>,
    errors: Vec<ParserError>,
}

impl<'s> Found<'s> {
    /// Adds what a chunk at this offset leaves.
    fn add(&mut self, start: usize, chunk: Chunk<'s>) -> Result<(), AllocError>
        requires { start + length chunk.text.now < 2 ^ 64 }
        ensures entries { OnOk result (LeavesEntry self.old self.new chunk.entry) }
        ensures errors { OnOk result (LeavesError start self.old self.new chunk.entry) }
    {
        let Chunk { text, part } = chunk;
        match part {
            Part::Entry(entry) => push(&mut self.body, entry)?,
            Part::Blank => {}
            Part::Junk => {
                push(&mut self.body, Entry::Junk { content: text })?;
                let end = start + text.len();
                push(&mut self.errors, ParserError { start, end })?;
            }
        }
        Ok(())
    }
}

/// Reads an FTL source (Fluent Syntax 1.0), as a program that shows texts needs it: comments are skipped.
///
/// What can't be read is kept as Junk, and reading goes on after it. Where there is none, the answer is the tree;
/// where there is some, it is `Parser` with the whole tree and the byte offsets of each Junk.
/// `Memory` says that there was no memory, and nothing stands then. An empty source takes none.
pub fn parse_runtime<'s>(alloc: Global, source: &'s str) -> Result<Resource<'s>, ParseFault<'s>>
    ensures entries { HoldsEntries result (entries source.now) }
    ensures errors { HoldsErrors result (junk_ranges source.now) }
    ensures some { HasSome result (junk_ranges source.now) }
    ensures empty { source.now ≡ [] → IsOk result }
{
    let Found { body, errors } = read_chunks(alloc, source)?;
    let resource = Resource { body };
    if errors.is_empty() {
        Ok(resource)
    } else {
        Err(ParseFault::Parser(resource, errors))
    }
}

fn read_chunks<'s>(alloc: Global, source: &'s str) -> Result<Found<'s>, AllocError>
    ensures entries { IfOk result (λ found. all entry_view found.body ≡ entries source.now) }
    ensures errors { IfOk result (λ found. all error_range found.errors ≡ junk_ranges source.now) }
    ensures empty { source.now ≡ [] → IsOk result }
{
    let mut found = Found {
        body: Vec::new(alloc),
        errors: Vec::new(alloc),
    };
    let mut rest = source;
    'chunks: while !rest.is_empty() {
        let (next, after) = next_chunk(alloc, rest)?;
        found.add(source.len() - rest.len(), next)?;
        rest = after;
    }
    Ok(found)
}

/// Where each entry of a source begins: the offset of its first byte, in the order of the entries that [`parse_runtime`]
/// gives, Junk among them. The source is read once more.
///
/// # Errors
///
/// An allocation failed.
pub fn entry_starts(alloc: Global, source: &str) -> Result<Vec<usize>, AllocError>
    ensures { IfOk result (λ starts. starts.items ≡ entry_starts source.now) }
{
    let mut starts = Vec::new(alloc);
    let mut rest = source;
    'chunks: while !rest.is_empty() {
        let (next, after) = next_chunk(alloc, rest)?;
        add_start(source.len() - rest.len(), next, &mut starts)?;
        rest = after;
    }
    Ok(starts)
}

/// Adds the offset of a chunk that leaves an entry.
fn add_start(start: usize, chunk: Chunk<'_>, starts: &mut Vec<usize>) -> Result<(), AllocError>
    ensures { OnOk result (starts.new.items ≡ starts.old.items
        ++ spec.start_of_part start (part_view chunk.entry.part)) }
{
    let Chunk { text: _, part } = chunk;
    match part {
        Part::Entry(_) => push(starts, start),
        Part::Junk => push(starts, start),
        Part::Blank => Ok(()),
    }
}

fn next_chunk<'s>(alloc: Global, s: &'s str) -> Result<(Chunk<'s>, &'s str), AllocError>
    ensures { IfOk result (λ p. spec.chunk s.now ≡ Some (chunk_view p.0, p.1.now)) }
{
    let (part, rest) = next_part(alloc, s)?;
    Ok((
        Chunk {
            text: &s[..s.len() - rest.len()],
            part,
        },
        rest,
    ))
}

#[tactic(auto, unfolding(crate::specs::Chunks::part))]
fn next_part<'s>(alloc: Global, s: &'s str) -> Result<(Part<'s>, &'s str), AllocError>
    ensures { IfOk result (λ p. spec.part s.now ≡ Some (part_view p.0, p.1.now)) }
{
    match entry(alloc, s) {
        Ok((entry, rest)) => return Ok((Part::Entry(entry), rest)),
        Err(Stop::Memory) => return Err(AllocError),
        Err(Stop::Absent) => {}
    }
    if let Some(rest) = comment_line(s) {
        return Ok((Part::Blank, rest));
    }
    if let Some((_, rest)) = blank_block(s) {
        return Ok((Part::Blank, rest));
    }
    Ok((Part::Junk, junk(s)))
}

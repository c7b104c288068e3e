//! Files that are named: their texts, and which can't be read.

ghost use Rattle.std.specs.Prelude.{◌≡◌, ◌≤◌, ◌++◌, IfOk, IsTrue, Ok, OnOk, length, map};
ghost use Rattle.fluent_sources.specs.Reading.{AreRead, read_view};
ghost use Rattle.fluent_cli.specs.Files.{has_mark, line_at, lines_in, no_file, no_text, pairs, readable_pairs, reads_of, start_of, unread_by, unread_in, unread_of, unread_pairs, without_mark};
ghost use Rattle.fluent_cli.specs.Inputs.{HasRead, readable, texts_in};
ghost use Rattle.fluent_cli.specs.Inside.Reading.{AddsPair, AddsUnread, AreReadPairs, IsTextOf, ReadsBy, ReadsFile};
ghost use Rattle.fluent_cli_report.specs.Unread.{unread_view};

use fluent_cli_report::UnreadFile;
use fluent_sources::source::{Source, Sources};
use std::alloc::{AllocError, Global};
use std::str;

/// A file that the words name.
#[derive(Clone, Copy, Drop)]
pub struct File<'f> {
    pub name: &'f str,
    /// What it has, or else why it can't be read.
    pub contents: Result<&'f [u8], &'f str>,
}

/// A byte order mark.
const MARK: &[u8] = b"\xef\xbb\xbf";

/// Whether bytes begin with a byte order mark.
fn has_mark(bytes: &[u8]) -> bool
    ensures is { result ≡ has_mark bytes.now }
    ensures room { IsTrue result → 3 ≤ length bytes.now }
{
    bytes.starts_with(MARK)
}

fn without_mark(bytes: &[u8]) -> &[u8]
    ensures { result.now ≡ without_mark bytes.now }
{
    if has_mark(bytes) { &bytes[3..] } else { bytes }
}

/// Where a text begins.
fn start_of(bytes: &[u8]) -> usize
    ensures is { result ≡ start_of bytes.now }
    ensures most { result ≤ 3 }
{
    if has_mark(bytes) { 3 } else { 0 }
}

/// A text, where bytes are one after a mark; otherwise the index of the first byte that is none.
fn text_of(bytes: &[u8]) -> Result<&str, usize>
    ensures { IsTextOf bytes.now result }
{
    match str::from_utf8(without_mark(bytes)) {
        Ok(text) => Ok(text),
        Err(error) => Err(start_of(bytes) + error.valid_up_to()),
    }
}

/// How many lines end in these bytes.
fn lines_in(bytes: &[u8]) -> usize
    ensures is { result ≡ lines_in bytes.now }
    ensures most { result ≤ length bytes.now }
{
    bytes.iter().filter(|byte| **byte == b'\n').count()
}

/// The number of the line in which a byte stands.
fn line_at(bytes: &[u8], at: usize) -> usize
    ensures { result ≡ line_at bytes.now at }
{
    lines_in(&bytes[..at.min(bytes.len())]) + 1
}

/// A file that is no text from its byte `at` on.
fn no_text<'f>(
    alloc: Global,
    name: &'f str,
    bytes: &[u8],
    at: usize,
) -> Result<UnreadFile<'f>, AllocError>
    ensures { IfOk result (λ file. unread_view file ≡ no_text name.entry.now (line_at bytes.now at) at) }
{
    Ok(UnreadFile {
        file: name,
        line: Some(line_at(bytes, at)),
        reason: format!(in alloc; "not UTF-8 at byte {at}")?,
    })
}

/// A file that can't be read at all.
fn no_file<'f>(alloc: Global, name: &'f str, reason: &str) -> Result<UnreadFile<'f>, AllocError>
    ensures { IfOk result (λ file. unread_view file ≡ no_file name.entry.now reason.now) }
{
    Ok(UnreadFile {
        file: name,
        line: None,
        reason: String::from_str(alloc, reason)?,
    })
}

/// The source of a file that has these bytes. Where they are no text, `None`, and that is noted.
fn read_bytes<'f>(
    alloc: Global,
    name: &'f str,
    bytes: &'f [u8],
    unread: &mut Vec<UnreadFile<'f>>,
) -> Result<Option<Source<'f>>, AllocError>
    ensures read { IfOk result (ReadsBy name.entry.now (Ok bytes.entry)) }
    ensures unread { OnOk result (AddsUnread (unread_by name.entry.now (Ok bytes.entry)) unread.old unread.new) }
{
    match text_of(bytes) {
        Ok(text) => Ok(Some(Source {
            name,
            text,
            had_mark: has_mark(bytes),
        })),
        Err(at) => {
            unread.push(no_text(alloc, name, bytes, at)?)?;
            Ok(None)
        }
    }
}

/// The source of a file. Where it can't be read, `None`, and that is noted.
fn read_file<'f>(
    alloc: Global,
    file: &File<'f>,
    unread: &mut Vec<UnreadFile<'f>>,
) -> Result<Option<Source<'f>>, AllocError>
    ensures read { IfOk result (ReadsFile file.now) }
    ensures unread { OnOk result (AddsUnread (unread_of file.now) unread.old unread.new) }
{
    match file.contents {
        Ok(bytes) => read_bytes(alloc, file.name, bytes, unread),
        Err(reason) => {
            unread.push(no_file(alloc, file.name, reason)?)?;
            Ok(None)
        }
    }
}

/// The sources of files. Of those that can't be read, it is noted why.
fn read_files<'f>(
    alloc: Global,
    files: &[File<'f>],
    unread: &mut Vec<UnreadFile<'f>>,
) -> Result<Sources<'f>, AllocError>
    ensures read { IfOk result (AreRead (reads_of files.now)) }
    ensures unread { OnOk result (AddsUnread (unread_in files.now) unread.old unread.new) }
{
    let mut sources = Sources::new(alloc);
    for file in files {
        if let Some(source) = read_file(alloc, file, unread)? {
            sources.add(alloc, source)?;
        }
    }
    Ok(sources)
}

/// What is read for a request: the files that are loaded with each of the others, the others, and those that they were
/// translated from.
pub(crate) struct Inputs<'f> {
    pub beside: Sources<'f>,
    pub sources: Sources<'f>,
    pub references: Sources<'f>,
}

// Written out, so that it is one step where they go out of scope, and not one for each part.
impl<'f> Drop for Inputs<'f> {
    fn drop(self) {
        let Inputs {
            beside: _,
            sources: _,
            references: _,
        } = self;
    }
}

impl<'f> Inputs<'f> {
    /// The texts of all, in the order in which files are numbered.
    pub(crate) fn texts(&self, alloc: Global) -> Result<Vec<Source<'f>>, AllocError>
        ensures { IfOk result (λ texts. map read_view texts.items ≡ texts_in self.now) }
    {
        let mut texts = Vec::new(alloc);
        texts.extend_from_slice(self.beside.texts.as_slice())?;
        texts.extend_from_slice(self.sources.texts.as_slice())?;
        texts.extend_from_slice(self.references.texts.as_slice())?;
        Ok(texts)
    }

    /// Adds the sources of two files, if both can be read.
    fn add_pair(
        &mut self,
        alloc: Global,
        file: &File<'f>,
        reference: &File<'f>,
        unread: &mut Vec<UnreadFile<'f>>,
    ) -> Result<(), AllocError>
        ensures beside { self.new.beside ≡ self.old.beside }
        ensures pair { OnOk result (AddsPair file.now reference.now self.old self.new) }
        ensures unread { OnOk result (AddsUnread (unread_of file.now ++ unread_of reference.now) unread.old unread.new) }
    {
        let source = read_file(alloc, file, unread)?;
        let reference = read_file(alloc, reference, unread)?;
        if let (Some(source), Some(reference)) = (source, reference) {
            self.sources.add(alloc, source)?;
            self.references.add(alloc, reference)?;
        }
        Ok(())
    }
}

/// The sources of files, each with that of the file at its place in another list, where both can be read, beside others. Of
/// those that can't be, it is noted why.
fn read_pairs<'f>(
    alloc: Global,
    beside: Sources<'f>,
    files: &[File<'f>],
    references: &[File<'f>],
    unread: &mut Vec<UnreadFile<'f>>,
) -> Result<Inputs<'f>, AllocError>
    ensures beside { IfOk result (λ inputs. inputs.beside ≡ beside.entry) }
    ensures read { IfOk result (AreReadPairs (readable_pairs (pairs files.now references.now))) }
    ensures unread { OnOk result (AddsUnread (unread_pairs (pairs files.now references.now)) unread.old unread.new) }
{
    let mut inputs = Inputs {
        beside,
        sources: Sources::new(alloc),
        references: Sources::new(alloc),
    };
    for (file, reference) in files.iter().zip(references) {
        inputs.add_pair(alloc, file, reference, unread)?;
    }
    Ok(inputs)
}

/// What is read of the files of a request, as pairs or not. Of those that can't be read, it is noted why.
pub(crate) fn read_inputs<'f>(
    alloc: Global,
    are_pairs: bool,
    beside: &[File<'f>],
    files: &[File<'f>],
    references: &[File<'f>],
    unread: &mut Vec<UnreadFile<'f>>,
) -> Result<Inputs<'f>, AllocError>
    ensures read { IfOk result (HasRead (readable are_pairs beside.now files.now references.now)) }
    ensures unread { OnOk result
        (AddsUnread (readable are_pairs beside.now files.now references.now).unread unread.old unread.new) }
{
    let beside = read_files(alloc, beside, unread)?;
    if are_pairs {
        return read_pairs(alloc, beside, files, references, unread);
    }
    let sources = read_files(alloc, files, unread)?;
    let references = read_files(alloc, references, unread)?;
    Ok(Inputs {
        beside,
        sources,
        references,
    })
}

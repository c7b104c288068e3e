//! What a source alone answers.
ghost use Rattle.std.specs.Prelude.{◌≡◌, ◌≢◌, [], IfOk, IfErr, OnErr, Err};
ghost use Rattle.std.specs.Str.{IsUtf8};
ghost use Rattle.fluent_syntax.specs.Chunks.{entries};
ghost use Rattle.fluent_resource.specs.ResourceView.{entries_of};
ghost use Rattle.fluent_c_handles.specs.Calls.Formatting.{FormatsSource, GivesOf, RefusesOf};

use crate::adding::add_free;
use crate::answer::status;
use crate::opening::{OpenFault, Opened, open};
use crate::texts::{FormatFault, Lengths, format};
use fluent_bundle::FluentResource;
use std::alloc::{AllocError, Global};
use std::str;

/// Why nothing was answered.
#[derive(Clone, Copy, Debug, Drop, PartialEq, Eq)]
pub enum SourceFault {
    /// The source is not UTF-8.
    NotText,
    /// No bundle was made.
    Open(OpenFault),
    /// The bundle of the source answers nothing.
    Format(FormatFault),
    /// An allocation failed.
    Memory,
}

/// Formats a message of a source, as [`try_format_source`] does, and answers by a status: 0 where both buffers had room, 1
/// where one had not, and else that of the fault, with both lengths 0.
pub fn format_source(
    alloc: Global,
    tag: &[u8],
    isolate: bool,
    source: &[u8],
    id: &[u8],
    name: &[u8],
    args: &[u8],
    out: &mut [u8],
    err: &mut [u8],
    sizes: &mut Lengths,
) -> u8
    ensures { FormatsSource tag.now isolate source.now id.now name.now args.now out err sizes result }
{
    let room = out.len();
    let err_room = err.len();
    match try_format_source(alloc, tag, isolate, source, id, name, args, out, err) {
        Ok(lengths) => {
            *sizes = lengths;
            if lengths.text <= room && lengths.errors <= err_room {
                0
            } else {
                1
            }
        }
        Err(fault) => {
            *sizes = Lengths { text: 0, errors: 0 };
            status(fault)
        }
    }
}

/// What [`format`] answers in a bundle of one source, by the tag of its language. What can't be read in the source, and
/// messages whose id stands in it before, are passed over.
///
/// # Errors
///
/// As [`SourceFault`] says: both buffers are as before. A source that is not UTF-8 is told before any memory is taken.
fn try_format_source(
    alloc: Global,
    tag: &[u8],
    isolate: bool,
    source: &[u8],
    id: &[u8],
    name: &[u8],
    args: &[u8],
    out: &mut [u8],
    err: &mut [u8],
) -> Result<Lengths, SourceFault>
    ensures ok { IfOk result (GivesOf tag.now isolate source.now id.now name.now args.now out.old out.new err.old err.new) }
    ensures err { IfErr result (RefusesOf tag.now isolate source.now id.now name.now args.now) }
    ensures left { OnErr result ((out.new ≡ out.old) × (err.new ≡ err.old)) }
    ensures owed { ¬ (IsUtf8 source.now) → result ≡ Err SourceFault.NotText }
{
    let Ok(text) = str::from_utf8(source) else {
        return Err(SourceFault::NotText);
    };
    let opened = match open(alloc, tag, isolate, false) {
        Ok(
            Opened {
                bundle,
                is_known: _,
            },
        ) => bundle,
        Err(fault) => return Err(SourceFault::Open(fault)),
    };
    let Ok(resource) = resource_of(alloc, text) else {
        return Err(SourceFault::Memory);
    };
    let mut bundle = opened;
    if add_free(&mut bundle, &resource).is_err() {
        return Err(SourceFault::Memory);
    }
    match format(alloc, &bundle, id, name, args, out, err) {
        Ok(lengths) => Ok(lengths),
        Err(fault) => Err(SourceFault::Format(fault)),
    }
}

/// Reads a source.
fn resource_of<'s>(alloc: Global, source: &'s str) -> Result<FluentResource<'s>, AllocError>
    ensures read { IfOk result (λ resource. entries_of resource ≡ entries source.now) }
    ensures some { OnErr result (source.now ≢ []) }
{
    let (resource, _) = FluentResource::read(alloc, source)?;
    Ok(resource)
}

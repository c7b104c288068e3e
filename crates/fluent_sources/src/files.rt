//! Files that were read.

ghost use Rattle.std.specs.Prelude.{◌≡◌, IfOk, OnOk};
ghost use Rattle.fluent_sources.specs.Parts.{AreAll};
ghost use Rattle.fluent_sources.specs.ReadFiles.{AddsFiles, files_in, files_read};

use crate::all::AllFiles;
use crate::sites::{Site, sites_of};
use crate::source::Sources;
use fluent_resource::{FluentResource, ParserError};
use std::alloc::{AllocError, Global};

/// A file that was read: its number, its entries, what can't be read in it, and where its values and attributes stand.
#[derive(Drop)]
pub struct Read<'a, 's> {
    pub number: usize,
    pub resource: &'a FluentResource<'s>,
    pub unreadable: Option<&'a Vec<ParserError>>,
    pub sites: Vec<Site<'s>>,
}

/// Adds the files of some sources. The number of each is how many stand before it.
fn add_sources<'a, 's>(
    alloc: Global,
    sources: &'a Sources<'s>,
    files: &mut Vec<Read<'a, 's>>,
) -> Result<(), AllocError>
    ensures { OnOk result (AddsFiles sources.now files.old files.new) }
{
    for (index, resource) in sources.resources.iter().enumerate() {
        let number = files.len();
        files.push(Read {
            number,
            resource,
            unreadable: sources.unreadable.get(index),
            sites: sites_of(alloc, resource)?,
        })?;
    }
    Ok(())
}

/// The files of some sources.
///
/// # Errors
///
/// An allocation failed.
pub fn files_of<'a, 's>(
    alloc: Global,
    sources: &'a Sources<'s>,
) -> Result<Vec<Read<'a, 's>>, AllocError>
    ensures { IfOk result (λ files. files_in files ≡ files_read 0 sources.now) }
{
    let mut files = Vec::new(alloc);
    add_sources(alloc, sources, &mut files)?;
    Ok(files)
}

/// The files of sources that are loaded beside others, of the others, and of their references, in one list.
///
/// # Errors
///
/// An allocation failed.
pub fn all_files<'a, 's>(
    alloc: Global,
    beside: &'a Sources<'s>,
    sources: &'a Sources<'s>,
    references: &'a Sources<'s>,
) -> Result<AllFiles<'a, 's>, AllocError>
    ensures { IfOk result (AreAll beside.now sources.now references.now) }
{
    let mut list = Vec::new(alloc);
    add_sources(alloc, beside, &mut list)?;
    let first = list.len();
    add_sources(alloc, sources, &mut list)?;
    let behind = list.len();
    add_sources(alloc, references, &mut list)?;
    Ok(AllFiles {
        list,
        first,
        behind,
    })
}

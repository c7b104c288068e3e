//! What is wrong in each file by itself.
ghost use Rattle.std.specs.Prelude.{◌≡◌, IfOk, OnOk, map};
ghost use Rattle.fluent_patterns.specs.Found.{AddsFound, found_in};
ghost use Rattle.fluent_sources.specs.Faults.{faults_of, ids_in, ids_of};
ghost use Rattle.fluent_sources.specs.ReadFiles.{file_view, files_read};

use crate::files::{Read, files_of};
use crate::groups::Group;
use crate::repeated::add_function_ids;
use crate::source::Sources;
use crate::standing::standings_in;
use crate::taken::add_taken;
use crate::unreadable::unreadable;
use fluent_patterns::Finding;
use std::alloc::{AllocError, Global};
use std::slice;

/// Adds which ids come again in a file, and which is that of the function.
fn add_ids<'s>(
    alloc: Global,
    file: &Read<'_, 's>,
    findings: &mut Vec<Finding<'s>>,
) -> Result<(), AllocError>
    ensures { OnOk result (AddsFound (ids_in (file_view file.now)) findings.old findings.new) }
{
    let group = Group::alone(slice::from_ref(file));
    let standings = standings_in(alloc, &group)?;
    add_taken(alloc, standings.as_slice(), findings)?;
    add_function_ids(standings.as_slice(), findings)
}

/// The same of each file for itself.
fn add_all_ids<'s>(
    alloc: Global,
    files: &[Read<'_, 's>],
    findings: &mut Vec<Finding<'s>>,
) -> Result<(), AllocError>
    ensures { OnOk result (AddsFound (ids_of (map file_view files.now)) findings.old findings.new) }
{
    for file in files {
        add_ids(alloc, file, findings)?;
    }
    Ok(())
}

/// What can't be read in these files, and which ids come again in the same file.
///
/// # Errors
///
/// An allocation failed.
pub fn faults<'s>(alloc: Global, sources: &Sources<'s>) -> Result<Vec<Finding<'s>>, AllocError>
    ensures { IfOk result (λ found. found_in found ≡ faults_of (files_read 0 sources.now)) }
{
    let files = files_of(alloc, sources)?;
    let mut findings = unreadable(alloc, files.as_slice())?;
    add_all_ids(alloc, files.as_slice(), &mut findings)?;
    Ok(findings)
}

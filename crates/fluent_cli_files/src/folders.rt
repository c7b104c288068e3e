//! What stands in folders, and in the folders in them.

use crate::contents::reason;
use std::alloc::AllocError;
use std::cmp::Ordering;
use std::path::Path;
use std::{fs, io};

/// How many folders may stand in one another.
const MOST_FOLDERS: usize = 40;

/// What stands at a path below a folder: a file, or what can't be looked into.
#[derive(Drop)]
pub(crate) struct Found<'n> {
    pub folder: &'n str,
    pub path: String,
    pub fault: Option<String>,
}

/// A path in a folder.
pub(crate) fn joined(rt: &HostRuntime, folder: &str, path: &str) -> Result<String, AllocError> {
    let mut name = String::from_str(rt.alloc(), folder)?;
    if !folder.is_empty() && !path.is_empty() && !folder.ends_with('/') {
        name.push('/')?;
    }
    name.push_str(path)?;
    Ok(name)
}

/// Whether a file is one of FTL, by its path. A link to a folder is none.
fn is_ftl(rt: &HostRuntime, path: Path<'_>) -> bool {
    path.as_str().ends_with(".ftl") && !path.is_dir(rt)
}

/// Notes what stands in the folder `path` below `top`: files of FTL, and folders. Links to folders are left out.
fn add_entries<'n>(
    rt: &HostRuntime,
    top: &'n str,
    path: &str,
    found: &mut Vec<Found<'n>>,
    folders: &mut Vec<String>,
) -> io::Result<()> {
    let folder = joined(rt, top, path)?;
    for entry in fs::read_dir(rt, folder.as_str())? {
        let entry = entry?;
        let path = joined(rt, path, entry.file_name())?;
        if entry.file_type()?.is_dir() {
            folders.push(path)?;
        } else if is_ftl(rt, entry.path()) {
            found.push(Found {
                folder: top,
                path,
                fault: None,
            })?;
        }
    }
    Ok(())
}

/// Notes what stands in these folders below `top`, and why one can't be looked into. Gives the folders in them.
fn add_level<'n>(
    rt: &HostRuntime,
    top: &'n str,
    paths: &[String],
    found: &mut Vec<Found<'n>>,
) -> Result<Vec<String>, AllocError> {
    let mut folders = Vec::new(rt.alloc());
    for path in paths {
        if let Err(error) = add_entries(rt, top, path.as_str(), found, &mut folders) {
            found.push(Found {
                folder: top,
                path: String::from_str(rt.alloc(), path.as_str())?,
                fault: Some(reason(rt, &error)?),
            })?;
        }
    }
    Ok(folders)
}

/// The files in a folder and in the folders in it, by their paths below it.
pub(crate) fn found_in<'n>(rt: &HostRuntime, top: &'n str) -> Result<Vec<Found<'n>>, AllocError> {
    let mut found = Vec::new(rt.alloc());
    let mut folders = Vec::new(rt.alloc());
    folders.push(String::new(rt.alloc()))?;
    for _ in 0..MOST_FOLDERS {
        folders = add_level(rt, top, folders.as_slice(), &mut found)?;
    }
    for path in folders {
        found.push(Found {
            folder: top,
            path,
            fault: Some(String::from_str(rt.alloc(), "stands in too many folders")?),
        })?;
    }
    found.sort_unstable_by(order);
    Ok(found)
}

/// By paths; of the same path, what can't be looked into comes first.
fn order(a: &Found<'_>, b: &Found<'_>) -> Ordering {
    match a.path.cmp(&b.path) {
        Ordering::Equal => b.fault.is_some().cmp(&a.fault.is_some()),
        unequal => unequal,
    }
}

/// The paths of files that stand below the one folder or the other. Where one can't be looked into, that alone.
pub(crate) fn found_in_either<'n>(
    rt: &HostRuntime,
    one: &'n str,
    other: &'n str,
) -> Result<Vec<Found<'n>>, AllocError> {
    let mut all = found_in(rt, one)?;
    for found in found_in(rt, other)? {
        all.push(found)?;
    }
    if all.iter().any(|found| found.path.is_empty()) {
        all.retain(|found| found.path.is_empty());
    } else {
        all.sort_unstable_by(order);
        all.dedup_by(|next, kept| next.path == kept.path);
    }
    Ok(all)
}

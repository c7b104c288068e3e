//! Files that are to be read.

use crate::folders::{Found, found_in, joined};
use std::alloc::AllocError;
use std::collections::BTreeSet;
use std::fs;
use std::io::ErrorKind;
use std::path::Path;

/// A file that is to be read.
#[derive(Drop)]
pub(crate) struct Listed {
    pub name: String,
    /// What is the same for two names of one file.
    pub key: String,
    /// Whether the words name it, and not a folder that it stands in.
    pub is_named: bool,
    pub way: Way,
}

/// How the contents of a file are had.
#[derive(Drop)]
pub(crate) enum Way {
    /// It is read.
    Read,
    /// It is read, and is empty where it isn't there.
    ReadIfThere,
    /// It is taken to be empty.
    Empty,
    /// It is known why it can't be read.
    Fault(String),
}

/// What is the same for two names of one file: its path without links, or where there is none, the name.
fn key_of(rt: &HostRuntime, name: &str) -> Result<String, AllocError> {
    match fs::canonicalize(rt, name) {
        Ok(path) => String::from_str(rt.alloc(), path.as_str()),
        Err(error) if error.kind() == ErrorKind::OutOfMemory => Err(AllocError),
        Err(_) => String::from_str(rt.alloc(), name),
    }
}

/// A file that the words name; `-` is standard input.
fn named(rt: &HostRuntime, name: &str) -> Result<Listed, AllocError> {
    Ok(Listed {
        name: String::from_str(rt.alloc(), name)?,
        key: key_of(rt, name)?,
        is_named: true,
        way: Way::Read,
    })
}

/// A folder without files.
pub(crate) fn without_files(rt: &HostRuntime, folder: &str) -> Result<Listed, AllocError> {
    let mut listed = named(rt, folder)?;
    listed.way = Way::Fault(String::from_str(rt.alloc(), "no .ftl file in it")?);
    Ok(listed)
}

/// A file of a path below a folder.
pub(crate) fn below(
    rt: &HostRuntime,
    folder: &str,
    path: &str,
    way: Way,
) -> Result<Listed, AllocError> {
    let name = joined(rt, folder, path)?;
    let key = key_of(rt, name.as_str())?;
    Ok(Listed {
        name,
        key,
        is_named: false,
        way,
    })
}

/// How what was found is read.
fn way_of(fault: Option<String>) -> Way {
    match fault {
        Some(fault) => Way::Fault(fault),
        None => Way::Read,
    }
}

/// Adds the files in a folder.
fn add_folder(rt: &HostRuntime, folder: &str, files: &mut Vec<Listed>) -> Result<(), AllocError> {
    let all = found_in(rt, folder)?;
    if all.is_empty() {
        files.push(without_files(rt, folder)?)?;
    }
    for found in all {
        let Found {
            folder,
            path,
            fault,
        } = found;
        files.push(below(rt, folder, path.as_str(), way_of(fault))?)?;
    }
    Ok(())
}

/// The files that names stand for, each once: a folder for those in it.
pub(crate) fn files_named(rt: &HostRuntime, names: &[&str]) -> Result<Vec<Listed>, AllocError> {
    let mut files = Vec::new(rt.alloc());
    for name in names {
        if Path::new(*name).is_dir(rt) {
            add_folder(rt, *name, &mut files)?;
        } else {
            files.push(named(rt, *name)?)?;
        }
    }
    once(rt, files)
}

/// Files without those that stand there before.
fn once(rt: &HostRuntime, files: Vec<Listed>) -> Result<Vec<Listed>, AllocError> {
    let mut keys = BTreeSet::new(rt.alloc());
    let mut kept = Vec::new(rt.alloc());
    for file in files {
        if keys.insert(file.key.clone()?)? {
            kept.push(file)?;
        }
    }
    Ok(kept)
}

/// The keys of files, or of those alone that the words name.
pub(crate) fn keys_of(
    rt: &HostRuntime,
    files: &[Listed],
    are_named: bool,
) -> Result<BTreeSet<String>, AllocError> {
    let mut keys = BTreeSet::new(rt.alloc());
    for file in files {
        if file.is_named || !are_named {
            let _ = keys.insert(file.key.clone()?)?;
        }
    }
    Ok(keys)
}

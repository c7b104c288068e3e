//! The files of a request.

use crate::contents::{Content, read_files};
use crate::folders::{Found, found_in_either};
use crate::listed::{Listed, Way, below, files_named, keys_of, without_files};
use std::alloc::AllocError;
use std::collections::BTreeSet;

/// The files of a request.
#[derive(Drop)]
pub struct Files {
    beside: Vec<Listed>,
    files: Vec<Listed>,
    references: Vec<Listed>,
}

/// What they have.
#[derive(Drop)]
pub struct Contents {
    pub beside: Vec<Content>,
    pub files: Vec<Content>,
    pub references: Vec<Content>,
}

impl Files {
    /// The files that these names stand for. A file that the one side names is none of a folder of the other; else one on
    /// both sides is not among those beside.
    ///
    /// # Errors
    ///
    /// An allocation failed.
    pub fn together(
        rt: &HostRuntime,
        beside: &[&str],
        files: &[&str],
        references: &[&str],
    ) -> Result<Files, AllocError> {
        let beside = files_named(rt, beside)?;
        let keys = keys_of(rt, beside.as_slice(), true)?;
        let mut files = files_named(rt, files)?;
        files.retain(|file| file.is_named || !keys.contains(file.key.as_str()));
        Ok(Files {
            beside,
            files,
            references: files_named(rt, references)?,
        })
    }

    /// The files below two folders, each with that of its path below the other. What stands below one alone has an empty
    /// file at its side. A pair is left out where its translation is named beside the others.
    ///
    /// # Errors
    ///
    /// An allocation failed.
    pub fn pairs(
        rt: &HostRuntime,
        beside: &[&str],
        translation: &str,
        reference: &str,
    ) -> Result<Files, AllocError> {
        let mut all = Files {
            beside: files_named(rt, beside)?,
            files: Vec::new(rt.alloc()),
            references: Vec::new(rt.alloc()),
        };
        let keys = keys_of(rt, all.beside.as_slice(), true)?;
        let found = found_in_either(rt, translation, reference)?;
        if found.is_empty() {
            all.files.push(without_files(rt, translation)?)?;
            all.references.push(without_files(rt, reference)?)?;
        }
        for one in found {
            all.add_pair(rt, translation, reference, one, &keys)?;
        }
        Ok(all)
    }

    /// Adds the files of a path below both folders, but for a translation with one of these keys.
    fn add_pair(
        &mut self,
        rt: &HostRuntime,
        translation: &str,
        reference: &str,
        found: Found<'_>,
        keys: &BTreeSet<String>,
    ) -> Result<(), AllocError> {
        let Found {
            folder,
            path,
            fault,
        } = found;
        let path = path.as_str();
        let (file, other) = match fault {
            Some(fault) => (below(rt, folder, path, Way::Fault(fault))?, Way::Empty),
            None => (
                below(rt, translation, path, Way::ReadIfThere)?,
                Way::ReadIfThere,
            ),
        };
        if !keys.contains(file.key.as_str()) {
            self.files.push(file)?;
            self.references.push(below(rt, reference, path, other)?)?;
        }
        Ok(())
    }

    /// Reads them.
    ///
    /// # Errors
    ///
    /// An allocation failed.
    pub fn read(self, rt: &HostRuntime) -> Result<Contents, AllocError> {
        let Files {
            mut beside,
            files,
            references,
        } = self;
        let keys = keys_of(rt, files.as_slice(), false)?;
        beside.retain(|file| !keys.contains(file.key.as_str()));
        Ok(Contents {
            beside: read_files(rt, beside)?,
            files: read_files(rt, files)?,
            references: read_files(rt, references)?,
        })
    }
}

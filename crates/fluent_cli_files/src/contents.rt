//! What files have.

use crate::listed::{Listed, Way};
use std::alloc::AllocError;
use std::io::{ErrorKind, Read};
use std::{fs, io};

/// A file that was read, or else why it can't be.
#[derive(Drop)]
pub struct Content {
    pub name: String,
    pub contents: Result<Vec<u8>, String>,
}

/// Why something can't be read.
///
/// # Errors
///
/// It is that an allocation failed, or one failed here.
pub(crate) fn reason(rt: &HostRuntime, error: &io::Error) -> Result<String, AllocError> {
    if error.kind() == ErrorKind::OutOfMemory {
        return Err(AllocError);
    }
    format!(in rt.alloc(); "{error}")
}

/// What a file has; `-` is standard input.
fn bytes_of(rt: &HostRuntime, name: &str) -> io::Result<Vec<u8>> {
    if name != "-" {
        return fs::read(rt, name);
    }
    let mut bytes = Vec::new(rt.alloc());
    rt.stdin().read_to_end(&mut bytes)?;
    Ok(bytes)
}

/// What a file has, or why it can't be read.
fn contents_of(
    rt: &HostRuntime,
    name: &str,
    is_optional: bool,
) -> Result<Result<Vec<u8>, String>, AllocError> {
    Ok(match bytes_of(rt, name) {
        Ok(bytes) => Ok(bytes),
        Err(error) if is_optional && error.kind() == ErrorKind::NotFound => {
            Ok(Vec::new(rt.alloc()))
        }
        Err(error) => Err(reason(rt, &error)?),
    })
}

/// Reads a file.
fn read_file(rt: &HostRuntime, file: Listed) -> Result<Content, AllocError> {
    let Listed {
        name,
        key: _,
        is_named: _,
        way,
    } = file;
    let contents = match way {
        Way::Read => contents_of(rt, name.as_str(), false)?,
        Way::ReadIfThere => contents_of(rt, name.as_str(), true)?,
        Way::Empty => Ok(Vec::new(rt.alloc())),
        Way::Fault(fault) => Err(fault),
    };
    Ok(Content { name, contents })
}

/// Reads files.
pub(crate) fn read_files(rt: &HostRuntime, files: Vec<Listed>) -> Result<Vec<Content>, AllocError> {
    let mut contents = Vec::new(rt.alloc());
    for file in files {
        contents.push(read_file(rt, file)?)?;
    }
    Ok(contents)
}

//! The files that the words of `./fluent` name: what stands in folders, which files belong to one another, and what each has.
//! What a file system answers no clause says.
#![tactic(auto)]

mod contents;
mod files;
mod folders;
mod listed;

pub use contents::Content;
pub use files::{Contents, Files};

//! The tree of FTL with its equality, and what the reader reports of a part that it can't read.
#![tactic(auto)]

pub mod ast;
mod equality;
mod errors;
mod same;
mod same_entries;

pub use errors::ParserError;

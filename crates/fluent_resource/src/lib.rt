//! A source of FTL with what was read from it.
#![tactic(auto)]

mod resource;

pub use fluent_syntax::{ParserError, ast};
pub use resource::{Entries, FluentResource, TryNewFault};

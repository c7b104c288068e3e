//! The reader of FTL, over the tree of `fluent_ast`, and beside it what a pattern refers to and the escapes of string
//! literals.
#![tactic(auto)]

mod listing;
mod parser;

pub use fluent_ast::{ParserError, ast};
pub use fluent_text::{Counting, WriteFault, put, unescape_unicode, unescape_unicode_to_string};
pub use listing::{Reference, references};
pub use parser::{ParseFault, entry_starts, parse_runtime};

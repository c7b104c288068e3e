//! Texts: the escapes of string literals, the writers that texts go to, and the grammar's lowest part.
#![tactic(auto)]

mod bytes;
mod counting;
mod unicode;
mod writing;

pub use counting::{Counting, WriteFault};
pub use unicode::{unescape_unicode, unescape_unicode_to_string};
pub use writing::put;

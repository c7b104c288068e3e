//! What the ids of a bundle name, messages, terms and functions in one map, and what is reported to the caller.
#![tactic(auto)]

mod entry;
pub mod errors;
mod ids;
pub mod laws;
mod message;
mod slot;
mod texts;

pub use entry::{Entry, FunctionRef, GetEntry};
pub use errors::{EntryKind, FluentError, ReferenceKind, ResolverError};
pub use ids::Ids;
pub use message::{Attributes, FluentAttribute, FluentMessage};
pub use slot::{Kept, Slot};
pub use texts::is_text;

//! Resolving a pattern to its text and errors.
pub(crate) mod answers;

pub use answers::category_word;
pub use fluent_resolver::{Context, HasBundle, Means, ResolverError, Scope, errors};

//! The scope of a call, and the resolver: how patterns are written, and which values their parts have.
#![tactic(auto)]

mod arguments;
mod expression;
mod frame;
mod inline_expression;
mod leaf;
mod machine;
pub mod means;
mod passing;
mod pattern;
pub mod scope;
mod tracking;
mod whole;
mod work;

pub use fluent_bundle_entries::errors::resolver as errors;
pub use fluent_bundle_entries::{ReferenceKind, ResolverError};
pub use fluent_references::Cursor;
pub use fluent_resolver_state::laws::{calls_are_walks, events_are_the_run};
pub use fluent_resolver_state::{
    Budget, Counts, Found, State, Target, environment, found, output, texts,
};
pub use fluent_values::{Context, HasBundle};
pub use means::Means;
pub use scope::Scope;
pub use whole::write_whole;

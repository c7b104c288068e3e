//! What is wrong with the messages and terms of a bundle, told before they are formatted.
#![tactic(auto)]

mod linting;
mod sources;

pub use fluent_clean::{Finding, Kind, lint_places};
pub use fluent_places::{
    Asked, LineColumn, Need, Place, needs, pattern_at, places_of, position, refers_to,
    variables_at, variables_of,
};
pub use linting::{lint, variables};
pub use sources::{Definition, Twice, defined_twice, unreadable};

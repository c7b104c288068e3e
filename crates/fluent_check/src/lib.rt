//! What is wrong in the FTL files of a language, and where.
#![tactic(auto)]

mod alone;
pub mod bundle;
mod called;
pub mod checking;
pub mod examples;
mod flaws;
pub mod laws;
mod linted;
mod listing;
mod patterns;
mod places;
mod referred;
mod tried;
mod whole;

pub use checking::{Found, Settings, findings};
pub use fluent_sources::{Finding, Grouping, Problem, Source, Sources, Spot};
pub use listing::{Listing, list_places};

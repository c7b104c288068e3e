//! What is wrong with values and attributes of messages and terms, by what their ids name.
#![tactic(auto)]

mod checking;
mod counting;
mod cycles;
pub mod examples;
mod finding;
pub mod laws;
mod order;
mod passes;

pub use finding::{Finding, Kind};
pub use passes::lint_places;

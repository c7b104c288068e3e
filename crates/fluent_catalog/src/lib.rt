//! The texts of a program in several languages, each with its plural rules.
#![tactic(auto)]

pub mod catalog;
mod reports;

pub use catalog::Catalog;
pub use reports::{Report, add_source, read_source};

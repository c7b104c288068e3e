//! What is wrong in sources, for other languages.
#![tactic(auto)]

mod check;
mod found;
mod handed;
mod report;

pub use check::{Checked, check_sources};

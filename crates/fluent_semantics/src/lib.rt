//! What Fluent means: values, bundles, the two meanings of a pattern, and their laws.
#![tactic(auto)]

pub mod examples;
pub mod laws;

//! A fallback over bundles: the first that has a message answers for all.
#![tactic(auto)]

pub mod chain;
pub mod examples;

pub use chain::{BundleRef, Chain};

//! The words of `./fluent_show`: what they ask for, and who chooses plural categories then.
#![tactic(auto)]

pub mod options;
pub mod plurals;
pub mod request;

//! The program as a library: what it shows and says of any reader and writers. `main` hands it the real ones.
#![tactic(auto)]

pub mod input;
pub mod report;
pub mod run;
mod show;
mod task;

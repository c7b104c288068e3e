//! The path of a formatting call: the patterns that are being written, each referred to by the one before it.
#![tactic(auto)]

mod alike;
pub mod path;

pub use path::Path;

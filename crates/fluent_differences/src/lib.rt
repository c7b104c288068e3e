//! How a value or an attribute of a translation differs from that of the reference.
#![tactic(auto)]

mod among;
mod compared;
mod rules;

pub use among::stands;
pub use compared::{Wording, differences};

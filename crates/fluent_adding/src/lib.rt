//! Adding to what the ids of a bundle name: the entries of a resource, and functions.
#![tactic(auto)]

mod adding;
mod functions;
mod kept;
mod left;
mod parts;
mod ready;

pub use adding::{add_entries, override_entries};
pub use functions::{add_function, add_number, override_function};

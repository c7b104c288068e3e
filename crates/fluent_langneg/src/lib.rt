//! Which of the languages that a program has serve somebody, by the look-up of RFC 4647.
#![tactic(auto)]

mod examples;
mod order;
mod ranges;
mod tags;

pub use examples::look_up_cuts_from_the_end;
pub use order::negotiate;
pub use ranges::lookup;

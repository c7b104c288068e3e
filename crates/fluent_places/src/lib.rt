//! Where patterns of messages and terms stand, what they need, and what they ask the arguments for.
#![tactic(auto)]

mod asked;
mod asking;
mod entries;
mod groups;
mod lines;
mod listing;
pub mod place;
mod settling;

pub use asked::Asked;
pub use asking::variables_of;
pub use entries::places_of;
pub use lines::{LineColumn, position};
pub use listing::{Need, needs, refers_to};
pub use place::{Place, pattern_at};
pub use settling::variables_at;

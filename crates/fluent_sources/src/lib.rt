//! The FTL files of a language as they are read: where messages and terms stand in them, what is wrong in each by itself, and
//! findings in words.
#![tactic(auto)]

mod all;
pub mod causes;
mod faulty;
pub mod files;
pub mod groups;
mod ids;
pub mod laws;
pub mod lines;
pub mod positions;
mod repeated;
pub mod sites;
pub mod source;
pub mod standing;
mod taken;
pub mod unreadable;
pub mod wording;

pub use all::AllFiles;
pub use causes::{Folded, fold};
pub use faulty::faults;
pub use fluent_patterns::{Finding, Problem, Spot};
pub use groups::Grouping;
pub use ids::found_ids;
pub use source::{Source, Sources};

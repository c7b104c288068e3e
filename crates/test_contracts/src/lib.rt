//! What can be proved of the crates by their contracts alone, in another crate: objects of an application's own, bundles that
//! are composed, equality, laws, and worked rows of definitions. Tests in `tests/` run what can be run.
#![tactic(auto)]

pub mod alone;
pub mod composing;
pub mod equality;
pub mod failing;
pub mod fixtures;
pub mod functions;
pub mod laws;
pub mod own;
pub mod rows;
pub mod shade;
pub mod whole;

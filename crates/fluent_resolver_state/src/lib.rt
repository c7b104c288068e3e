//! What a formatting call carries while it resolves patterns, and what is written and looked up without resolving
//! further.
#![tactic(auto)]

pub mod budget;
pub mod environment;
pub mod fallback;
pub mod found;
pub mod gathered;
pub mod laws;
pub mod leaves;
pub mod locals;
pub mod lost;
pub mod output;
pub mod placeable;
pub mod shown;
pub mod state;
pub mod texts;
pub mod variable;
pub mod variants;

pub use budget::{Budget, Counts};
pub use environment::Environment;
pub use found::{Found, Target};
pub use locals::Locals;
pub use state::State;

//! Why a part of an FTL source can't be read, and where reading stopped.
#![tactic(auto)]

mod arguments;
mod bytes;
mod entry;
mod expected;
mod expression;
mod inner;
mod kind;
mod literal;
mod pattern;
mod reference;
mod select;
mod spaces;
mod stop;

pub use entry::reason_of;
pub use expected::{Expected, Reason};

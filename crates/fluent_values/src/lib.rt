//! Values and arguments of Fluent, how values are shown, and what an application hands to a bundle: functions, formatters, transforms.
#![tactic(auto)]

mod args;
pub mod builtins;
pub mod context;
mod formatter;
mod function;
pub mod laws;
pub mod memoizer;
pub mod output;
pub mod shown;
mod transform;
pub mod types;

pub use args::{ArgsIntoIter, ArgsIter, FluentArgs};
pub use context::{Context, HasBundle};
pub use formatter::{FluentFormatter, NoFormatter};
pub use function::{AnswerRule, Answering, FluentFunction, FunctionOf, NoFunction};
pub use transform::{NoTransform, Transform};
pub use types::{FluentNumber, FluentNumberOptions, FluentType, FluentValue, MergeArgs, NoCustom};

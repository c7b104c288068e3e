//! What a caller has answered that can't be called, and the functions, the formatter and the transform of a bundle that answer
//! by it.
#![tactic(auto)]

mod answer;
mod answers;
mod args;
mod argument;
mod fault;
mod formatter;
mod function;
mod kind;
pub mod laws;
mod meant;
mod numbers;
mod own;
mod question;
mod questions;
mod reading;
mod transform;
mod value;

pub use answers::Answers;
pub use args::read_args;
pub use argument::{Argument, arguments};
pub use fault::Fault;
pub use formatter::AskedFormatter;
pub use function::AskedFunction;
pub use kind::Kind;
pub use meant::Meant;
pub use own::OwnValue;
pub use question::{Asker, Question};
pub use transform::AskedTransform;
pub use value::values;

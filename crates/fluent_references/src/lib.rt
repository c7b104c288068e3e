//! What a bundle keeps of its patterns to resolve them fast: a number and a slot for each id, the numbers of what a
//! pattern refers to, and a number for each content of a pattern.
#![tactic(auto)]

mod classes;
mod cursor;
mod hashing;
mod linked;
mod linking;
mod passing;
mod slots;
mod stored;

pub use classes::Classes;
pub use cursor::Cursor;
pub use linked::Linked;
pub use slots::Slots;

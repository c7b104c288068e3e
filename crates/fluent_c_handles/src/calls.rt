//! The calls on a slot: each is a method of `Slot`, with what it does of the bundle that is kept there.

mod add;
mod declare;
mod find;
mod format;
mod need;
mod open;

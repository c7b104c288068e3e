//! The runtime reader of FTL.
mod argument;
mod bare;
pub(crate) mod bytes;
mod chunks;
mod entry;
mod errors;
mod expression;
mod first_line;
mod inner;
mod junk;
mod lanes;
mod layout;
mod lines;
mod list;
mod literal;
mod pattern;
mod piece;
mod pieces;
mod reference;
mod select;
mod stop;
mod text;

pub use chunks::{entry_starts, parse_runtime};
pub use errors::ParseFault;

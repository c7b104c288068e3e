//! Bundles for other languages: asked by runs of bytes, kept behind a handle, and asked in turn; what stands after each
//! call from C.
#![tactic(auto)]

mod adding;
mod answer;
mod answering;
mod asking;
mod attributes;
mod buffers;
mod calls;
mod closing;
mod counted;
mod declared;
mod first;
mod handle;
mod left;
mod lines;
mod lookup;
mod message_ids;
mod opening;
mod place;
mod records;
mod shelves;
mod slot;
mod sources;
mod stock;
mod telling;
mod texts;
mod turns;
mod variables;
mod written;

pub use buffers::put_text;
pub use first::{find_first, format_first};
pub use handle::Handle;
pub use slot::Slot;
pub use sources::format_source;
pub use texts::{Form, Lengths};

//! Why records are not read.

/// Why bytes are no records.
#[derive(Clone, Copy, Debug, Drop, PartialEq, Eq)]
pub enum Fault {
    /// They are cut short, or begin a record with a byte that stands for no kind of value.
    Cut,
    /// A name that has to be a text, or a value, is not UTF-8.
    NotText,
    /// An allocation failed.
    Memory,
}

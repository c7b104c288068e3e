//! All files in one list.

ghost use Rattle.std.specs.Prelude.{◌≤◌, vec_len};

use crate::files::Read;

/// All files, in their order: those that are loaded beside the others, the others, and their references.
#[derive(Drop)]
pub struct AllFiles<'a, 's> {
    pub list: Vec<Read<'a, 's>>,
    /// How many stand beside.
    pub first: usize,
    /// How many stand before the references.
    pub behind: usize,
    ghost in_order: { first ≤ behind },
    ghost within: { behind ≤ vec_len list },
}

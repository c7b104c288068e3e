//! The reader of what may stand one level deeper.
use std::alloc::Global;

/// What the rules that nest are given, so that each stands by itself.
#[derive(Drop)]
pub struct Inner<F> {
    pub alloc: Global,
    /// How deep placeables and argument lists may still nest.
    pub depth: usize,
    /// Reads what stands in braces or in an argument list.
    pub enclosed: F,
}

//! The readers of what may stand one level deeper.
use std::alloc::Global;

/// What the rules that nest are given, so that each stands by itself.
#[derive(Drop)]
pub struct Inner<F, G> {
    pub alloc: Global,
    /// How deep placeables and argument lists may still nest.
    pub depth: usize,
    /// Reads a placeable.
    pub braces: F,
    /// Reads the arguments of a call.
    pub brackets: G,
}

//! Worked rows of calls, each with whether it takes memory.
ghost use Rattle.fluent_bundle.specs.CallRows.{Memory};

/// The setters take none, and what adds may fail for want of it: whatever functions, formatters and transforms are.
pub fn setters_take_no_memory<F, G, T>()
    ensures { Memory F G T }
{}

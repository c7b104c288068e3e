//! Laws of the meaning for the texts that calls write, called where a proof needs them. They do nothing when they run.

ghost use Rattle.fluent_ast.specs.Tree.{Text};
ghost use Rattle.fluent_semantics.specs.Ahead.{ComesByItself, EventsAreTheRun};
ghost use Rattle.fluent_semantics.specs.Laws.{CallsByThemselves, CountsByItself, NeverAdds, RunsByItself};

use fluent_semantics::laws as meaning;
use fluent_semantics::laws::{budgets_pass_through, calls_pass_through};
use std::collections::LinkedList;

/// What a pattern that a reference leads to gives is the walk over it, and so is what it counts.
#[inline(always)]
pub fn references_are_walked()
    ensures runs { RunsByItself Text }
    ensures counts { CountsByItself Text }
    ensures never_adds { NeverAdds Text }
{
    budgets_pass_through::<LinkedList<u8>>();
}

/// What a scope's call gives is what the meaning gives of its part, beside the counts of the walk over it.
#[inline(always)]
pub fn calls_are_walks()
    ensures { CallsByThemselves Text }
{
    calls_pass_through::<LinkedList<u8>>();
}

/// What is ahead of a pattern that a reference leads to is the walk over it, and its events are those of the run.
#[inline(always)]
pub fn events_are_the_run()
    ensures by_itself { ComesByItself Text }
    ensures events { EventsAreTheRun Text }
{
    meaning::events_are_the_run::<LinkedList<u8>>();
}

//! What a bundle's limit does, and what the events of a formatting call come to, from the laws of the meanings.
ghost use Rattle.fluent_ast.specs.Tree.{Pattern, Text};
ghost use Rattle.fluent_semantics.specs.Arguments.{Map};
ghost use Rattle.fluent_semantics.specs.Bundle.{Bundle};
ghost use Rattle.fluent_semantics.specs.Value.{Value};
ghost use Rattle.fluent_bundle.specs.Formatted.{EventsAreRun, KeepsLimit};

use fluent_resolver::calls_are_walks;
use fluent_semantics::laws;
use std::collections::LinkedList;

/// What a pattern gives keeps the limit of its bundle, whatever the bundle, the arguments and the pattern.
pub fn limits_are_kept()
    ensures { (b : Bundle Text) (args : Map (Value Text)) (p : Pattern) → KeepsLimit b args p }
{
    laws::meanings_agree::<LinkedList<u8>>();
    laws::work_is_bounded::<LinkedList<u8>>();
}

/// The events of a formatting call come to what its pattern gives, whatever the bundle, the arguments and the pattern.
pub fn events_are_the_run()
    ensures { (b : Bundle Text) (args : Map (Value Text)) (p : Pattern) → EventsAreRun b args p }
{
    calls_are_walks();
    fluent_resolver::events_are_the_run();
}

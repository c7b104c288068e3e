//! Patterns that are written in a scope, and what a run of them does.
#![tactic(auto, unfolding(fluent_resolver_state::specs::Status::state_parts))]

ghost use Rattle.std.specs.Prelude.{◌≡◌, ◌≢◌, Err, IsTrue, false, true};
ghost use Rattle.fluent_ast.specs.References.{references};
ghost use Rattle.fluent_ast.specs.View.{pattern_view};
ghost use Rattle.fluent_bundle_entries.specs.IdNumbers.{IsPlaced};
ghost use Rattle.fluent_bundle_entries.specs.Texts.{IsTextAlone};
ghost use Rattle.fluent_values.specs.Sinks.{GoesThrough};
ghost use Rattle.fluent_path.specs.Contents.{is_idle};
ghost use Rattle.fluent_resolver_state.specs.Status.{state};
ghost use Rattle.fluent_resolver.specs.Frames.{Tries};
ghost use Rattle.fluent_resolver.specs.Scoped.{pattern_events};

use crate::machine::run;
use crate::pattern::write_elements;
use crate::work::{LEVELS, Work};
use fluent_ast::ast::Pattern;
use fluent_references::Cursor;
use fluent_resolver_state::State;
use fluent_values::output::{Halt, Output};
use fluent_values::{Context, FluentFunction, FluentType};
use std::io::Write;

/// Writes a pattern that was handed in, where none is being written: it stands on the path for its own placeables. Path,
/// environment and what the output keeps are left as they then are.
///
/// # Errors
///
/// `Writer` where a write failed, `Zero` where a write of a nonempty piece took no byte, `Memory` where an allocation failed.
/// Then a prefix of what the pattern does happened: text, errors, counts and budget are those of that prefix.
#[inline(always)]
pub fn write_whole<'p, 's, W: Write, C: FluentType, F: FluentFunction<C>, B: Context<C>>(
    scope: &mut State<'_, 'p, '_, 's, '_, C, F, B>,
    out: &mut Output<W>,
    pattern: &'p Pattern<'s>,
    cursor: Cursor<'p>,
) -> Result<(), Halt>
    requires idle { is_idle scope.old.path ≡ true }
    requires kept { out.old.is_kept ≡ false }
    requires placed { IsPlaced scope.old.ids.now (references (pattern_view pattern.now)) cursor }
    ensures did { Tries (pattern_events (pattern_view pattern.now)) result W.contents out
        (state B.meant B.is_plain F.answer C.content) scope }
    ensures memory { IsTextAlone (pattern_view pattern.now) → IsTrue (B.is_plain scope.old.bundle.now) →
        GoesThrough out.old → result ≢ Err Halt.Memory }
{
    let mut work = Work::new(scope.bundle.allocator());
    let _ = scope.begin(pattern);
    match write_elements(scope, out, &mut work, LEVELS, pattern, cursor) {
        Ok(()) => (),
        Err(fault) => {
            work.end();
            return Err(fault);
        }
    }
    if work.is_done() {
        work.end();
        return Ok(());
    }
    let ran = run(scope, out, &mut work);
    work.end();
    ran
}

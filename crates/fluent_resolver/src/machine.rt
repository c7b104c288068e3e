//! The machine: what was put off waits in frames on the heap, so that the stack of a call is bounded.
#![tactic(auto, unfolding(fluent_resolver_state::specs::Status::state_parts))]

ghost use Rattle.std.specs.Prelude.{◌≡◌, ◌++◌, [], OnOk, IfErr, reverse};
ghost use Rattle.fluent_bundle_entries.specs.IdNumbers.{numbers, table};
ghost use Rattle.fluent_resolver.specs.Frames as frames;
ghost use Rattle.fluent_resolver.specs.Inside.Waits.{frames_in, values_in};
ghost use Rattle.fluent_semantics.specs.Value.{text_value};
ghost use Rattle.fluent_values.specs.Sinks.{outside};
ghost use Rattle.fluent_values.specs.View.{value_view};
ghost use Rattle.fluent_resolver.specs.Frames.{IsPlacedFrame, Runs, kept_before, kept_text, made, AreReady, Goes};

use crate::arguments::{go_on, resolve};
use crate::expression::{choose_given, write_expression};
use crate::frame::Frame;
use crate::pattern::{close, write_from};
use crate::work::{LEVELS, Work};
use fluent_resolver_state::State;
use fluent_values::output::{Halt, Output};
use fluent_values::{Context, FluentFunction, FluentType, FluentValue};
use std::borrow::CowStr;
use std::io::Write;
use std::mem;

/// Does what was put off, the innermost first, and what waits for it.
#[inline(never)]
pub(crate) fn run<'p, 's, 'args, W: Write, C: FluentType, F: FluentFunction<C>, B: Context<C>>(
    scope: &mut State<'_, 'p, '_, 's, 'args, C, F, B>,
    out: &mut Output<W>,
    work: &mut Work<'p, 'args, 's, C>,
) -> Result<(), Halt>
    requires { AreReady scope.old.ids.now work.old }
    ensures { Runs B.meant B.is_plain F.answer C.content W.contents result scope out work }
{
    let mut waiting = Vec::new(scope.bundle.allocator());
    let mut given = None;
    lay(&mut waiting, work)?;
    while let Some(frame) = waiting.pop() {
        given = resume(scope, out, work, frame, given)?;
        lay(&mut waiting, work)?;
    }
    Ok(())
}

/// Lays what was put off on top of what waits, the innermost last.
///
/// # Errors
///
/// An allocation failed.
fn lay<'p, 's, 'args, C: FluentType>(
    waiting: &mut Vec<Frame<'p, 'args, 's, C>>,
    work: &mut Work<'p, 'args, 's, C>,
) -> Result<(), Halt>
    ensures laid { OnOk result (waiting.new.items ≡ waiting.old.items ++ reverse (frames_in work.old)) }
    ensures rest { OnOk result (frames_in work.new ≡ []) }
    ensures values { values_in work.new ≡ values_in work.old }
    ensures err { IfErr result (λ e. e ≡ Halt.Memory) }
{
    let Some(rest) = &mut work.rest else {
        return Ok(());
    };
    rest.frames.reverse();
    match waiting.append(&mut rest.frames) {
        Ok(()) => Ok(()),
        Err(_) => Err(Halt::Memory),
    }
}

/// Does what a frame waited for.
fn resume<'p, 's, 'args, W: Write, C: FluentType, F: FluentFunction<C>, B: Context<C>>(
    scope: &mut State<'_, 'p, '_, 's, 'args, C, F, B>,
    out: &mut Output<W>,
    work: &mut Work<'p, 'args, 's, C>,
    frame: Frame<'p, 'args, 's, C>,
    given: Option<FluentValue<'p, C>>,
) -> Result<Option<FluentValue<'p, C>>, Halt>
    requires placed { IsPlacedFrame (numbers scope.old.ids.now) (table scope.old.ids.now) frame }
    requires nothing { frames_in work.old ≡ [] }
    ensures goes { Goes B.meant B.is_plain F.answer C.content W.contents result
        (frames.frame C.content frame.entry (made C.content given.entry)) (made C.content) scope out work }
    ensures placed { OnOk result (AreReady scope.new.ids.now work.new) }
{
    match frame {
        Frame::Elements {
            pattern,
            next,
            cursor,
        } => {
            write_from(scope, out, work, LEVELS, pattern, next, cursor)?;
            Ok(None)
        }
        Frame::Close { expression, marked } => {
            close(scope, out, expression, marked)?;
            Ok(None)
        }
        Frame::Leave(put) => {
            scope.leave(put);
            Ok(None)
        }
        Frame::Outer(environment) => {
            let _ = mem::replace(&mut scope.environment, environment);
            Ok(None)
        }
        Frame::Choose { variants, cursor } => {
            choose_given(scope, out, work, LEVELS, variants, cursor, given)?;
            Ok(None)
        }
        Frame::Gather(gathering) => go_on(scope, out, work, LEVELS, gathering, given),
        Frame::Value { outer, was_kept } => Ok(Some(end_text(out, outer, was_kept))),
        Frame::Express { expression, cursor } => {
            write_expression(scope, out, work, LEVELS, expression, cursor)?;
            Ok(None)
        }
        Frame::Resolve { inline, cursor } => resolve(scope, out, work, LEVELS, inline, cursor),
    }
}

/// What is kept is a value, and what was kept before is kept again. Where nothing is kept, it is an empty text.
pub(crate) fn end_text<'p, W: Write, C: FluentType>(
    out: &mut Output<W>,
    outer: String,
    was_kept: bool,
) -> FluentValue<'p, C>
    ensures value { value_view C.content result
        ≡ text_value (kept_text (kept_before out.old.is_kept out.old.kept.now)) }
    ensures kept { out.new.kept.now ≡ outer }
    ensures is_kept { out.new.is_kept ≡ was_kept }
    ensures outside { outside W.contents out.new ≡ outside W.contents out.old }
{
    let text = mem::replace(&mut *out.kept, outer);
    let is_kept = out.is_kept;
    out.is_kept = was_kept;
    FluentValue::String(if is_kept {
        CowStr::Owned(text)
    } else {
        CowStr::Borrowed("")
    })
}

//! The calls of a scope that resolve a part of a pattern by itself.
#![tactic(auto, unfolding(crate::specs::ScopeView::scope_parts, fluent_resolver_state::specs::Status::state_parts))]

ghost use Rattle.std.specs.Prelude.{◌≡◌, ◌≢◌, Err, IfOk, IsOk, IsTrue, None, Some, false, true};
ghost use Rattle.fluent_ast.specs.View.{arguments_view, expression_view, inline_view, pattern_view};
ghost use Rattle.fluent_bundle_entries.specs.Texts.{IsTextAlone};
ghost use Rattle.fluent_semantics.specs.Errors.{reference_of};
ghost use Rattle.fluent_path.specs.Contents.{is_idle};
ghost use Rattle.fluent_resolver_state.specs.StateCalls.{events_of_lost};
ghost use Rattle.fluent_resolver_state.specs.Status.{state};
ghost use Rattle.fluent_resolver.specs.Frames.{Tries, Yields};
ghost use Rattle.fluent_resolver.specs.Scoped.{Does, Gets, GivenRun, MaybeTrackedRuns, TrackedRuns, are_none, given_ahead, given_values, given_view, maybe_tracked_events, tracked_events};
ghost use Rattle.fluent_resolver.specs.ScopeView.{bundle_in};

use crate::arguments::begin_call;
use crate::expression::write_expression;
use crate::frame::Purpose;
use crate::machine::run;
use crate::means::Means;
use crate::pattern::close;
use crate::scope::Scope;
use crate::whole::write_whole;
use crate::work::{LEVELS, Work};
use fluent_ast::ast::{CallArguments, Expression, InlineExpression, Pattern};
use fluent_references::Cursor;
use fluent_resolver_state::State;
use fluent_resolver_state::laws::{calls_are_walks, events_are_the_run};
use fluent_resolver_state::lost::lose;
use fluent_resolver_state::output::through;
use fluent_text::{Counting, WriteFault};
use fluent_values::output::{Halt, Output, with_error};
use fluent_values::{Context, FluentArgs, FluentFunction, FluentType, FluentValue};
use std::alloc::AllocError;
use std::io::Write;

impl<'p, 's, C: FluentType, F: FluentFunction<C>, B: Context<C>> Scope<
    '_,
    'p,
    '_,
    's,
    '_,
    C,
    F,
    B,
> {
    /// Writes a pattern that an expression refers to, with itself on the path. If its content is on the path
    /// already, that is an error, and the expression's fallback is written in braces.
    ///
    /// # Errors
    ///
    /// `Writer` where a write failed, `Zero` where a write of a nonempty piece took no byte, `Memory` where an
    /// allocation failed. Then a prefix of what the call does happened: text, errors, counts and budget are those of
    /// that prefix. Bundle, environment and path are as before, whatever is answered.
    pub fn track<W: Write>(
        &mut self,
        w: &mut Counting<W>,
        pattern: &'p Pattern<'s>,
        inline: &InlineExpression<'_>,
    ) -> Result<(), WriteFault>
        ensures did { Does (tracked_events (pattern_view pattern.now) (inline_view inline.now)) result
            W.contents w ⟦<Self as Means>⟧.meaning self }
        ensures runs { TrackedRuns (pattern_view pattern.now) (inline_view inline.now)
            (⟦<Self as Means>⟧.meaning self.old) }
        ensures bundle { bundle_in self.new ≡ bundle_in self.old }
        ensures memory { IsTextAlone (pattern_view pattern.now) →
            IsTrue (B.is_plain (bundle_in self.old).now) → result ≢ Err WriteFault.Memory }
    {
        // Laws do nothing when they are called: their clauses go into the proof.
        calls_are_walks();
        events_are_the_run();
        let home = self.state.application();
        let mut unused = String::new(self.state.bundle.allocator());
        let mut kept = String::new(self.state.bundle.allocator());
        let out = &mut through(w, &mut unused, &mut kept);
        let written = write_whole(&mut self.state, out, pattern, Cursor::by_name());
        self.state.rest(home);
        with_error(written, &mut out.error)
    }

    /// Writes the expression of a placeable of a pattern, which stands on the path for it where that is empty, and
    /// the expression's fallback in braces where the limit on placeables was reached. It writes no marks, and by
    /// itself takes nothing from the budget; the pattern counts as one that was entered.
    ///
    /// # Errors
    ///
    /// `Writer` where a write failed, `Zero` where a write of a nonempty piece took no byte, `Memory` where an
    /// allocation failed. Then a prefix of what the call does happened: text, errors, counts and budget are those of
    /// that prefix. Bundle, environment and path are as before, whatever is answered.
    pub fn maybe_track<W: Write>(
        &mut self,
        w: &mut Counting<W>,
        pattern: &'p Pattern<'s>,
        expression: &'p Expression<'s>,
    ) -> Result<(), WriteFault>
        ensures did { Does (maybe_tracked_events (pattern_view pattern.now) (expression_view expression.now))
            result W.contents w ⟦<Self as Means>⟧.meaning self }
        ensures runs { MaybeTrackedRuns (pattern_view pattern.now) (expression_view expression.now)
            (⟦<Self as Means>⟧.meaning self.old) }
        ensures bundle { bundle_in self.new ≡ bundle_in self.old }
    {
        // Laws do nothing when they are called: their clauses go into the proof.
        calls_are_walks();
        events_are_the_run();
        let home = self.state.application();
        let mut unused = String::new(self.state.bundle.allocator());
        let mut kept = String::new(self.state.bundle.allocator());
        let out = &mut through(w, &mut unused, &mut kept);
        let written = write_expression_of(&mut self.state, out, pattern, expression);
        self.state.rest(home);
        with_error(written, &mut out.error)
    }

    /// Reports an expression as a reference that can't be found, and then writes its fallback in braces. What is no
    /// reference is no error.
    ///
    /// # Errors
    ///
    /// `Writer` where a write failed, `Zero` where a write of a nonempty piece took no byte, `Memory` where an
    /// allocation failed, which only a reference can meet. Then a prefix of what the call does happened. Bundle,
    /// environment, path, budget and counts are as before, whatever is answered.
    pub fn write_ref_error<W: Write>(
        &mut self,
        w: &mut Counting<W>,
        inline: &InlineExpression<'_>,
    ) -> Result<(), WriteFault>
        ensures did { Does (events_of_lost inline.now) result W.contents w ⟦<Self as Means>⟧.meaning self }
        ensures bundle { bundle_in self.new ≡ bundle_in self.old }
        ensures memory { reference_of (inline_view inline.now) ≡ None →
            result ≢ Err WriteFault.Memory }
    {
        let mut unused = String::new(self.state.bundle.allocator());
        let mut kept = String::new(self.state.bundle.allocator());
        let out = &mut through(w, &mut unused, &mut kept);
        let written = lose(&mut self.state, out, inline);
        with_error(written, &mut out.error)
    }

    /// The values of a call's arguments: positional ones in order, then named ones, of which the last of a name
    /// stands. Where there are no arguments, or both lists are empty, it takes no memory.
    ///
    /// # Errors
    ///
    /// An allocation failed: a prefix of what the call does happened, and errors, counts and budget are those of that
    /// prefix. Bundle, environment and path are as before, whatever is answered.
    pub fn get_arguments(
        &mut self,
        arguments: Option<&'p CallArguments<'s>>,
    ) -> Result<(Vec<FluentValue<'p, C>>, FluentArgs<'p, C>), AllocError>
        ensures got { Gets result (given_values C.content)
            (given_ahead (given_view arguments.entry) (⟦<Self as Means>⟧.meaning self.old))
            (⟦<Self as Means>⟧.meaning self.old) (⟦<Self as Means>⟧.meaning self.new) }
        ensures runs { GivenRun (given_view arguments.entry) (⟦<Self as Means>⟧.meaning self.old) }
        ensures bundle { bundle_in self.new ≡ bundle_in self.old }
        ensures succeeds { IsTrue (are_none (given_view arguments.entry)) → IsOk result }
    {
        // Laws do nothing when they are called: their clauses go into the proof.
        calls_are_walks();
        events_are_the_run();
        let alloc = self.state.bundle.allocator();
        let Some(arguments) = arguments else {
            return Ok((Vec::new(alloc), FluentArgs::new(alloc)));
        };
        if is_empty(arguments) {
            return Ok((Vec::new(alloc), FluentArgs::new(alloc)));
        }
        let home = self.state.application();
        let mut nowhere = Counting::new(Vec::new(alloc));
        let mut unused = String::new(alloc);
        let mut kept = String::new(alloc);
        let mut out = through(&mut nowhere, &mut unused, &mut kept);
        let values = give_arguments(&mut self.state, &mut out, arguments);
        self.state.rest(home);
        match values {
            Ok(values) => Ok(values),
            Err(_) => Err(AllocError),
        }
    }
}

/// Whether a call has no arguments.
fn is_empty(arguments: &CallArguments<'_>) -> bool
    ensures { result ≡ are_none (Some (arguments_view arguments.now)) }
{
    arguments.positional.is_empty() && arguments.named.is_empty()
}

/// Writes a placeable's expression, with the pattern on the path, and its fallback where the limit is reached after it.
fn write_expression_of<'p, 's, W: Write, C: FluentType, F: FluentFunction<C>, B: Context<C>>(
    scope: &mut State<'_, 'p, '_, 's, '_, C, F, B>,
    out: &mut Output<W>,
    pattern: &'p Pattern<'s>,
    expression: &'p Expression<'s>,
) -> Result<(), Halt>
    requires kept { out.old.is_kept ≡ false }
    ensures { Tries (maybe_tracked_events (pattern_view pattern.now) (expression_view expression.now)) result
        W.contents out (state B.meant B.is_plain F.answer C.content) scope }
{
    let mut work = Work::new(scope.bundle.allocator());
    let _ = scope.begin(pattern);
    match write_expression(scope, out, &mut work, LEVELS, expression, Cursor::by_name()) {
        Ok(()) => (),
        Err(fault) => {
            work.end();
            return Err(fault);
        }
    }
    let marked = false;
    if work.is_done() {
        work.end();
        return close(scope, out, expression, marked);
    }
    match work.wait_close(expression, marked) {
        Ok(()) => (),
        Err(fault) => {
            work.end();
            return Err(fault);
        }
    }
    let ran = run(scope, out, &mut work);
    work.end();
    ran
}

/// The values of arguments.
fn give_arguments<'p, 's, W: Write, C: FluentType, F: FluentFunction<C>, B: Context<C>>(
    scope: &mut State<'_, 'p, '_, 's, '_, C, F, B>,
    out: &mut Output<W>,
    arguments: &'p CallArguments<'s>,
) -> Result<(Vec<FluentValue<'p, C>>, FluentArgs<'p, C>), Halt>
    requires kept { out.old.is_kept ≡ false }
    ensures { Yields (given_ahead (Some (arguments_view arguments.now))) result
        (given_values C.content) W.contents out
        (state B.meant B.is_plain F.answer C.content) scope }
{
    // A law does nothing when it is called: its clauses go into the proof.
    events_are_the_run();
    let mut work = Work::new(scope.bundle.allocator());
    match begin_call(
        scope,
        out,
        &mut work,
        LEVELS,
        Purpose::Hand,
        arguments,
        Cursor::by_name(),
    ) {
        Ok(_) => (),
        Err(fault) => {
            work.end();
            return Err(fault);
        }
    }
    match run(scope, out, &mut work) {
        Ok(()) => (),
        Err(fault) => {
            work.end();
            return Err(fault);
        }
    }
    match work.into_values() {
        Some(values) => Ok(values),
        None => unreachable!(),
    }
}

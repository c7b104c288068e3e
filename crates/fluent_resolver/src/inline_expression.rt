//! Inline expressions.
#![tactic(auto, unfolding(fluent_resolver_state::specs::Status::state_parts))]

ghost use Rattle.std.specs.Prelude.{◌≡◌, [], false, None, OnOk};
ghost use Rattle.fluent_ast.specs.References.{in_arguments, in_call, in_inline};
ghost use Rattle.fluent_ast.specs.Tree.{function};
ghost use Rattle.fluent_ast.specs.View.{arguments_view, call_view, inline_view};
ghost use Rattle.fluent_semantics.specs.Ahead.{begins};
ghost use Rattle.fluent_resolver_state.specs.Locals.{locals_view};
ghost use Rattle.fluent_bundle_entries.specs.IdNumbers.{IsPlaced};
ghost use Rattle.fluent_resolver_state.specs.FoundView.{IsLed, IsStored, content_at, found_view};
ghost use Rattle.fluent_resolver.specs.Inside.Parts as parts;
ghost use Rattle.fluent_resolver.specs.Inside.Waits.{frames_in};
ghost use Rattle.fluent_resolver.specs.Inside.Parts.{IsFunction, IsMessage, IsTerm, is_braced};
ghost use Rattle.fluent_values.specs.View.{named as named_view};
ghost use Rattle.fluent_resolver.specs.Frames.{AreReady, Goes};

use crate::arguments::begin_call;
use crate::frame::Purpose;
use crate::leaf::put_leaf;
use crate::pattern::{write_elements, write_only_text};
use crate::work::Work;
use fluent_ast::ast::{CallArguments, Identifier, InlineExpression};
use fluent_references::Cursor;
use fluent_resolver_state::fallback::{put_id_in_braces, put_in_braces};
use fluent_resolver_state::laws::events_are_the_run;
use fluent_resolver_state::leaves::{has_leaves_alone, put_answer_to_leaves};
use fluent_resolver_state::locals::has_literals_alone;
use fluent_resolver_state::lost::{lose, report_cycle, report_no_value};
use fluent_resolver_state::texts::{free_text, only_text};
use fluent_resolver_state::{Environment, Found, Locals, State, Target, found};
use fluent_values::output::{Halt, Output};
use fluent_values::{Context, FluentArgs, FluentFunction, FluentType};
use std::io::Write;
use std::mem;

/// Writes what an inline expression gives that is not in braces.
#[cycle(resolve)]
#[inline(always)]
pub(crate) fn write_unbraced<
    'p,
    's,
    'args,
    W: Write,
    C: FluentType,
    F: FluentFunction<C>,
    B: Context<C>,
>(
    scope: &mut State<'_, 'p, '_, 's, 'args, C, F, B>,
    out: &mut Output<W>,
    work: &mut Work<'p, 'args, 's, C>,
    levels: usize,
    inline: &'p InlineExpression<'s>,
    cursor: Cursor<'p>,
) -> Result<(), Halt>
    requires unbraced { is_braced (inline_view inline.now) ≡ false }
    requires placed { IsPlaced scope.old.ids.now (in_inline (inline_view inline.now)) cursor }
    requires nothing { frames_in work.old ≡ [] }
    ensures goes { Goes B.meant B.is_plain F.answer C.content W.contents result
        (parts.written (inline_view inline.now))
        (λ x. None) scope out work }
    ensures placed { OnOk result (AreReady scope.new.ids.now work.new) }
{
    match inline {
        InlineExpression::StringLiteral { .. } => put_leaf(scope, out, inline),
        InlineExpression::NumberLiteral { .. } => put_leaf(scope, out, inline),
        InlineExpression::FunctionReference { .. } => {
            write_function(scope, out, work, levels, inline, cursor)
        }
        InlineExpression::MessageReference { .. } => {
            write_message(scope, out, work, levels, inline, cursor)
        }
        InlineExpression::TermReference { .. } => {
            write_term(scope, out, work, levels, inline, cursor)
        }
        InlineExpression::VariableReference { .. } => put_leaf(scope, out, inline),
        InlineExpression::Placeable { .. } => Ok(()),
    }
}

/// Writes what a message reference leads to. This, and what follows, stand by themselves and are handed little, as each
/// part of a pattern pays for what a call may hold and is handed.
#[cycle(resolve)]
#[inline(never)]
fn write_message<'p, 's, 'args, W: Write, C: FluentType, F: FluentFunction<C>, B: Context<C>>(
    scope: &mut State<'_, 'p, '_, 's, 'args, C, F, B>,
    out: &mut Output<W>,
    work: &mut Work<'p, 'args, 's, C>,
    levels: usize,
    inline: &'p InlineExpression<'s>,
    cursor: Cursor<'p>,
) -> Result<(), Halt>
    requires message { IsMessage (inline_view inline.now) }
    requires placed { IsPlaced scope.old.ids.now (in_inline (inline_view inline.now)) cursor }
    requires nothing { frames_in work.old ≡ [] }
    ensures goes { Goes B.meant B.is_plain F.answer C.content W.contents result
        (parts.written (inline_view inline.now))
        (λ x. None) scope out work }
    ensures placed { OnOk result (AreReady scope.new.ids.now work.new) }
{
    match inline {
        InlineExpression::MessageReference { id, attribute } => {
            let found = found::message(scope.ids, id.name, attribute, cursor);
            follow(scope, out, work, levels, inline, id, found)
        }
        _ => Ok(()),
    }
}

/// Writes what a term reference leads to, in the environment that its arguments make.
#[cycle(resolve)]
#[inline(never)]
fn write_term<'p, 's, 'args, W: Write, C: FluentType, F: FluentFunction<C>, B: Context<C>>(
    scope: &mut State<'_, 'p, '_, 's, 'args, C, F, B>,
    out: &mut Output<W>,
    work: &mut Work<'p, 'args, 's, C>,
    levels: usize,
    inline: &'p InlineExpression<'s>,
    cursor: Cursor<'p>,
) -> Result<(), Halt>
    requires term { IsTerm (inline_view inline.now) }
    requires placed { IsPlaced scope.old.ids.now (in_inline (inline_view inline.now)) cursor }
    requires nothing { frames_in work.old ≡ [] }
    ensures goes { Goes B.meant B.is_plain F.answer C.content W.contents result
        (parts.written (inline_view inline.now))
        (λ x. None) scope out work }
    ensures placed { OnOk result (AreReady scope.new.ids.now work.new) }
{
    match inline {
        InlineExpression::TermReference {
            id,
            attribute,
            arguments,
        } => {
            let found = found::term(scope.ids, id.name, attribute, cursor);
            if arguments.is_none() {
                if let Some(text) = free_text(scope, found) {
                    // A law does nothing when it is called: its clauses go into the proof.
                    events_are_the_run();
                    return write_only_text(scope, out, text);
                }
            }
            let at = cursor.after_one();
            write_found(scope, out, work, levels, inline, id, found, arguments, at)
        }
        _ => Ok(()),
    }
}

/// Writes what was found for a term reference, in the environment that its arguments make.
#[cycle(resolve)]
#[inline(always)]
fn write_found<'p, 's, 'args, W: Write, C: FluentType, F: FluentFunction<C>, B: Context<C>>(
    scope: &mut State<'_, 'p, '_, 's, 'args, C, F, B>,
    out: &mut Output<W>,
    work: &mut Work<'p, 'args, 's, C>,
    levels: usize,
    inline: &'p InlineExpression<'s>,
    id: &'p Identifier<'s>,
    found: Found<'p, 's>,
    arguments: &'p Option<Box<CallArguments<'s>>>,
    cursor: Cursor<'p>,
) -> Result<(), Halt>
    requires led { IsLed scope.old.ids.now found }
    requires placed { IsPlaced scope.old.ids.now (in_call (call_view arguments.now)) cursor }
    requires nothing { frames_in work.old ≡ [] }
    ensures goes { Goes B.meant B.is_plain F.answer C.content W.contents result
        (parts.term (inline_view inline.now) id.now.name.now (found_view found.entry) (call_view arguments.now))
        (λ x. None) scope out work }
    ensures placed { OnOk result (AreReady scope.new.ids.now work.new) }
{
    match arguments {
        None => {
            let locals = Locals::Literals(None);
            enter_term(scope, out, work, levels, inline, id, found, locals)
        }
        Some(arguments) => {
            let arguments: &CallArguments<'s> = arguments;
            if has_literals_alone(arguments) {
                let locals = Locals::Literals(Some(arguments));
                return enter_term(scope, out, work, levels, inline, id, found, locals);
            }
            write_with_values(
                scope, out, work, levels, inline, id, found, arguments, cursor,
            )
        }
    }
}

/// The same where the arguments have values that have to be made.
#[cycle(resolve)]
#[inline(never)]
fn write_with_values<'p, 's, 'args, W: Write, C: FluentType, F: FluentFunction<C>, B: Context<C>>(
    scope: &mut State<'_, 'p, '_, 's, 'args, C, F, B>,
    out: &mut Output<W>,
    work: &mut Work<'p, 'args, 's, C>,
    levels: usize,
    inline: &'p InlineExpression<'s>,
    id: &'p Identifier<'s>,
    found: Found<'p, 's>,
    arguments: &'p CallArguments<'s>,
    cursor: Cursor<'p>,
) -> Result<(), Halt>
    requires led { IsLed scope.old.ids.now found }
    requires placed { IsPlaced scope.old.ids.now (in_arguments (arguments_view arguments.now)) cursor }
    requires nothing { frames_in work.old ≡ [] }
    ensures goes { Goes B.meant B.is_plain F.answer C.content W.contents result
        (parts.calls (parts.in_term (inline_view inline.now) id.now.name.now (found_view found.entry)) (arguments_view arguments.now))
        (λ x. None) scope out work }
    ensures placed { OnOk result (AreReady scope.new.ids.now work.new) }
{
    let purpose = Purpose::Local { inline, id, found };
    let _ = begin_call(scope, out, work, levels, purpose, arguments, cursor)?;
    Ok(())
}

/// Writes what a function answers to its arguments.
#[cycle(resolve)]
#[inline(never)]
fn write_function<'p, 's, 'args, W: Write, C: FluentType, F: FluentFunction<C>, B: Context<C>>(
    scope: &mut State<'_, 'p, '_, 's, 'args, C, F, B>,
    out: &mut Output<W>,
    work: &mut Work<'p, 'args, 's, C>,
    levels: usize,
    inline: &'p InlineExpression<'s>,
    cursor: Cursor<'p>,
) -> Result<(), Halt>
    requires function { IsFunction (inline_view inline.now) }
    requires placed { IsPlaced scope.old.ids.now (in_inline (inline_view inline.now)) cursor }
    requires nothing { frames_in work.old ≡ [] }
    ensures goes { Goes B.meant B.is_plain F.answer C.content W.contents result
        (parts.written (inline_view inline.now))
        (λ x. None) scope out work }
    ensures placed { OnOk result (AreReady scope.new.ids.now work.new) }
{
    match inline {
        InlineExpression::FunctionReference { id, arguments } => {
            if has_leaves_alone(arguments) {
                return put_answer_to_leaves(scope, out, inline, id, arguments, cursor);
            }
            write_gathered(scope, out, work, levels, inline, id, arguments, cursor)
        }
        _ => Ok(()),
    }
}

/// The same where the arguments are not literals and variables alone.
#[cycle(resolve)]
#[inline(never)]
fn write_gathered<'p, 's, 'args, W: Write, C: FluentType, F: FluentFunction<C>, B: Context<C>>(
    scope: &mut State<'_, 'p, '_, 's, 'args, C, F, B>,
    out: &mut Output<W>,
    work: &mut Work<'p, 'args, 's, C>,
    levels: usize,
    inline: &'p InlineExpression<'s>,
    id: &'p Identifier<'s>,
    arguments: &'p CallArguments<'s>,
    cursor: Cursor<'p>,
) -> Result<(), Halt>
    requires placed { IsPlaced scope.old.ids.now (in_inline (function id.now.name.now (arguments_view arguments.now))) cursor }
    requires nothing { frames_in work.old ≡ [] }
    ensures goes { Goes B.meant B.is_plain F.answer C.content W.contents result
        (parts.calls (parts.shows (inline_view inline.now) id.now.name.now) (arguments_view arguments.now))
        (λ x. None) scope out work }
    ensures placed { OnOk result (AreReady scope.new.ids.now work.new) }
{
    let purpose = Purpose::Show { inline, id, cursor };
    let at = cursor.after_one();
    let _ = begin_call(scope, out, work, levels, purpose, arguments, at)?;
    Ok(())
}

/// Writes what a term reference leads to, where variables are looked up among values that were made.
#[cycle(resolve)]
#[inline(never)]
pub(crate) fn enter_with_values<
    'p,
    's,
    'args,
    W: Write,
    C: FluentType,
    F: FluentFunction<C>,
    B: Context<C>,
>(
    scope: &mut State<'_, 'p, '_, 's, 'args, C, F, B>,
    out: &mut Output<W>,
    work: &mut Work<'p, 'args, 's, C>,
    levels: usize,
    inline: &InlineExpression<'_>,
    id: &Identifier<'_>,
    found: Found<'p, 's>,
    args: FluentArgs<'p, C>,
) -> Result<(), Halt>
    requires led { IsLed scope.old.ids.now found }
    requires nothing { frames_in work.old ≡ [] }
    ensures goes { Goes B.meant B.is_plain F.answer C.content W.contents result
        (λ b k v. begins (parts.entering_term (inline_view inline.now) id.now.name.now
        (found_view found.entry) (named_view C.content args.entry) b k v))
        (λ x. None) scope out work }
    ensures placed { OnOk result (AreReady scope.new.ids.now work.new) }
{
    let locals = Locals::Values(args);
    enter_term(scope, out, work, levels, inline, id, found, locals)
}

/// Writes what a term reference leads to, where variables are looked up among its arguments.
#[cycle(resolve)]
#[inline(always)]
pub(crate) fn enter_term<
    'p,
    's,
    'args,
    W: Write,
    C: FluentType,
    F: FluentFunction<C>,
    B: Context<C>,
>(
    scope: &mut State<'_, 'p, '_, 's, 'args, C, F, B>,
    out: &mut Output<W>,
    work: &mut Work<'p, 'args, 's, C>,
    levels: usize,
    inline: &InlineExpression<'_>,
    id: &Identifier<'_>,
    found: Found<'p, 's>,
    locals: Locals<'p, 's, C>,
) -> Result<(), Halt>
    requires led { IsLed scope.old.ids.now found }
    requires nothing { frames_in work.old ≡ [] }
    ensures goes { Goes B.meant B.is_plain F.answer C.content W.contents result
        (λ b k v. begins (parts.entering_term (inline_view inline.now) id.now.name.now
        (found_view found.entry) (locals_view C.content locals.entry) b k v))
        (λ x. None) scope out work }
    ensures placed { OnOk result (AreReady scope.new.ids.now work.new) }
{
    let outer = mem::replace(&mut scope.environment, Environment::Local(locals));
    follow(scope, out, work, levels, inline, id, found)?;
    if work.is_done() {
        let _ = mem::replace(&mut scope.environment, outer);
        Ok(())
    } else {
        work.wait_outer(outer)
    }
}

/// Writes what a reference leads to.
#[cycle(resolve)]
#[inline(always)]
fn follow<'p, 's, 'args, W: Write, C: FluentType, F: FluentFunction<C>, B: Context<C>>(
    scope: &mut State<'_, 'p, '_, 's, 'args, C, F, B>,
    out: &mut Output<W>,
    work: &mut Work<'p, 'args, 's, C>,
    levels: usize,
    inline: &InlineExpression<'_>,
    id: &Identifier<'_>,
    found: Found<'p, 's>,
) -> Result<(), Halt>
    requires led { IsLed scope.old.ids.now found }
    requires nothing { frames_in work.old ≡ [] }
    ensures goes { Goes B.meant B.is_plain F.answer C.content W.contents result
        (parts.follow (inline_view inline.now) id.now.name.now (found_view found.entry))
        (λ x. None) scope out work }
    ensures placed { OnOk result (AreReady scope.new.ids.now work.new) }
{
    match found {
        Found::Unknown => lose(scope, out, inline),
        Found::WithoutValue => {
            report_no_value(scope, id.name)?;
            put_id_in_braces(out, id.name)
        }
        Found::Pattern(target) => go(scope, out, work, levels, inline, target),
    }
}

/// Writes a pattern that an expression refers to, unless it is being written.
#[cycle(resolve)]
#[inline(always)]
fn go<'p, 's, 'args, W: Write, C: FluentType, F: FluentFunction<C>, B: Context<C>>(
    scope: &mut State<'_, 'p, '_, 's, 'args, C, F, B>,
    out: &mut Output<W>,
    work: &mut Work<'p, 'args, 's, C>,
    levels: usize,
    inline: &InlineExpression<'_>,
    target: Target<'p, 's>,
) -> Result<(), Halt>
    requires stored { IsStored scope.old.ids.now target }
    requires nothing { frames_in work.old ≡ [] }
    ensures goes { Goes B.meant B.is_plain F.answer C.content W.contents result
        (parts.go (inline_view inline.now) (content_at target.entry))
        (λ x. None) scope out work }
    ensures placed { OnOk result (AreReady scope.new.ids.now work.new) }
{
    if scope.is_on(target.pattern, target.class) {
        report_cycle(scope)?;
        return put_in_braces(out, inline);
    }
    // A law does nothing when it is called: its clauses go into the proof.
    events_are_the_run();
    if let Some(text) = only_text(target.pattern) {
        return write_only_text(scope, out, text);
    }
    scope.enter(target.pattern, target.class)?;
    write_elements(scope, out, work, levels, target.pattern, target.cursor)?;
    if work.is_done() {
        scope.leave(true);
        Ok(())
    } else {
        work.wait_leave(true)
    }
}

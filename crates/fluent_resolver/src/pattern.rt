//! Patterns.
#![tactic(auto, unfolding(fluent_resolver_state::specs::Status::state_parts))]

ghost use Rattle.std.specs.Prelude.{◌≡◌, ◌≢◌, [], Err, IsTrue, None, OnOk, Some};
ghost use Rattle.fluent_ast.specs.References.{in_expression, references};
ghost use Rattle.fluent_ast.specs.View.{expression_view, pattern_view};
ghost use Rattle.fluent_semantics.specs.Meaning.{limit_reached};
ghost use Rattle.fluent_semantics.specs.Walk.{has_one};
ghost use Rattle.fluent_bundle_entries.specs.IdNumbers.{IsPlaced};
ghost use Rattle.fluent_bundle_entries.specs.Texts.{IsTextAlone, sole_text};
ghost use Rattle.fluent_resolver_state.specs.Status.{budget_view, stored_in};
ghost use Rattle.fluent_values.specs.Sinks.{GoesThrough};
ghost use Rattle.fluent_resolver.specs.Inside.Parts as parts;
ghost use Rattle.fluent_resolver.specs.Inside.Waits.{frames_in};
ghost use Rattle.fluent_resolver.specs.Frames.{elements_from, AreReady, Goes, Passes};

use crate::expression::write_expression;
use crate::passing::passed;
use crate::work::Work;
use fluent_ast::ast::{Expression, Pattern, PatternElement};
use fluent_references::Cursor;
use fluent_resolver_state::State;
use fluent_resolver_state::lost::report_limit;
use fluent_resolver_state::placeable::{
    has_one, is_marked, put_ending, put_first_mark, put_last_mark,
};
use fluent_resolver_state::texts::put_changed;
use fluent_values::output::{Halt, Output};
use fluent_values::{Context, FluentFunction, FluentType};
use std::io::Write;

/// Writes the elements of a pattern in order.
#[cycle(resolve)]
pub(crate) fn write_elements<
    'p,
    's,
    'args,
    W: Write,
    C: FluentType,
    F: FluentFunction<C>,
    B: Context<C>,
>(
    scope: &mut State<'_, 'p, '_, 's, 'args, C, F, B>,
    out: &mut Output<W>,
    work: &mut Work<'p, 'args, 's, C>,
    levels: usize,
    pattern: &'p Pattern<'s>,
    cursor: Cursor<'p>,
) -> Result<(), Halt>
    requires placed { IsPlaced scope.old.ids.now (references (elements_from 0 pattern.now)) cursor }
    requires nothing { frames_in work.old ≡ [] }
    ensures goes { Goes B.meant B.is_plain F.answer C.content W.contents result
        (parts.elements (has_one (pattern_view pattern.now)) (elements_from 0 pattern.now))
        (λ x. None) scope out work }
    ensures placed { OnOk result (AreReady scope.new.ids.now work.new) }
    ensures texts { IsTextAlone (elements_from 0 pattern.now) → OnOk result (frames_in work.new ≡ []) }
    ensures memory { IsTextAlone (elements_from 0 pattern.now) →
        IsTrue (B.is_plain scope.old.bundle.now) → GoesThrough out.old → result ≢ Err Halt.Memory }
{
    write_from(scope, out, work, levels, pattern, 0, cursor)
}

/// Writes the elements of a pattern in order, from this one on.
#[cycle(resolve)]
#[inline(always)]
pub(crate) fn write_from<
    'p,
    's,
    'args,
    W: Write,
    C: FluentType,
    F: FluentFunction<C>,
    B: Context<C>,
>(
    scope: &mut State<'_, 'p, '_, 's, 'args, C, F, B>,
    out: &mut Output<W>,
    work: &mut Work<'p, 'args, 's, C>,
    levels: usize,
    pattern: &'p Pattern<'s>,
    next: usize,
    cursor: Cursor<'p>,
) -> Result<(), Halt>
    requires placed { IsPlaced scope.old.ids.now (references (elements_from next pattern.now)) cursor }
    requires nothing { frames_in work.old ≡ [] }
    ensures goes { Goes B.meant B.is_plain F.answer C.content W.contents result
        (parts.elements (has_one (pattern_view pattern.now)) (elements_from next pattern.now))
        (λ x. None) scope out work }
    ensures placed { OnOk result (AreReady scope.new.ids.now work.new) }
    ensures texts { IsTextAlone (elements_from next pattern.now) → OnOk result (frames_in work.new ≡ []) }
    ensures memory { IsTextAlone (elements_from next pattern.now) →
        IsTrue (B.is_plain scope.old.bundle.now) → GoesThrough out.old → result ≢ Err Halt.Memory }
{
    let mut next = next;
    let mut cursor = cursor;
    while let Some(element) = pattern.elements.get(next) {
        if scope.dirty() {
            return Ok(());
        }
        match element {
            PatternElement::TextElement { value } => put_changed(scope, out, value)?,
            PatternElement::Placeable { expression } => {
                write_placeable(
                    scope,
                    out,
                    work,
                    levels,
                    has_one(pattern),
                    expression,
                    cursor,
                )?;
                if !work.is_done() {
                    let after = cursor.after_element(element);
                    return work.wait_elements(pattern, next + 1, after);
                }
            }
        }
        cursor = passed(cursor, element);
        next += 1;
    }
    Ok(())
}

/// Writes a placeable of a pattern, which is all of it or not.
#[cycle(resolve)]
#[inline(always)]
fn write_placeable<'p, 's, 'args, W: Write, C: FluentType, F: FluentFunction<C>, B: Context<C>>(
    scope: &mut State<'_, 'p, '_, 's, 'args, C, F, B>,
    out: &mut Output<W>,
    work: &mut Work<'p, 'args, 's, C>,
    levels: usize,
    one: bool,
    expression: &'p Expression<'s>,
    cursor: Cursor<'p>,
) -> Result<(), Halt>
    requires left { budget_view scope.old.budget ≢ limit_reached }
    requires placed { IsPlaced scope.old.ids.now (in_expression (expression_view expression.now)) cursor }
    requires nothing { frames_in work.old ≡ [] }
    ensures goes { Goes B.meant B.is_plain F.answer C.content W.contents result
        (parts.part one (expression_view expression.now)) (λ x. None) scope out work }
    ensures placed { OnOk result (AreReady scope.new.ids.now work.new) }
{
    if !scope.take_one() {
        report_limit(scope)?;
        return Ok(());
    }
    let marked = is_marked(scope.bundle, one, expression);
    put_first_mark(out, marked)?;
    write_expression(scope, out, work, levels, expression, cursor)?;
    if work.is_done() {
        close(scope, out, expression, marked)
    } else {
        work.wait_close(expression, marked)
    }
}

/// Ends a placeable: with its fallback where the limit was reached, and with its last mark.
pub(crate) fn close<'p, 's, W: Write, C: FluentType, F: FluentFunction<C>, B: Context<C>>(
    scope: &mut State<'_, 'p, '_, 's, '_, C, F, B>,
    out: &mut Output<W>,
    expression: &Expression<'_>,
    marked: bool,
) -> Result<(), Halt>
    ensures goes { Passes B.meant B.is_plain F.answer C.content W.contents result
        (parts.closing (expression_view expression.now) marked) scope out }
    ensures state { scope.new ≡ scope.old }
{
    put_ending(out, expression, scope.budget)?;
    put_last_mark(out, marked)
}

/// Writes a pattern of one text that a reference leads to and that isn't being written: it is entered and left at once.
#[inline(always)]
pub(crate) fn write_only_text<'p, 's, W: Write, C: FluentType, F: FluentFunction<C>, B: Context<C>>(
    scope: &mut State<'_, 'p, '_, 's, '_, C, F, B>,
    out: &mut Output<W>,
    text: &str,
) -> Result<(), Halt>
    ensures goes { Passes B.meant B.is_plain F.answer C.content W.contents result
        (parts.visited (parts.text_alone text.now)) scope out }
    ensures stored { stored_in scope.new.ids.now ≡ stored_in scope.old.ids.now }
{
    scope.visit();
    if scope.dirty() {
        return Ok(());
    }
    put_changed(scope, out, text)
}

/// Writes a variant of one text, which stands on the path where that is empty: it is begun and left at once.
#[inline(always)]
pub(crate) fn write_variant_text<
    'p,
    's,
    W: Write,
    C: FluentType,
    F: FluentFunction<C>,
    B: Context<C>,
>(
    scope: &mut State<'_, 'p, '_, 's, '_, C, F, B>,
    out: &mut Output<W>,
    pattern: &'p Pattern<'s>,
    value: &str,
) -> Result<(), Halt>
    requires { sole_text (pattern_view pattern.now) ≡ Some value.now }
    ensures goes { Passes B.meant B.is_plain F.answer C.content W.contents result
        (parts.whole (pattern_view pattern.now)) scope out }
    ensures stored { stored_in scope.new.ids.now ≡ stored_in scope.old.ids.now }
{
    let begun = scope.begin(pattern);
    if !scope.dirty() {
        put_changed(scope, out, value)?;
    }
    scope.leave(begun);
    Ok(())
}

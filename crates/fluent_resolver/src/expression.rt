//! Expressions.
#![tactic(auto, unfolding(fluent_resolver_state::specs::Status::state_parts))]

ghost use Rattle.std.specs.Prelude.{◌≡◌, [], None, OnOk};
ghost use Rattle.fluent_ast.specs.References.{in_expression, in_inline, in_variants, variants_view};
ghost use Rattle.fluent_ast.specs.Tree.{select};
ghost use Rattle.fluent_ast.specs.View.{expression_view, inline_view};
ghost use Rattle.fluent_values.specs.View.{value_view};
ghost use Rattle.fluent_bundle_entries.specs.IdNumbers.{IsPlaced, numbers};
ghost use Rattle.fluent_resolver_state.specs.ChosenView.{BeginsAt, chosen_view};
ghost use Rattle.fluent_resolver.specs.Inside.Parts as parts;
ghost use Rattle.fluent_resolver.specs.Inside.Parts.{IsSelect};
ghost use Rattle.fluent_resolver.specs.Inside.Waits.{frames_in};
ghost use Rattle.fluent_resolver.specs.Frames.{made, selector_value, AreReady, Goes, GoesWithin};

use crate::arguments::resolve;
use crate::inline_expression::write_unbraced;
use crate::passing::passed_inline;
use crate::pattern::{write_elements, write_variant_text};
use crate::work::Work;
use fluent_ast::ast::{Expression, InlineExpression, Variant};
use fluent_references::Cursor;
use fluent_resolver_state::State;
use fluent_resolver_state::lost::report_no_default;
use fluent_resolver_state::texts::only_text;
use fluent_resolver_state::variants::{Chosen, choose, choose_by_variable};
use fluent_values::output::{Halt, Output};
use fluent_values::{Context, FluentFunction, FluentType, FluentValue};
use std::io::Write;

/// Writes what an expression gives. It is put off where no level is left.
#[cycle(resolve)]
#[inline(always)]
pub(crate) fn write_expression<
    'p,
    's,
    'args,
    W: Write,
    C: FluentType,
    F: FluentFunction<C>,
    B: Context<C>,
>(
    scope: &mut State<'_, 'p, '_, 's, 'args, C, F, B>,
    out: &mut Output<W>,
    work: &mut Work<'p, 'args, 's, C>,
    levels: usize,
    expression: &'p Expression<'s>,
    cursor: Cursor<'p>,
) -> Result<(), Halt>
    requires placed { IsPlaced scope.old.ids.now (in_expression (expression_view expression.now)) cursor }
    requires nothing { frames_in work.old ≡ [] }
    ensures goes { GoesWithin B.meant B.is_plain F.answer C.content W.contents levels result
        (parts.expression (expression_view expression.now))
        (λ x. None) scope out work }
    ensures placed { OnOk result (AreReady scope.new.ids.now work.new) }
{
    if levels == 0 {
        return work.put_off(expression, cursor);
    }
    let inner = innermost(expression);
    match inner {
        Expression::Inline(inline) => {
            write_unbraced(scope, out, work, levels - 1, inline, cursor)
        }
        Expression::Select { .. } => write_select(scope, out, work, levels - 1, inner, cursor),
    }
}

/// Writes what an inline expression gives.
#[cycle(resolve)]
pub(crate) fn write_inline<
    'p,
    's,
    'args,
    W: Write,
    C: FluentType,
    F: FluentFunction<C>,
    B: Context<C>,
>(
    scope: &mut State<'_, 'p, '_, 's, 'args, C, F, B>,
    out: &mut Output<W>,
    work: &mut Work<'p, 'args, 's, C>,
    levels: usize,
    inline: &'p InlineExpression<'s>,
    cursor: Cursor<'p>,
) -> Result<(), Halt>
    requires placed { IsPlaced scope.old.ids.now (in_inline (inline_view inline.now)) cursor }
    requires nothing { frames_in work.old ≡ [] }
    ensures goes { GoesWithin B.meant B.is_plain F.answer C.content W.contents levels result
        (parts.written (inline_view inline.now))
        (λ x. None) scope out work }
    ensures placed { OnOk result (AreReady scope.new.ids.now work.new) }
{
    match inline {
        InlineExpression::Placeable { expression } => {
            write_expression(scope, out, work, levels, expression, cursor)
        }
        _ => write_unbraced(scope, out, work, levels, inline, cursor),
    }
}

/// The expression within all braces that stand round it alone.
#[inline(always)]
pub(crate) fn innermost<'p, 's>(expression: &'p Expression<'s>) -> &'p Expression<'s>
    ensures { expression_view result.now ≡ parts.innermost (expression_view expression.now) }
{
    let mut inner = expression;
    while let Expression::Inline(InlineExpression::Placeable { expression }) = inner {
        inner = expression;
    }
    inner
}

/// Writes the variant of a select that its selector's value goes to.
#[cycle(resolve)]
#[inline(never)]
fn write_select<'p, 's, 'args, W: Write, C: FluentType, F: FluentFunction<C>, B: Context<C>>(
    scope: &mut State<'_, 'p, '_, 's, 'args, C, F, B>,
    out: &mut Output<W>,
    work: &mut Work<'p, 'args, 's, C>,
    levels: usize,
    expression: &'p Expression<'s>,
    cursor: Cursor<'p>,
) -> Result<(), Halt>
    requires select { IsSelect (expression_view expression.now) }
    requires placed { IsPlaced scope.old.ids.now (in_expression (expression_view expression.now)) cursor }
    requires nothing { frames_in work.old ≡ [] }
    ensures goes { Goes B.meant B.is_plain F.answer C.content W.contents result
        (parts.expression (expression_view expression.now))
        (λ x. None) scope out work }
    ensures placed { OnOk result (AreReady scope.new.ids.now work.new) }
{
    match expression {
        Expression::Select { selector, variants } => match selector {
            InlineExpression::VariableReference { id } => {
                let after = passed_inline(cursor, selector);
                let chosen = choose_by_variable(scope, selector, id, variants, after)?;
                write_chosen(scope, out, work, levels, chosen)
            }
            _ => write_by_value(scope, out, work, levels, selector, variants, cursor),
        },
        Expression::Inline(_) => Ok(()),
    }
}

/// The same, where the value has to be made. It stands by itself, as what a call may hold costs at its entry.
#[cycle(resolve)]
#[inline(never)]
fn write_by_value<'p, 's, 'args, W: Write, C: FluentType, F: FluentFunction<C>, B: Context<C>>(
    scope: &mut State<'_, 'p, '_, 's, 'args, C, F, B>,
    out: &mut Output<W>,
    work: &mut Work<'p, 'args, 's, C>,
    levels: usize,
    selector: &'p InlineExpression<'s>,
    variants: &'p Vec<Variant<'s>>,
    cursor: Cursor<'p>,
) -> Result<(), Halt>
    requires placed { IsPlaced scope.old.ids.now
        (in_expression (select (inline_view selector.now) (variants_view variants.now.items))) cursor }
    requires nothing { frames_in work.old ≡ [] }
    ensures goes { Goes B.meant B.is_plain F.answer C.content W.contents result
        (parts.expression (select (inline_view selector.now) (variants_view variants.now.items)))
        (λ x. None) scope out work }
    ensures placed { OnOk result (AreReady scope.new.ids.now work.new) }
{
    let after = passed_inline(cursor, selector);
    match resolve(scope, out, work, levels, selector, cursor)? {
        Some(value) => choose_variant(scope, out, work, levels, variants, after, &value),
        None => work.wait_choose(variants, after),
    }
}

/// Writes the variant that a selector's value goes to, which was made or not: without one it is an error value.
pub(crate) fn choose_given<
    'p,
    's,
    'args,
    W: Write,
    C: FluentType,
    F: FluentFunction<C>,
    B: Context<C>,
>(
    scope: &mut State<'_, 'p, '_, 's, 'args, C, F, B>,
    out: &mut Output<W>,
    work: &mut Work<'p, 'args, 's, C>,
    levels: usize,
    variants: &'p [Variant<'s>],
    cursor: Cursor<'p>,
    given: Option<FluentValue<'p, C>>,
) -> Result<(), Halt>
    requires placed { IsPlaced scope.old.ids.now (in_variants (variants_view variants.now)) cursor }
    requires nothing { frames_in work.old ≡ [] }
    ensures goes { Goes B.meant B.is_plain F.answer C.content W.contents result
        (parts.matched (variants_view variants.now) (selector_value (made C.content given.entry)))
        (λ x. None) scope out work }
    ensures placed { OnOk result (AreReady scope.new.ids.now work.new) }
{
    match given {
        Some(value) => choose_variant(scope, out, work, levels, variants, cursor, &value),
        None => {
            let value = FluentValue::Error;
            choose_variant(scope, out, work, levels, variants, cursor, &value)
        }
    }
}

/// Writes the variant that a value goes to, or else the default.
#[cycle(resolve)]
#[inline(always)]
fn choose_variant<'p, 's, 'args, W: Write, C: FluentType, F: FluentFunction<C>, B: Context<C>>(
    scope: &mut State<'_, 'p, '_, 's, 'args, C, F, B>,
    out: &mut Output<W>,
    work: &mut Work<'p, 'args, 's, C>,
    levels: usize,
    variants: &'p [Variant<'s>],
    cursor: Cursor<'p>,
    value: &FluentValue<'p, C>,
) -> Result<(), Halt>
    requires placed { IsPlaced scope.old.ids.now (in_variants (variants_view variants.now)) cursor }
    requires nothing { frames_in work.old ≡ [] }
    ensures goes { Goes B.meant B.is_plain F.answer C.content W.contents result
        (parts.matched (variants_view variants.now) (value_view C.content value.now))
        (λ x. None) scope out work }
    ensures placed { OnOk result (AreReady scope.new.ids.now work.new) }
{
    let chosen = choose(scope.bundle, value, variants, cursor);
    write_chosen(scope, out, work, levels, chosen)
}

/// Writes a variant that was chosen; an error, where none was. The variant stands on the path for its own placeables where
/// the path is empty.
#[cycle(resolve)]
#[inline(always)]
fn write_chosen<'p, 's, 'args, W: Write, C: FluentType, F: FluentFunction<C>, B: Context<C>>(
    scope: &mut State<'_, 'p, '_, 's, 'args, C, F, B>,
    out: &mut Output<W>,
    work: &mut Work<'p, 'args, 's, C>,
    levels: usize,
    chosen: Option<Chosen<'p, 's>>,
) -> Result<(), Halt>
    requires placed { BeginsAt (numbers scope.old.ids.now) chosen }
    requires nothing { frames_in work.old ≡ [] }
    ensures goes { Goes B.meant B.is_plain F.answer C.content W.contents result
        (parts.chosen (chosen_view chosen.entry))
        (λ x. None) scope out work }
    ensures placed { OnOk result (AreReady scope.new.ids.now work.new) }
{
    match chosen {
        Some(chosen) => {
            if let Some(text) = only_text(chosen.pattern) {
                return write_variant_text(scope, out, chosen.pattern, text);
            }
            let begun = scope.begin(chosen.pattern);
            write_elements(scope, out, work, levels, chosen.pattern, chosen.cursor)?;
            if work.is_done() {
                scope.leave(begun);
                Ok(())
            } else {
                work.wait_leave(begun)
            }
        }
        None => {
            report_no_default(scope)?;
            Ok(())
        }
    }
}

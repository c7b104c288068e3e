//! How numbers and what functions answer are written.
#![tactic(auto, unfolding(crate::specs::Status::state_parts))]

ghost use Rattle.std.specs.Prelude.{◌∷◌, []};
ghost use Rattle.fluent_ast.specs.References.{a_function};
ghost use Rattle.fluent_ast.specs.View.{inline_view};
ghost use Rattle.fluent_semantics.specs.Bundle.{shown};
ghost use Rattle.fluent_semantics.specs.Value.{try_number};
ghost use Rattle.fluent_resolver_state.specs.Happened.{shown_answer};
ghost use Rattle.fluent_bundle_entries.specs.IdNumbers.{IsPlaced};
ghost use Rattle.fluent_values.specs.View.{value_view};
ghost use Rattle.fluent_resolver_state.specs.StateCalls.{Puts, Writes, events_of_answer};

use crate::fallback::put_fallback;
use crate::found::answer_of;
use crate::lost::lose;
use crate::state::State;
use fluent_ast::ast::{Identifier, InlineExpression};
use fluent_references::Cursor;
use fluent_values::output::{Halt, Output};
use fluent_values::shown::put_value;
use fluent_values::{Context, FluentArgs, FluentFunction, FluentType, FluentValue};
use std::io::Write;

/// Writes the number that a literal's source is, as it is shown.
pub fn put_number<W: Write, C: FluentType, B: Context<C>>(
    bundle: &B,
    out: &mut Output<W>,
    source: &str,
) -> Result<(), Halt>
    ensures { Puts W.contents (shown (B.meant bundle.now) (try_number source.now)) result out }
{
    put_value(bundle, out, &FluentValue::try_number(source))
}

/// Writes what a function answers.
pub fn put_answer<'p, W: Write, C: FluentType, F: FluentFunction<C>, B: Context<C>>(
    scope: &mut State<'_, 'p, '_, '_, '_, C, F, B>,
    out: &mut Output<W>,
    inline: &InlineExpression<'_>,
    id: &Identifier<'_>,
    positional: &[FluentValue<'p, C>],
    arguments: &FluentArgs<'p, C>,
    cursor: Cursor<'p>,
) -> Result<(), Halt>
    requires { IsPlaced scope.old.ids.now (a_function id.now.name.now ∷ []) cursor }
    ensures { Writes B.meant B.is_plain F.answer C.content W.contents
        (events_of_answer C.content inline.now id.now.name.now positional.now arguments.now)
        result out scope }
{
    match answer_of(
        scope.ids,
        scope.bundle.allocator(),
        id.name,
        positional,
        arguments,
        cursor,
    )? {
        None => lose(scope, out, inline),
        Some(answer) => put_shown(scope.bundle, out, inline, &answer),
    }
}

/// Writes a function's answer: an error as the function's fallback, without braces.
fn put_shown<W: Write, C: FluentType, B: Context<C>>(
    bundle: &B,
    out: &mut Output<W>,
    inline: &InlineExpression<'_>,
    answer: &FluentValue<'_, C>,
) -> Result<(), Halt>
    ensures { Puts W.contents (shown_answer (B.meant bundle.now) (inline_view inline.now)
        (value_view C.content answer.now)) result out }
{
    match answer {
        FluentValue::Error => put_fallback(out, inline),
        _ => put_value(bundle, out, answer),
    }
}

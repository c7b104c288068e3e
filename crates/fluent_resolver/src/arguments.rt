//! Values: of arguments and of selectors.
#![tactic(auto, unfolding(fluent_resolver_state::specs::Status::state_parts))]

ghost use Rattle.std.specs.Prelude.{◌≡◌, [], IfErr, IfOk, IfSome, None, OnOk};
ghost use Rattle.std.specs.Option.{option_map};
ghost use Rattle.fluent_ast.specs.References.{in_arguments, in_inline};
ghost use Rattle.fluent_ast.specs.Tree.{function};
ghost use Rattle.fluent_ast.specs.View.{arguments_view, inline_view};
ghost use Rattle.fluent_semantics.specs.Ahead.{begins};
ghost use Rattle.fluent_bundle_entries.specs.IdNumbers.{IsPlaced, numbers, table};
ghost use Rattle.fluent_values.specs.View.{named as named_view, value_view};
ghost use Rattle.fluent_resolver_state.specs.Gathered.{gathered, values_of};
ghost use Rattle.fluent_resolver_state.specs.StateCalls.{status};
ghost use Rattle.fluent_resolver.specs.Inside.Held.{StaysPlaced, held};
ghost use Rattle.fluent_resolver.specs.Inside.Parts.{LeadsToText, after_value, next_argument};
ghost use Rattle.fluent_resolver.specs.Inside.Parts as parts;
ghost use Rattle.fluent_resolver.specs.Inside.Waits.{frames_in};
ghost use Rattle.fluent_resolver.specs.Frames.{IsGivenBy, IsPlacedCall, IsPlacedPurpose, gathers, made, use_of, AreReady, Goes, GoesWithin, IsWhole};

use crate::expression::write_inline;
use crate::frame::{Gathering, Purpose, Remaining};
use crate::inline_expression::enter_with_values;
use crate::machine::end_text;
use crate::work::Work;
use fluent_ast::ast::{CallArguments, Identifier, InlineExpression};
use fluent_references::Cursor;
use fluent_resolver_state::found::answer_of;
use fluent_resolver_state::gathered::{Gathered, push_value};
use fluent_resolver_state::laws::events_are_the_run;
use fluent_resolver_state::leaves::{answer_to_leaves, has_leaves_alone};
use fluent_resolver_state::shown::put_answer;
use fluent_resolver_state::texts::{free_text, visit_text};
use fluent_resolver_state::variable::resolve_variable;
use fluent_resolver_state::{State, found};
use fluent_text::unescape_unicode_to_string;
use fluent_values::output::{Halt, Output};
use fluent_values::{Context, FluentArgs, FluentFunction, FluentType, FluentValue};
use std::alloc::AllocError;
use std::borrow::CowStr;
use std::io::Write;
use std::mem;

/// The value of a selector or an argument; none where it was put off, since no level is left or something within it was.
/// What refers to a pattern, and a nested placeable, is the text that it gives, which is kept.
#[cycle(resolve)]
pub(crate) fn resolve<'p, 's, 'args, W: Write, C: FluentType, F: FluentFunction<C>, B: Context<C>>(
    scope: &mut State<'_, 'p, '_, 's, 'args, C, F, B>,
    out: &mut Output<W>,
    work: &mut Work<'p, 'args, 's, C>,
    levels: usize,
    inline: &'p InlineExpression<'s>,
    cursor: Cursor<'p>,
) -> Result<Option<FluentValue<'p, C>>, Halt>
    requires placed { IsPlaced scope.old.ids.now (in_inline (inline_view inline.now)) cursor }
    requires nothing { frames_in work.old ≡ [] }
    ensures goes { GoesWithin B.meant B.is_plain F.answer C.content W.contents levels result
        (parts.resolved (inline_view inline.now))
        (made C.content) scope out work }
    ensures placed { OnOk result (AreReady scope.new.ids.now work.new) }
    ensures whole { IfOk result (λ o. IsWhole o work.new) }
{
    match inline {
        InlineExpression::StringLiteral { value } => {
            let text = unescape_unicode_to_string(scope.bundle.allocator(), value)?;
            Ok(Some(FluentValue::String(text)))
        }
        InlineExpression::NumberLiteral { value } => Ok(Some(FluentValue::try_number(value))),
        InlineExpression::VariableReference { id } => {
            Ok(Some(resolve_variable(scope, inline, id)?))
        }
        _ => {
            if levels == 0 {
                work.put_off_value(inline, cursor)?;
                return Ok(None);
            }
            match inline {
                InlineExpression::FunctionReference { id, arguments } => {
                    if has_leaves_alone(arguments) {
                        return Ok(Some(answer_to_leaves(scope, id, arguments, cursor)?));
                    }
                    give_answer(scope, out, work, levels - 1, id, arguments, cursor)
                }
                _ => give_text(scope, out, work, levels - 1, inline, cursor),
            }
        }
    }
}

/// The text of an inline expression, as a value: that of a reference which leads to one text as it stands, any other is
/// kept.
#[cycle(resolve)]
#[inline(always)]
fn give_text<'p, 's, 'args, W: Write, C: FluentType, F: FluentFunction<C>, B: Context<C>>(
    scope: &mut State<'_, 'p, '_, 's, 'args, C, F, B>,
    out: &mut Output<W>,
    work: &mut Work<'p, 'args, 's, C>,
    levels: usize,
    inline: &'p InlineExpression<'s>,
    cursor: Cursor<'p>,
) -> Result<Option<FluentValue<'p, C>>, Halt>
    requires placed { IsPlaced scope.old.ids.now (in_inline (inline_view inline.now)) cursor }
    requires nothing { frames_in work.old ≡ [] }
    ensures goes { Goes B.meant B.is_plain F.answer C.content W.contents result
        (parts.kept (inline_view inline.now))
        (made C.content) scope out work }
    ensures placed { OnOk result (AreReady scope.new.ids.now work.new) }
    ensures whole { IfOk result (λ o. IsWhole o work.new) }
{
    match text_led_to(scope, inline, cursor) {
        Some(text) => {
            // A law does nothing when it is called: its clauses go into the proof.
            events_are_the_run();
            Ok(Some(visit_text(scope, text)?))
        }
        None => keep_text(scope, out, work, levels, inline, cursor),
    }
}

/// The text of the pattern that a reference leads to, where it is one text that isn't being written. Of a term with
/// arguments, whose values may have to be made, nothing is said.
#[inline(always)]
fn text_led_to<'p, 's, C: FluentType, F: FluentFunction<C>, B: Context<C>>(
    scope: &State<'_, 'p, '_, 's, '_, C, F, B>,
    inline: &InlineExpression<'s>,
    cursor: Cursor<'p>,
) -> Option<&'s str>
    requires { IsPlaced scope.now.ids.now (in_inline (inline_view inline.now)) cursor }
    ensures { IfSome result (λ text. LeadsToText (status B.meant B.is_plain F.answer C.content scope.now)
        (inline_view inline.now) text.now) }
{
    match inline {
        InlineExpression::MessageReference { id, attribute } => {
            free_text(scope, found::message(scope.ids, id.name, attribute, cursor))
        }
        InlineExpression::TermReference {
            id,
            attribute,
            arguments,
        } => match arguments {
            None => free_text(scope, found::term(scope.ids, id.name, attribute, cursor)),
            Some(_) => None,
        },
        _ => None,
    }
}

/// A function's answer, as a value. It stands by itself, as what a call may hold costs at its entry.
#[cycle(resolve)]
#[inline(never)]
fn give_answer<'p, 's, 'args, W: Write, C: FluentType, F: FluentFunction<C>, B: Context<C>>(
    scope: &mut State<'_, 'p, '_, 's, 'args, C, F, B>,
    out: &mut Output<W>,
    work: &mut Work<'p, 'args, 's, C>,
    levels: usize,
    id: &'p Identifier<'s>,
    arguments: &'p CallArguments<'s>,
    cursor: Cursor<'p>,
) -> Result<Option<FluentValue<'p, C>>, Halt>
    requires placed { IsPlaced scope.old.ids.now (in_inline (function id.now.name.now (arguments_view arguments.now))) cursor }
    requires nothing { frames_in work.old ≡ [] }
    ensures goes { Goes B.meant B.is_plain F.answer C.content W.contents result
        (parts.resolved (function id.now.name.now (arguments_view arguments.now)))
        (made C.content) scope out work }
    ensures placed { OnOk result (AreReady scope.new.ids.now work.new) }
    ensures whole { IfOk result (λ o. IsWhole o work.new) }
{
    let purpose = Purpose::Give { id, cursor };
    let at = cursor.after_one();
    begin_call(scope, out, work, levels, purpose, arguments, at)
}

/// The text of an inline expression, which is kept.
#[cycle(resolve)]
#[inline(never)]
fn keep_text<'p, 's, 'args, W: Write, C: FluentType, F: FluentFunction<C>, B: Context<C>>(
    scope: &mut State<'_, 'p, '_, 's, 'args, C, F, B>,
    out: &mut Output<W>,
    work: &mut Work<'p, 'args, 's, C>,
    levels: usize,
    inline: &'p InlineExpression<'s>,
    cursor: Cursor<'p>,
) -> Result<Option<FluentValue<'p, C>>, Halt>
    requires placed { IsPlaced scope.old.ids.now (in_inline (inline_view inline.now)) cursor }
    requires nothing { frames_in work.old ≡ [] }
    ensures goes { Goes B.meant B.is_plain F.answer C.content W.contents result
        (parts.kept (inline_view inline.now))
        (made C.content) scope out work }
    ensures placed { OnOk result (AreReady scope.new.ids.now work.new) }
    ensures whole { IfOk result (λ o. IsWhole o work.new) }
{
    let outer = mem::replace(&mut *out.kept, String::new(scope.bundle.allocator()));
    let was_kept = out.is_kept;
    out.is_kept = true;
    write_inline(scope, out, work, levels, inline, cursor)?;
    if work.is_done() {
        return Ok(Some(end_text(out, outer, was_kept)));
    }
    work.wait_value(outer, was_kept)?;
    Ok(None)
}

/// What the arguments of a call are for, once they are gathered; no value where something was put off.
#[cycle(resolve)]
#[inline(always)]
pub(crate) fn begin_call<
    'p,
    's,
    'args,
    W: Write,
    C: FluentType,
    F: FluentFunction<C>,
    B: Context<C>,
>(
    scope: &mut State<'_, 'p, '_, 's, 'args, C, F, B>,
    out: &mut Output<W>,
    work: &mut Work<'p, 'args, 's, C>,
    levels: usize,
    purpose: Purpose<'p, 's>,
    arguments: &'p CallArguments<'s>,
    cursor: Cursor<'p>,
) -> Result<Option<FluentValue<'p, C>>, Halt>
    requires purpose { IsPlacedPurpose (numbers scope.old.ids.now) (table scope.old.ids.now) purpose }
    requires placed { IsPlaced scope.old.ids.now (in_arguments (arguments_view arguments.now)) cursor }
    requires nothing { frames_in work.old ≡ [] }
    ensures goes { Goes B.meant B.is_plain F.answer C.content W.contents result
        (parts.calls (use_of purpose.entry) (arguments_view arguments.now))
        (made C.content) scope out work }
    ensures placed { OnOk result (AreReady scope.new.ids.now work.new) }
    ensures whole { IfOk result (λ o. IsWhole o work.new) }
    ensures given { IfOk result (IsGivenBy purpose.entry) }
{
    let alloc = scope.bundle.allocator();
    let gathering = Gathering {
        purpose,
        positional: Vec::with_capacity(alloc, arguments.positional.len())?,
        named: Gathered::new(alloc, arguments.named.len()),
        remaining: Remaining {
            arguments,
            taken: 0,
            taken_named: 0,
            cursor,
        },
    };
    gather(scope, out, work, levels, gathering)
}

/// Goes on with a call, whose next argument has this value, if one was made.
pub(crate) fn go_on<'p, 's, 'args, W: Write, C: FluentType, F: FluentFunction<C>, B: Context<C>>(
    scope: &mut State<'_, 'p, '_, 's, 'args, C, F, B>,
    out: &mut Output<W>,
    work: &mut Work<'p, 'args, 's, C>,
    levels: usize,
    gathering: Box<Gathering<'p, 's, C>>,
    given: Option<FluentValue<'p, C>>,
) -> Result<Option<FluentValue<'p, C>>, Halt>
    requires placed { IsPlacedCall (numbers scope.old.ids.now) (table scope.old.ids.now) gathering.value }
    requires nothing { frames_in work.old ≡ [] }
    ensures goes { Goes B.meant B.is_plain F.answer C.content W.contents result
        (gathers C.content gathering.entry.value (made C.content given.entry))
        (made C.content) scope out work }
    ensures placed { OnOk result (AreReady scope.new.ids.now work.new) }
{
    let mut gathering = Box::into_inner(gathering);
    if let Some(value) = given {
        take(&mut gathering, value)?;
    }
    gather(scope, out, work, levels, gathering)
}

/// Gathers the arguments of a call that are left, and does what they are for.
#[cycle(resolve)]
#[inline(always)]
fn gather<'p, 's, 'args, W: Write, C: FluentType, F: FluentFunction<C>, B: Context<C>>(
    scope: &mut State<'_, 'p, '_, 's, 'args, C, F, B>,
    out: &mut Output<W>,
    work: &mut Work<'p, 'args, 's, C>,
    levels: usize,
    gathering: Gathering<'p, 's, C>,
) -> Result<Option<FluentValue<'p, C>>, Halt>
    requires placed { IsPlacedCall (numbers scope.old.ids.now) (table scope.old.ids.now) gathering }
    requires nothing { frames_in work.old ≡ [] }
    ensures goes { Goes B.meant B.is_plain F.answer C.content W.contents result
        (gathers C.content gathering.entry None)
        (made C.content) scope out work }
    ensures placed { OnOk result (AreReady scope.new.ids.now work.new) }
    ensures whole { IfOk result (λ o. IsWhole o work.new) }
    ensures given { IfOk result (IsGivenBy gathering.entry.purpose) }
{
    let mut gathering = gathering;
    while let Some(inline) = next(&gathering) {
        let cursor = gathering.remaining.cursor;
        match resolve(scope, out, work, levels, inline, cursor)? {
            Some(value) => take(&mut gathering, value)?,
            None => {
                work.hold(gathering)?;
                return Ok(None);
            }
        }
    }
    finish(scope, out, work, levels, gathering)
}

/// Gives the next argument of a call its value.
///
/// # Errors
///
/// An allocation failed.
#[inline(always)]
fn take<'p, 's, C: FluentType>(
    gathering: &mut Gathering<'p, 's, C>,
    value: FluentValue<'p, C>,
) -> Result<(), AllocError>
    ensures held { OnOk result (held C.content gathering.new
        ≡ after_value (held C.content gathering.old) (value_view C.content value.entry)) }
    ensures purpose { gathering.new.purpose ≡ gathering.old.purpose }
    ensures placed { OnOk result (StaysPlaced gathering.old gathering.new) }
{
    let arguments = gathering.remaining.arguments;
    if let Some(first) = arguments.positional.get(gathering.remaining.taken) {
        push_value(&mut gathering.positional, value)?;
        gathering.remaining.cursor = gathering.remaining.cursor.after_inline(first);
        gathering.remaining.taken += 1;
    } else if let Some(first) = arguments.named.get(gathering.remaining.taken_named) {
        gathering
            .named
            .set(CowStr::Borrowed(first.name.name), value)?;
        gathering.remaining.cursor = gathering.remaining.cursor.after_inline(&first.value);
        gathering.remaining.taken_named += 1;
    }
    Ok(())
}

/// The next argument of a call, if one is left.
#[inline(always)]
fn next<'p, 's, C: FluentType>(gathering: &Gathering<'p, 's, C>) -> Option<&'p InlineExpression<'s>>
    ensures { option_map (λ x. inline_view x.now) result ≡ next_argument (held C.content gathering.now) }
{
    let arguments = gathering.remaining.arguments;
    if let Some(first) = arguments.positional.get(gathering.remaining.taken) {
        return Some(first);
    }
    match arguments.named.get(gathering.remaining.taken_named) {
        Some(first) => Some(&first.value),
        None => None,
    }
}

/// Does what the arguments of a call are for, of which none is left.
#[cycle(resolve)]
#[inline(always)]
fn finish<'p, 's, 'args, W: Write, C: FluentType, F: FluentFunction<C>, B: Context<C>>(
    scope: &mut State<'_, 'p, '_, 's, 'args, C, F, B>,
    out: &mut Output<W>,
    work: &mut Work<'p, 'args, 's, C>,
    levels: usize,
    gathering: Gathering<'p, 's, C>,
) -> Result<Option<FluentValue<'p, C>>, Halt>
    requires placed { IsPlacedPurpose (numbers scope.old.ids.now) (table scope.old.ids.now) gathering.purpose }
    requires nothing { frames_in work.old ≡ [] }
    ensures goes { Goes B.meant B.is_plain F.answer C.content W.contents result
        (λ b k v. begins (use_of gathering.entry.purpose (values_of C.content gathering.entry.positional)
        (gathered C.content gathering.entry.named) b k v))
        (made C.content) scope out work }
    ensures placed { OnOk result (AreReady scope.new.ids.now work.new) }
    ensures whole { IfOk result (λ o. IsWhole o work.new) }
    ensures given { IfOk result (IsGivenBy gathering.entry.purpose) }
{
    let Gathering {
        purpose,
        positional,
        named,
        remaining: _,
    } = gathering;
    let args = named.finish(scope.bundle.allocator())?;
    use_values(scope, out, work, levels, purpose, positional, args)
}

/// Does what the values of arguments are for.
#[cycle(resolve)]
#[inline(always)]
fn use_values<'p, 's, 'args, W: Write, C: FluentType, F: FluentFunction<C>, B: Context<C>>(
    scope: &mut State<'_, 'p, '_, 's, 'args, C, F, B>,
    out: &mut Output<W>,
    work: &mut Work<'p, 'args, 's, C>,
    levels: usize,
    purpose: Purpose<'p, 's>,
    positional: Vec<FluentValue<'p, C>>,
    args: FluentArgs<'p, C>,
) -> Result<Option<FluentValue<'p, C>>, Halt>
    requires placed { IsPlacedPurpose (numbers scope.old.ids.now) (table scope.old.ids.now) purpose }
    requires nothing { frames_in work.old ≡ [] }
    ensures goes { Goes B.meant B.is_plain F.answer C.content W.contents result
        (λ b k v. begins (use_of purpose.entry (values_of C.content positional.entry)
        (named_view C.content args.entry) b k v))
        (made C.content) scope out work }
    ensures placed { OnOk result (AreReady scope.new.ids.now work.new) }
    ensures whole { IfOk result (λ o. IsWhole o work.new) }
    ensures given { IfOk result (IsGivenBy purpose.entry) }
{
    match purpose {
        Purpose::Show { inline, id, cursor } => {
            put_answer(scope, out, inline, id, &positional, &args, cursor)?;
            Ok(None)
        }
        Purpose::Give { id, cursor } => {
            let alloc = scope.bundle.allocator();
            match answer_of(scope.ids, alloc, id.name, &positional, &args, cursor)? {
                Some(answer) => Ok(Some(answer)),
                None => Ok(Some(FluentValue::Error)),
            }
        }
        Purpose::Local { inline, id, found } => {
            enter_with_values(scope, out, work, levels, inline, id, found, args)?;
            Ok(None)
        }
        Purpose::Hand => {
            work.give(positional, args)?;
            Ok(None)
        }
    }
}

//! Which variant of a select a value goes to.
#![tactic(auto, unfolding(crate::specs::Status::state_parts))]

ghost use Rattle.std.specs.Prelude.{◌≡◌, [], IfOk, IsTrue};
ghost use Rattle.fluent_ast.specs.References.{variants_view};
ghost use Rattle.fluent_ast.specs.Tree.{variable};
ghost use Rattle.fluent_ast.specs.View.{inline_view, pattern_view, key_view};
ghost use Rattle.fluent_semantics.specs.Bundle.{goes_to};
ghost use Rattle.fluent_semantics.specs.Value.{try_number};
ghost use Rattle.fluent_resolver_state.specs.Choice.{choice, first_default, is_like};
ghost use Rattle.fluent_resolver_state.specs.ChosenView.{BeginsIn, chosen, chosen_view, has_key, is_like_value};
ghost use Rattle.fluent_resolver_state.specs.Locals.{literal_value, locals_view, value_of};
ghost use Rattle.fluent_resolver_state.specs.Status.{environment_view};
ghost use Rattle.fluent_semantics.specs.Walk.{local};
ghost use Rattle.fluent_values.specs.View.{value_view};
ghost use Rattle.fluent_resolver_state.specs.StateCalls.{Chooses};

use crate::environment::Environment;
use crate::locals::{Locals, literal, literal_value};
use crate::lost::report_lost;
use crate::state::State;
use crate::variable::argument;
use fluent_ast::ast::{Identifier, InlineExpression, Pattern, Variant, VariantKey};
use fluent_intl::FluentNumber;
use fluent_references::Cursor;
use fluent_semantics::laws::numbers_read_as_defined;
use fluent_values::{Context, FluentFunction, FluentType, FluentValue};
use std::alloc::AllocError;
use std::str::FromStr;

/// The pattern of a variant that was chosen, and where it begins.
#[derive(Clone, Copy, Drop)]
pub struct Chosen<'p, 's> {
    pub pattern: &'p Pattern<'s>,
    pub cursor: Cursor<'p>,
}

impl<'p, 's> Chosen<'p, 's> {
    /// A variant, whose pattern begins there.
    fn of(variant: &'p Variant<'s>, cursor: Cursor<'p>) -> Self
        ensures pattern { pattern_view result.pattern.now ≡ pattern_view variant.now.value }
        ensures cursor { result.cursor ≡ cursor.entry }
    {
        Chosen {
            pattern: &variant.value,
            cursor,
        }
    }
}

/// The variant that a variable's value goes to. One that is missing goes to the default, with the error that it has
/// where it is written. In a term that was given no arguments, as most are, none has a value: this costs no call.
#[inline(always)]
pub fn choose_by_variable<'p, 's, C: FluentType, F: FluentFunction<C>, B: Context<C>>(
    scope: &mut State<'_, 'p, '_, 's, '_, C, F, B>,
    selector: &InlineExpression<'_>,
    id: &Identifier<'_>,
    variants: &'p [Variant<'s>],
    cursor: Cursor<'p>,
) -> Result<Option<Chosen<'p, 's>>, AllocError>
    requires { inline_view selector.now ≡ variable id.now.name.now }
    ensures chose { Chooses B.meant B.is_plain F.answer C.content selector.now id.now.name.now variants.now result
        scope }
    ensures placed { IfOk result (λ chosen. BeginsIn variants.now cursor.entry chosen) }
{
    if is_bare(&scope.environment) {
        return Ok(first_default(variants, cursor));
    }
    choose_by_given(scope, selector, id, variants, cursor)
}

/// Whether variables are looked up in a term that was given no arguments.
#[inline(always)]
fn is_bare<C: FluentType>(environment: &Environment<'_, '_, '_, C>) -> bool
    ensures { IsTrue result → environment_view C.content environment.now ≡ local [] }
{
    match environment {
        Environment::Local(locals) => matches!(locals, Locals::Literals(None)),
        Environment::Application(_) => false,
    }
}

/// The same where there are arguments of the application or of a term.
#[inline(never)]
fn choose_by_given<'p, 's, C: FluentType, F: FluentFunction<C>, B: Context<C>>(
    scope: &mut State<'_, 'p, '_, 's, '_, C, F, B>,
    selector: &InlineExpression<'_>,
    id: &Identifier<'_>,
    variants: &'p [Variant<'s>],
    cursor: Cursor<'p>,
) -> Result<Option<Chosen<'p, 's>>, AllocError>
    requires { inline_view selector.now ≡ variable id.now.name.now }
    ensures chose { Chooses B.meant B.is_plain F.answer C.content selector.now id.now.name.now variants.now result
        scope }
    ensures placed { IfOk result (λ chosen. BeginsIn variants.now cursor.entry chosen) }
{
    match &scope.environment {
        Environment::Local(locals) => choose_local(scope.bundle, locals, id.name, variants, cursor),
        Environment::Application(args) => match argument(*args, id.name) {
            Some(value) => Ok(choose(scope.bundle, value, variants, cursor)),
            None => {
                report_lost(scope, selector)?;
                Ok(first_default(variants, cursor))
            }
        },
    }
}

/// The variant that the value of a term's argument goes to; where there is none, the first default.
#[inline(always)]
fn choose_local<'p, 's, C: FluentType, B: Context<C>>(
    bundle: &B,
    locals: &Locals<'_, '_, C>,
    name: &str,
    variants: &'p [Variant<'s>],
    cursor: Cursor<'p>,
) -> Result<Option<Chosen<'p, 's>>, AllocError>
    ensures chose { IfOk result (λ o. chosen_view o ≡ chosen (goes_to (B.meant bundle.now)
        (value_of name.now (locals_view C.content locals.now))) variants.now) }
    ensures placed { IfOk result (BeginsIn variants.now cursor.entry) }
{
    match locals {
        Locals::Values(args) => match args.get(name) {
            Some(value) => Ok(choose(bundle, value, variants, cursor)),
            None => Ok(first_default(variants, cursor)),
        },
        Locals::Literals(arguments) => match literal(*arguments, name) {
            Some(found) => choose_by_literal(bundle, found, variants, cursor),
            None => Ok(first_default(variants, cursor)),
        },
    }
}

/// The variant that a literal's value goes to. It stands by itself, as what a call may hold costs at its entry.
#[inline(never)]
fn choose_by_literal<'p, 's, C: FluentType, B: Context<C>>(
    bundle: &B,
    literal: &InlineExpression<'_>,
    variants: &'p [Variant<'s>],
    cursor: Cursor<'p>,
) -> Result<Option<Chosen<'p, 's>>, AllocError>
    ensures chose { IfOk result (λ o. chosen_view o ≡ chosen (goes_to (B.meant bundle.now)
        (literal_value (inline_view literal.now))) variants.now) }
    ensures placed { IfOk result (BeginsIn variants.now cursor.entry) }
{
    let value = literal_value::<C>(bundle.allocator(), literal)?;
    Ok(choose(bundle, &value, variants, cursor))
}

/// The first variant whose key matches a value, else the first default. What category a number has is asked once.
pub fn choose<'p, 's, C: FluentType, B: Context<C>>(
    bundle: &B,
    value: &FluentValue<'_, C>,
    variants: &'p [Variant<'s>],
    cursor: Cursor<'p>,
) -> Option<Chosen<'p, 's>>
    ensures chose { chosen_view result
        ≡ chosen (goes_to (B.meant bundle.now) (value_view C.content value.now)) variants.now }
    ensures placed { BeginsIn variants.now cursor.entry result }
{
    match value {
        FluentValue::String(text) => first_like(text.as_str(), None, variants, cursor),
        FluentValue::Number(number) => first_like(
            bundle.category_word(number),
            Some(number),
            variants,
            cursor,
        ),
        FluentValue::Custom(_) | FluentValue::None | FluentValue::Error => {
            first_default(variants, cursor)
        }
    }
}

/// The first variant whose key is a word, or a number like that one; else the first default.
fn first_like<'p, 's>(
    word: &str,
    number: Option<&FluentNumber>,
    variants: &'p [Variant<'s>],
    cursor: Cursor<'p>,
) -> Option<Chosen<'p, 's>>
    ensures chose { chosen_view result ≡ chosen (has_key word.now number.entry) variants.now }
    ensures placed { BeginsIn variants.now cursor.entry result }
{
    let mut at = cursor;
    for variant in variants {
        if is_like(word, number, &variant.key) {
            return Some(Chosen::of(variant, at));
        }
        at = at.after_pattern(&variant.value);
    }
    first_default(variants, cursor)
}

/// Whether a key is a word, or a number like that one.
fn is_like(word: &str, number: Option<&FluentNumber>, key: &VariantKey) -> bool
    ensures { result ≡ has_key word.now number.entry (key_view key.now) }
{
    match key {
        VariantKey::Identifier { name } => *name == word,
        VariantKey::NumberLiteral { value } => is_source_like(word, number, value),
    }
}

/// Whether the source of a key is that of a number like this one, or, where it is no number's, this word.
fn is_source_like(word: &str, number: Option<&FluentNumber>, source: &str) -> bool
    ensures { result ≡ is_like_value word.now number.entry (try_number source.now) }
{
    // A law does nothing when it is called: its clauses go into the proof.
    numbers_read_as_defined();
    match FluentNumber::from_str(source) {
        Ok(key) => match number {
            Some(number) => key == *number,
            None => false,
        },
        Err(_) => source == word,
    }
}

/// The first default among variants.
fn first_default<'p, 's>(variants: &'p [Variant<'s>], cursor: Cursor<'p>) -> Option<Chosen<'p, 's>>
    ensures chose { chosen_view result ≡ first_default (variants_view variants.now) }
    ensures placed { BeginsIn variants.now cursor.entry result }
{
    let mut at = cursor;
    for variant in variants {
        if variant.default {
            return Some(Chosen::of(variant, at));
        }
        at = at.after_pattern(&variant.value);
    }
    None
}

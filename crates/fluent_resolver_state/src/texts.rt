//! Texts: as they stand, which needs no scope, and as a bundle changes them.
#![tactic(auto, unfolding(crate::specs::Status::state_parts))]

ghost use Rattle.std.specs.Prelude.{◌≡◌, ◌≢◌, ◌++◌, Err, IfSome, IsTrue, OnOk, Some, string_bytes};
ghost use Rattle.std.specs.Option.{option_map};
ghost use Rattle.fluent_text.specs.Taken.{TookPrefix};
ghost use Rattle.fluent_values.specs.Shown.{Writes};
ghost use Rattle.fluent_values.specs.Sinks.{GoesThrough};
ghost use Rattle.fluent_ast.specs.View.{pattern_view};
ghost use Rattle.fluent_bundle_entries.specs.Texts.{sole_text, texts_of};
ghost use Rattle.fluent_resolver_state.specs.FoundView.{IsFreeText, IsLed};
ghost use Rattle.fluent_resolver_state.specs.StateCalls.{GivesText, Puts, status};

use crate::found::Found;
use crate::state::State;
use fluent_ast::ast::{Pattern, PatternElement};
pub use fluent_bundle_entries::is_text;
use fluent_text::{Counting, WriteFault, put};
use fluent_values::output::{Halt, Output, put_text};
use fluent_values::{Context, FluentFunction, FluentType, FluentValue};
use std::alloc::AllocError;
use std::borrow::CowStr;
use std::io::Write;

/// The text of a pattern that is one text.
#[inline(always)]
pub fn only_text<'s>(pattern: &Pattern<'s>) -> Option<&'s str>
    ensures { option_map (λ t. t.now) result ≡ sole_text (pattern_view pattern.now) }
{
    match pattern.elements.as_slice() {
        [element] => match element {
            PatternElement::TextElement { value } => Some(*value),
            PatternElement::Placeable { .. } => None,
        },
        _ => None,
    }
}

/// Writes the texts of a pattern as they stand, in order, and none of its placeables.
pub fn write_texts<W: Write>(w: &mut Counting<W>, pattern: &Pattern) -> Result<(), WriteFault>
    ensures took { Writes W.contents result (texts_of (pattern_view pattern.now)) w.old w.new }
    ensures memory { result ≢ Err WriteFault.Memory }
{
    for element in &pattern.elements {
        match element {
            PatternElement::TextElement { value } => put(w, value.as_bytes())?,
            PatternElement::Placeable { .. } => {}
        }
    }
    Ok(())
}

/// Adds them at the end of a text.
///
/// # Errors
///
/// An allocation failed: then a prefix of them was added.
pub fn push_texts(out: &mut String, pattern: &Pattern) -> Result<(), AllocError>
    ensures whole { OnOk result (string_bytes out.new
        ≡ string_bytes out.old ++ texts_of (pattern_view pattern.now)) }
    ensures prefix { TookPrefix (Some (string_bytes out.old)) (Some (string_bytes out.new))
        (texts_of (pattern_view pattern.now)) }
{
    for element in &pattern.elements {
        match element {
            PatternElement::TextElement { value } => out.push_str(value)?,
            PatternElement::Placeable { .. } => {}
        }
    }
    Ok(())
}

/// Writes what a text element is changed to.
pub fn put_changed<W: Write, C: FluentType, F: FluentFunction<C>, B: Context<C>>(
    scope: &State<'_, '_, '_, '_, '_, C, F, B>,
    out: &mut Output<W>,
    text: &str,
) -> Result<(), Halt>
    ensures took { Puts W.contents ((B.meant scope.now.bundle.now).transform text.now) result out }
    ensures memory { IsTrue (B.is_plain scope.now.bundle.now) → GoesThrough out.old →
        result ≢ Err Halt.Memory }
{
    let changed = scope.bundle.change(text)?;
    put_text(out, &changed)
}

/// The text of a pattern that a reference leads to, where it is one text that isn't being written.
#[inline(always)]
pub fn free_text<'p, 's, C: FluentType, F: FluentFunction<C>, B: Context<C>>(
    scope: &State<'_, 'p, '_, 's, '_, C, F, B>,
    found: Found<'p, 's>,
) -> Option<&'s str>
    requires { IsLed scope.now.ids.now found }
    ensures { IfSome result (λ text. IsFreeText
        (status B.meant B.is_plain F.answer C.content scope.now).path found.entry text.now) }
{
    match found {
        Found::Pattern(target) => {
            let text = only_text(target.pattern)?;
            if scope.is_on(target.pattern, target.class) {
                return None;
            }
            Some(text)
        }
        Found::Unknown => None,
        Found::WithoutValue => None,
    }
}

/// The text of such a pattern as a value: it is entered and left at once, as nothing stands on it.
#[inline(always)]
pub fn visit_text<'p, 's: 'p, C: FluentType, F: FluentFunction<C>, B: Context<C>>(
    scope: &mut State<'_, 'p, '_, 's, '_, C, F, B>,
    text: &'s str,
) -> Result<FluentValue<'p, C>, AllocError>
    ensures { GivesText B.meant B.is_plain F.answer C.content text.now result scope }
{
    scope.visit();
    if scope.dirty() {
        return Ok(FluentValue::String(CowStr::Borrowed("")));
    }
    let bundle: &'p B = scope.bundle;
    Ok(FluentValue::String(bundle.change(text)?))
}

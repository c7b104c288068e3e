//! A bundle by the tag of a language, or by the texts of its rules.
ghost use Rattle.std.specs.Prelude.{◌≡◌, [], false, is_some, IfOk, IfErr};
ghost use Rattle.fluent_plural_rules.specs.RuleTexts.{IsParse, category_of};
ghost use Rattle.fluent_c_handles.specs.Answers.{NotOpenedByTag, OpenedByTag, bundle_view, language_rules, new_bundle};
ghost use Rattle.fluent_c_handles.specs.Calls.Opening.{NotOpenedByRules, OpenedByRules};
ghost use Rattle.fluent_c_handles.specs.Inside.Rules.{HasRules, IsNoTag, IsUnset};

use fluent_answers::{AskedFormatter, AskedFunction, AskedTransform, OwnValue};
use fluent_bundle::FluentBundle;
use fluent_plural_rules::{RuleFault, RuleTexts};
use std::alloc::{AllocError, Global};
use std::str;

/// A bundle whose functions, formatter and transform are those of the caller, by what was answered in a call.
pub(crate) type Asking<'r, 's> = FluentBundle<
    'r,
    's,
    RuleTexts,
    OwnValue,
    AskedFunction,
    AskedFormatter,
    AskedTransform,
>;

/// Why no bundle was made.
#[derive(Clone, Copy, Debug, Drop, PartialEq, Eq)]
pub enum OpenFault {
    /// The tag, or a text of rules, is not UTF-8.
    NotText,
    /// The texts of plural rules could not be read.
    Rules(RuleFault),
    /// An allocation failed.
    Memory,
}

/// No tag of the Unicode CLDR is as long as this. One that is longer has no rules, whatever it is.
const LONGEST_TAG: usize = 35;

/// A bundle, and whether there are rules for the tag by which it was opened.
pub(crate) struct Opened<'r, 's> {
    pub bundle: Asking<'r, 's>,
    pub is_known: bool,
}

/// A bundle with the plural rules of a language, by its tag, and perhaps the built-in function. Where there are no rules for the
/// tag it has those of the root, by which each number is `other`.
///
/// # Errors
///
/// As [`OpenFault`] says, but for `Rules`: those of a language can be read.
pub(crate) fn open<'r, 's>(
    alloc: Global,
    tag: &[u8],
    isolate: bool,
    bare: bool,
) -> Result<Opened<'r, 's>, OpenFault>
    ensures ok { IfOk result (λ opened. OpenedByTag tag.now isolate bare (bundle_view opened.bundle)) }
    ensures unset { IfOk result (λ opened. IsUnset opened.bundle) }
    ensures known { IfOk result (λ opened. opened.is_known ≡ is_some (language_rules tag.now)) }
    ensures err { IfErr result (NotOpenedByTag tag.now) }
{
    let (plurals, is_known) = match plurals_of(alloc, tag) {
        Ok(found) => found,
        Err(fault) => return Err(fault),
    };
    match with_plurals(alloc, plurals, isolate, bare) {
        Ok(bundle) => Ok(Opened { bundle, is_known }),
        Err(AllocError) => Err(OpenFault::Memory),
    }
}

/// The plural rules of a language, by its tag, or those of the root, and whether there are some for the tag.
fn plurals_of(alloc: Global, tag: &[u8]) -> Result<(RuleTexts, bool), OpenFault>
    ensures ok { IfOk result (λ found. HasRules tag.now found.0) }
    ensures known { IfOk result (λ found. found.1 ≡ is_some (language_rules tag.now)) }
    ensures err { IfErr result (IsNoTag tag.now) }
{
    if tag.len() > LONGEST_TAG {
        return root(alloc);
    }
    let Ok(tag) = str::from_utf8(tag) else {
        return Err(OpenFault::NotText);
    };
    match RuleTexts::of_language(tag) {
        Some(plurals) => Ok((plurals, true)),
        None => root(alloc),
    }
}

/// The rules of the root: none, so that each number is `other`.
fn root(alloc: Global) -> Result<(RuleTexts, bool), OpenFault>
    ensures ok { IfOk result (λ found. IsParse [] [] (Ok found.0)) }
    ensures known { IfOk result (λ found. found.1 ≡ false) }
    ensures err { IfErr result (λ _. ⊥) }
{
    match RuleTexts::parse(alloc, "", "") {
        Ok(plurals) => Ok((plurals, false)),
        // No rules can always be read, and take no memory.
        Err(_) => Err(OpenFault::Memory),
    }
}

/// A bundle with the plural rules of two texts, as [`RuleTexts::parse`] reads them, and the built-in function alone.
///
/// # Errors
///
/// As [`OpenFault`] says.
pub(crate) fn open_by_rules<'r, 's>(
    alloc: Global,
    cardinal: &[u8],
    ordinal: &[u8],
    isolate: bool,
) -> Result<Asking<'r, 's>, OpenFault>
    ensures ok { IfOk result (λ b. OpenedByRules cardinal.now ordinal.now isolate (bundle_view b)) }
    ensures unset { IfOk result IsUnset }
    ensures err { IfErr result (NotOpenedByRules cardinal.now ordinal.now) }
{
    let (Ok(cardinal), Ok(ordinal)) = (str::from_utf8(cardinal), str::from_utf8(ordinal)) else {
        return Err(OpenFault::NotText);
    };
    match RuleTexts::parse(alloc, cardinal, ordinal) {
        Ok(plurals) => match with_plurals(alloc, plurals, isolate, false) {
            Ok(bundle) => Ok(bundle),
            Err(AllocError) => Err(OpenFault::Memory),
        },
        Err(fault) => Err(OpenFault::Rules(fault)),
    }
}

/// A bundle with these plural rules and the built-in function alone, or bare, without it.
fn with_plurals<'r, 's>(
    alloc: Global,
    plurals: RuleTexts,
    isolate: bool,
    bare: bool,
) -> Result<Asking<'r, 's>, AllocError>
    ensures is { IfOk result (λ bundle. bundle_view bundle ≡ new_bundle (category_of plurals) isolate bare) }
    ensures unset { IfOk result IsUnset }
{
    let mut bundle = FluentBundle::new(alloc, Vec::new(alloc), plurals);
    bundle.set_use_isolating(isolate);
    if bare {
        return Ok(bundle);
    }
    match bundle.add_builtins() {
        Ok(()) => Ok(bundle),
        // All ids are free, so it is an allocation that failed.
        Err(_) => Err(AllocError),
    }
}

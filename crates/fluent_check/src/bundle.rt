//! Bundles of sources.
ghost use Rattle.std.specs.Prelude.{◌≡◌, IfOk, OnOk, map};
ghost use Rattle.fluent_places.specs.Asked.{texts};
ghost use Rattle.fluent_patterns.specs.Languages.{language_rules};
ghost use Rattle.fluent_check.specs.Bundles.{AddsBundle, adding, bundle_view, resource_bundle};
ghost use Rattle.fluent_sources.specs.Reading.{entries_of_all};
ghost use Rattle.fluent_sources.specs.Groups.{entries_loaded, group_view};
ghost use Rattle.fluent_check.specs.Languages.{adding_all, all_of, start_of};
ghost use Rattle.fluent_sources.specs.ReadFiles.{entries_in, file_view};

use crate::called::add_functions;
use fluent_bundle::{
    AddFault, FluentBundle, FluentResource, NoCustom, NoFormatter, NoFunction, NoTransform,
};
use fluent_plural_rules::{LanguageRules, RuleTexts, cldr_plurals, rules_for};
use fluent_sources::files::Read;
use fluent_sources::groups::Group;
use std::alloc::{AllocError, Global};

/// The rules of a language that has none.
const NO_RULES: LanguageRules<'static> = LanguageRules {
    cardinal: "",
    ordinal: "",
};

/// A bundle with the plural rules of a language, to which an application adds nothing of its own.
pub type Bundle<'r, 's> = FluentBundle<
    'r,
    's,
    RuleTexts,
    NoCustom,
    NoFunction,
    NoFormatter,
    NoTransform,
>;

/// The plural rules of a language by its tag; none where the Unicode CLDR has none.
fn plurals_of(alloc: Global, tag: &str) -> Result<RuleTexts, AllocError>
    ensures { IfOk result (λ rules. rules ≡ language_rules tag.now) }
{
    let texts = rules_for(cldr_plurals(), tag).unwrap_or(NO_RULES);
    match RuleTexts::parse(alloc, texts.cardinal, texts.ordinal) {
        Ok(rules) => Ok(rules),
        // All of CLDR's rules can be read, so an allocation failed.
        Err(_) => Err(AllocError),
    }
}

/// A bundle with the built-in function alone.
fn start<'r, 's>(alloc: Global, tag: &str) -> Result<Bundle<'r, 's>, AllocError>
    ensures { IfOk result (λ bundle. bundle_view bundle ≡ start_of tag.now) }
{
    let mut bundle = FluentBundle::new(alloc, Vec::new(alloc), plurals_of(alloc, tag)?);
    match bundle.add_builtins() {
        Ok(()) => Ok(bundle),
        // All ids are free, so an allocation failed.
        Err(_) => Err(AllocError),
    }
}

/// Adds a resource. What has the id of an entry before it is left.
fn add<'r, 's>(
    bundle: &mut Bundle<'r, 's>,
    resource: &'r FluentResource<'s>,
) -> Result<(), AllocError>
    ensures { OnOk result
        (bundle_view bundle.new ≡ adding resource.now (bundle_view bundle.old)) }
{
    match bundle.add_resource(resource) {
        Ok(()) | Err(AddFault::Overriding(_)) => Ok(()),
        Err(AddFault::Memory) => Err(AllocError),
    }
}

/// Adds resources in order.
fn add_resources<'r, 's>(
    bundle: &mut Bundle<'r, 's>,
    resources: &'r [FluentResource<'s>],
) -> Result<(), AllocError>
    ensures { OnOk result
        (bundle_view bundle.new ≡ adding_all (entries_of_all resources.now) (bundle_view bundle.old)) }
{
    for resource in resources {
        add(bundle, resource)?;
    }
    Ok(())
}

/// A bundle of one resource, with functions of an application, and resources that are loaded before it.
fn bundle_with<'r, 's>(
    alloc: Global,
    tag: &str,
    functions: &[&str],
    beside: &'r [FluentResource<'s>],
    resource: &'r FluentResource<'s>,
) -> Result<Bundle<'r, 's>, AllocError>
    ensures { IfOk result
        (λ bundle. bundle_view bundle ≡ resource_bundle tag.now (texts functions.now) (entries_of_all beside.now) resource.now) }
{
    let mut bundle = start(alloc, tag)?;
    add_functions(&mut bundle, functions)?;
    add_resources(&mut bundle, beside)?;
    add(&mut bundle, resource)?;
    Ok(bundle)
}

/// Adds files in order.
fn add_files<'r, 's>(bundle: &mut Bundle<'r, 's>, files: &[Read<'r, 's>]) -> Result<(), AllocError>
    ensures { OnOk result
        (bundle_view bundle.new ≡ adding_all (entries_in (map file_view files.now)) (bundle_view bundle.old)) }
{
    for file in files {
        add(bundle, file.resource)?;
    }
    Ok(())
}

/// A bundle of the files of a group.
#[tactic(auto, using(crate::proofs::Added::added_both))]
pub(crate) fn bundle_of_group<'r, 's>(
    alloc: Global,
    tag: &str,
    group: &Group<'_, 'r, 's>,
) -> Result<Bundle<'r, 's>, AllocError>
    ensures { IfOk result (λ b. bundle_view b ≡ all_of tag.now (entries_loaded (group_view group.now))) }
{
    let mut bundle = start(alloc, tag)?;
    add_files(&mut bundle, group.beside)?;
    add_files(&mut bundle, group.own)?;
    Ok(bundle)
}

/// Adds a bundle of one more resource.
fn add_bundle<'r, 's>(
    alloc: Global,
    tag: &str,
    functions: &[&str],
    beside: &'r [FluentResource<'s>],
    resource: &'r FluentResource<'s>,
    bundles: &mut Vec<Bundle<'r, 's>>,
) -> Result<(), AllocError>
    ensures { OnOk result (AddsBundle tag.now (texts functions.now) (entries_of_all beside.now) resource.now bundles.old bundles.new) }
{
    let bundle = bundle_with(alloc, tag, functions, beside, resource)?;
    bundles.push(bundle)?;
    Ok(())
}

/// A bundle of each of these resources, with functions that an application adds, and with those that are loaded before each.
pub fn bundles_of<'r, 's>(
    alloc: Global,
    tag: &str,
    functions: &[&str],
    beside: &'r [FluentResource<'s>],
    resources: &'r [FluentResource<'s>],
) -> Result<Vec<Bundle<'r, 's>>, AllocError>
    ensures { IfOk result
        (λ list. map bundle_view list.items ≡ map (resource_bundle tag.now (texts functions.now) (entries_of_all beside.now)) resources.now) }
{
    let mut bundles = Vec::new(alloc);
    for resource in resources {
        add_bundle(alloc, tag, functions, beside, resource, &mut bundles)?;
    }
    Ok(bundles)
}

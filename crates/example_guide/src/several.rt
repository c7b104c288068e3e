//! Texts in the languages that somebody reads.
use crate::showing::show_errors;
use fluent_bundle::{
    FluentArgs, FluentBundle, FluentResource, FluentValue, NoCustom, NoFormatter, NoFunction,
};
use fluent_catalog::{Catalog, Report, add_source, read_source};
use fluent_langneg::negotiate;
use fluent_plural_rules::RuleTexts;
use std::borrow::CowStr;
use std::fmt::Display;
use std::io;
use std::io::ErrorKind;

/// The bundle of a language.
type Texts<'r, 's> = FluentBundle<'r, 's, RuleTexts, NoCustom, NoFunction, NoFormatter>;

/// The languages that there are.
const TAGS: [&str; 2] = ["en", "pl"];

/// Their texts.
const SOURCES: [&str; 2] = [
    "bye = Goodbye!
letters = { $count ->
    [one] { $count } letter
   *[other] { $count } letters
 }
",
    "bye =
letters = { $count ->
    [one] { $count } list
    [few] { $count } listy
   *[many] { $count } listów
 }
",
];

/// Shows texts in the languages that somebody reads, of those that there are.
pub fn show_several(rt: &HostRuntime, requested: &[&str]) -> io::Result<()> {
    let mut resources = Vec::new(rt.alloc());
    let mut reports = Vec::new(rt.alloc());
    for place in negotiate(rt.alloc(), requested, &TAGS, "en")? {
        if let (Some(tag), Some(source)) = (TAGS.get(place), SOURCES.get(place)) {
            let resource = read_source(rt.alloc(), *tag, *source, &mut reports)?;
            resources.push((*tag, resource))?;
        }
    }
    show_from(rt, resources.as_slice(), reports)
}

/// Shows texts of these resources; bundles borrow them, so what makes bundles is handed them.
fn show_from<'s>(
    rt: &HostRuntime,
    resources: &[(&'s str, FluentResource<'s>)],
    mut reports: Vec<Report<'s>>,
) -> io::Result<()> {
    let mut catalog = Catalog::new(rt.alloc());
    for (tag, resource) in resources {
        let plurals = RuleTexts::of_language(*tag).ok_or(ErrorKind::Unsupported)?;
        let mut texts: Texts<'_, 's> = FluentBundle::new(rt.alloc(), Vec::new(rt.alloc()), plurals);
        add_source(&mut texts, *tag, resource, &mut reports)?;
        catalog.push(*tag, texts)?;
    }
    show_reports(rt, reports.as_slice())?;
    show_letters(rt, &catalog)
}

/// Shows two texts, each in the first language that has it.
fn show_letters<'r, 's: 'r>(rt: &HostRuntime, catalog: &Languages<'r, 's>) -> io::Result<()> {
    let mut args = FluentArgs::new(rt.alloc());
    args.set(CowStr::Borrowed("count"), FluentValue::from(3))?;
    let mut errors = Vec::new(rt.alloc());
    for id in ["letters", "bye"] {
        let text = catalog.format_value(id, Some(&args), &mut errors)?;
        println!(rt; "{}", text.as_str())?;
    }
    show_errors(rt, errors.as_slice())
}

/// The texts of this program.
type Languages<'r, 's> = Catalog<'r, 's, RuleTexts, NoCustom, NoFunction, NoFormatter>;

/// Shows what is wrong with the sources.
fn show_reports(rt: &HostRuntime, reports: &[Report<'_>]) -> io::Result<()> {
    for report in reports {
        match report {
            Report::Unreadable(tag, errors) => show_each(rt, *tag, errors.as_slice())?,
            Report::Left(tag, errors) => show_each(rt, *tag, errors.as_slice())?,
        }
    }
    Ok(())
}

/// Shows errors of a language, each on a line.
fn show_each<E: Display>(rt: &HostRuntime, tag: &str, errors: &[E]) -> io::Result<()> {
    for error in errors {
        println!(rt; "{tag}: {error}")?;
    }
    Ok(())
}

//! The texts of the program, with what its messages need.
use crate::date::{Date, Dates};
use crate::functions::Upper;
use crate::letters::show_letters;
use crate::pseudo::Pseudo;
use anyhow::{Context, Result};
use fluent_bundle::{FluentBundle, FluentResource};
use fluent_catalog::{Catalog, Report, add_source};
use fluent_plural_rules::RuleTexts;
use std::fmt::Display;

/// The bundle of a language.
type Bundle<'r, 's> = FluentBundle<'r, 's, RuleTexts, Date, Upper, Dates, Pseudo>;

/// The texts of this program.
pub type Texts<'r, 's> = Catalog<'r, 's, RuleTexts, Date, Upper, Dates, Pseudo>;

/// Shows the texts of these resources, the first language first.
pub fn show_from<'s>(
    rt: &HostRuntime,
    resources: &[(&'static str, FluentResource<'s>)],
    mut reports: Vec<Report<'s>>,
    is_pseudo: bool,
) -> Result<()> {
    let alloc = rt.alloc();
    let mut texts = Catalog::new(alloc);
    for (tag, resource) in resources {
        let plurals = RuleTexts::of_language(*tag).context("no such language")?;
        let mut bundle: Bundle<'_, 's> = FluentBundle::new(alloc, Vec::new(alloc), plurals);
        bundle.set_formatter(Some(Dates::of(*tag)));
        bundle.set_transform(if is_pseudo { Some(Pseudo) } else { None });
        bundle.set_use_isolating(false);
        bundle.add_builtins().ok().context("not added")?;
        bundle
            .add_function("UPPER", Upper)
            .ok()
            .context("not added")?;
        add_source(&mut bundle, *tag, resource, &mut reports)?;
        texts.push(*tag, bundle)?;
    }
    show_reports(rt, reports.as_slice())?;
    show_letters(rt, &texts)
}

/// Shows what is wrong with the sources.
fn show_reports(rt: &HostRuntime, reports: &[Report<'_>]) -> Result<()> {
    for report in reports {
        match report {
            Report::Unreadable(tag, errors) => show_each(rt, *tag, errors.as_slice())?,
            Report::Left(tag, errors) => show_each(rt, *tag, errors.as_slice())?,
        }
    }
    Ok(())
}

/// Shows errors of a language or a message, each on a line.
pub fn show_each<E: Display>(rt: &HostRuntime, of: &str, errors: &[E]) -> Result<()> {
    for error in errors {
        println!(rt; "  ({of}: {error})")?;
    }
    Ok(())
}

//! The plural rules of a language.
use crate::bundle::show_left;
use crate::showing::show;
use fluent_bundle::{
    FluentArgs, FluentBundle, FluentResource, FluentValue, NoCustom, NoFormatter, NoFunction,
};
use fluent_plural_rules::RuleTexts;
use std::borrow::CowStr;
use std::io;
use std::io::ErrorKind;

/// A bundle with the plural rules of a language.
type Bundle<'r, 's> = FluentBundle<'r, 's, RuleTexts, NoCustom, NoFunction, NoFormatter>;

/// Shows a Polish message with numbers.
pub fn show_plurals(rt: &HostRuntime, resource: &FluentResource<'_>) -> io::Result<()> {
    let alloc = rt.alloc();
    let plurals = RuleTexts::of_language("pl").ok_or(ErrorKind::Unsupported)?; // "ar", "cy-GB" ..
    let mut bundle: Bundle<'_, '_> = FluentBundle::new(alloc, Vec::new(alloc), plurals);
    show_left(rt, bundle.add_resource(resource))?;

    let mut args = FluentArgs::new(alloc);
    for count in [1, 2, 5, 22] {
        args.set(CowStr::Borrowed("count"), FluentValue::from(count))?;
        show(rt, &bundle, "files", Some(&args))?;
    }
    Ok(())
}

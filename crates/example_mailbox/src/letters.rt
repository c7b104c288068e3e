//! What the program says of somebody's letters.
use crate::date::Date;
use crate::texts::{Texts, show_each};
use anyhow::Result;
use fluent_bundle::{FluentArgs, FluentValue};
use std::borrow::CowStr;

/// Shows a text, and what went wrong in it.
fn show<'r, 's: 'r>(
    rt: &HostRuntime,
    texts: &Texts<'r, 's>,
    id: &str,
    args: &FluentArgs<'_, Date>,
) -> Result<()> {
    let mut errors = Vec::new(rt.alloc());
    let text = texts
        .chain()
        .format_value_owned(rt.alloc(), id, Some(args), &mut errors)?;
    println!(rt; "{id}: {text}")?;
    show_each(rt, id, errors.as_slice())
}

/// Shows what the program says of somebody's letters.
pub fn show_letters<'r, 's: 'r>(rt: &HostRuntime, texts: &Texts<'r, 's>) -> Result<()> {
    let date = Date {
        year: 2026,
        month: 11,
        day: 7,
    };
    let mut args = FluentArgs::new(rt.alloc());
    args.set(CowStr::Borrowed("user"), FluentValue::from("Łukasz"))?;
    args.set(CowStr::Borrowed("sender"), FluentValue::from("Zoë"))?;
    args.set(CowStr::Borrowed("used"), FluentValue::try_number("1.5"))?;
    args.set(CowStr::Borrowed("total"), FluentValue::from(15))?;
    args.set(CowStr::Borrowed("date"), FluentValue::Custom(date))?;
    for count in [0, 1, 3, 25] {
        args.set(CowStr::Borrowed("count"), FluentValue::from(count))?;
        show(rt, texts, "unread", &args)?;
    }
    for id in [
        "welcome",
        "quota",
        "received",
        "position",
        "signature",
        "goodbye",
    ] {
        show(rt, texts, id, &args)?;
    }
    Ok(())
}

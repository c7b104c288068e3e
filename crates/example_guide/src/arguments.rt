//! The arguments of a message.
use crate::bundle::English;
use crate::showing::show;
use fluent_bundle::{FluentArgs, FluentValue};
use std::borrow::CowStr;
use std::io;

/// Shows messages with a text and with numbers.
pub fn show_arguments(rt: &HostRuntime, bundle: &English<'_, '_>) -> io::Result<()> {
    let mut args = FluentArgs::new(rt.alloc());
    args.set(CowStr::Borrowed("name"), FluentValue::from("John"))?;
    args.set(CowStr::Borrowed("count"), FluentValue::from(1))?;
    show(rt, bundle, "intro", Some(&args))?;
    show(rt, bundle, "emails", Some(&args))?;
    args.set(CowStr::Borrowed("count"), FluentValue::from(3))?;
    show(rt, bundle, "emails", Some(&args))
}

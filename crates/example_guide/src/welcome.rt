//! A text in a program.
use fluent_bundle::{
    EnglishPlurals, FluentArgs, FluentBundle, FluentResource, FluentValue, NoCustom, NoFormatter,
    NoFunction, TryNewFault,
};
use std::alloc::AllocError;
use std::borrow::CowStr;
use std::io;
use std::io::ErrorKind;

/// Reads a source of one message.
pub fn show_welcome(rt: &HostRuntime) -> io::Result<()> {
    match FluentResource::try_new(rt.alloc(), "intro = Welcome, { $name }.") {
        Ok(resource) => welcome(rt, &resource, "John"),
        Err(TryNewFault::Parser(_, _)) => Err(ErrorKind::InvalidData.into()),
        Err(TryNewFault::Memory) => Err(AllocError.into()),
    }
}

/// Welcomes somebody by the message `intro`.
fn welcome(rt: &HostRuntime, resource: &FluentResource<'_>, name: &str) -> io::Result<()> {
    let mut bundle: FluentBundle<EnglishPlurals, NoCustom, NoFunction, NoFormatter> =
        FluentBundle::new_default(rt.alloc())?;
    if bundle.add_resource(resource).is_err() {
        return Err(io::Error::other("not added"));
    }
    let mut args = FluentArgs::new(rt.alloc());
    args.set(CowStr::Borrowed("name"), FluentValue::from(name))?;
    let mut errors = Vec::new(rt.alloc());
    if let Some(text) = bundle.format_value("intro", Some(&args), &mut errors)? {
        println!(rt; "{}", text.as_str())?;
    }
    Ok(())
}

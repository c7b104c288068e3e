//! A bundle with the messages of a resource.
use crate::reading::read;
use crate::showing::{show, show_errors};
use fluent_bundle::{
    AddFault, EnglishPlurals, FluentBundle, FluentResource, NoCustom, NoFormatter, NoFunction,
};
use std::alloc::AllocError;
use std::io;

/// A bundle in English, with nothing of the application's own.
pub type English<'r, 's> = FluentBundle<'r, 's, EnglishPlurals, NoCustom, NoFunction, NoFormatter>;

/// A bundle in English with the messages of a resource.
pub fn english_bundle<'r, 's>(
    rt: &HostRuntime,
    resource: &'r FluentResource<'s>,
) -> io::Result<English<'r, 's>> {
    let mut bundle = FluentBundle::new_default(rt.alloc())?;
    show_left(rt, bundle.add_resource(resource))?;
    Ok(bundle)
}

/// Shows what was not added, since its id was there.
pub fn show_left(rt: &HostRuntime, added: Result<(), AddFault>) -> io::Result<()> {
    match added {
        Ok(()) => Ok(()),
        Err(AddFault::Overriding(errors)) => show_errors(rt, errors.as_slice()),
        Err(AddFault::Memory) => Err(AllocError.into()),
    }
}

/// Adds a message whose id is there, and then puts it in place of the one that was there.
pub fn show_twice(rt: &HostRuntime, resource: &FluentResource<'_>) -> io::Result<()> {
    let later = read(rt, "hello = Hi!")?;
    let mut bundle = english_bundle(rt, resource)?;
    show_left(rt, bundle.add_resource(&later))?;
    show(rt, &bundle, "hello", None)?;
    bundle.add_resource_overriding(&later)?;
    show(rt, &bundle, "hello", None)
}

//! Reading a resource.
use fluent_bundle::{FluentResource, TryNewFault};
use std::alloc::AllocError;
use std::io;

/// Reads a source, and shows what of it can't be read. The rest of it is there all the same.
pub fn read<'s>(rt: &HostRuntime, source: &'s str) -> io::Result<FluentResource<'s>> {
    match FluentResource::try_new(rt.alloc(), source) {
        Ok(resource) => Ok(resource),
        Err(TryNewFault::Parser(resource, errors)) => {
            for error in &errors {
                println!(rt; "{error}")?;
            }
            Ok(resource)
        }
        Err(TryNewFault::Memory) => Err(AllocError.into()),
    }
}

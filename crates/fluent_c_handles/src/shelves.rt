//! Resources and the sources that they were read from, kept for a bundle.
ghost use Rattle.std.specs.Prelude.{◌≡◌, IfSome};
ghost use Rattle.self_borrow.specs.Loans.{AreFor};
ghost use Rattle.fluent_resource.specs.ResourceView.{IsReadWith};

use fluent_bundle::{FluentResource, ParserError};
use self_borrow::{Lifetime, Loan, Shelf};
use std::alloc::Global;
use std::mem;

/// Resources, and the sources that they borrow.
#[derive(Drop)]
pub(crate) struct Shelves<'r, 's> {
    resources: Shelf<'r, FluentResource<'s>>,
    sources: Shelf<'s, String>,
}

impl<'r, 's: 'r> Shelves<'r, 's> {
    /// Nothing is kept. Takes no memory.
    pub fn new(alloc: Global) -> Shelves<'r, 's> {
        Shelves {
            resources: Shelf::new(alloc),
            sources: Shelf::new(alloc),
        }
    }

    /// Reads a source, of which a copy is kept, and keeps the resource. It comes with an error for each part that can't be
    /// read. `None` where an allocation failed.
    pub fn read(
        &mut self,
        alloc: Global,
        source: &str,
    ) -> Option<(&'r FluentResource<'s>, Vec<ParserError>)>
        ensures { IfSome result (λ read. IsReadWith source.now read.0.now read.1) }
    {
        let source = self.keep_source(alloc, source)?;
        let (resource, errors) = FluentResource::read(alloc, source).ok()?;
        let resource = self.keep_resource(alloc, resource)?;
        Some((resource, errors))
    }

    /// What is kept, once nothing borrows it.
    pub fn into_parts(
        self,
    ) -> (
        Lifetime<'r>,
        Vec<Loan<FluentResource<'s>, Global>>,
        Shelf<'s, String>,
    )
        ensures { AreFor result.0.life result.1.items }
    {
        let Shelves { resources, sources } = self;
        let (lifetime, resources) = resources.into_loans();
        (lifetime, resources, sources)
    }

    /// Keeps a copy of a source.
    fn keep_source(&mut self, alloc: Global, source: &str) -> Option<&'s str>
        ensures { IfSome result (λ copy. copy.now ≡ source.now) }
    {
        let copy = String::from_str(alloc, source).ok()?;
        let copy = Box::new(alloc, copy).ok()?;
        let shelf = mem::replace(&mut self.sources, Shelf::new(alloc));
        let (shelf, kept) = shelf.put(copy);
        self.sources = shelf;
        Some(kept?.as_str())
    }

    /// Keeps a resource.
    fn keep_resource(
        &mut self,
        alloc: Global,
        resource: FluentResource<'s>,
    ) -> Option<&'r FluentResource<'s>>
        ensures { IfSome result (λ kept. kept.now ≡ resource.entry) }
    {
        let resource = Box::new(alloc, resource).ok()?;
        let shelf = mem::replace(&mut self.resources, Shelf::new(alloc));
        let (shelf, kept) = shelf.put(resource);
        self.resources = shelf;
        kept
    }
}

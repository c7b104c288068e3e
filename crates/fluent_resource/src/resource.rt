//! A source with what was read from it.
#![tactic(auto, unfolding(crate::specs::ResourceView::source_in, crate::specs::ResourceView::entries_of))]

ghost use Rattle.std.specs.Prelude.{◌≡◌, ◌≢◌, [], map, IfOk, OnErr};
ghost use Rattle.std.specs.Option.{option_map};
ghost use Rattle.std.specs.List.{slice_get};
ghost use Rattle.std.specs.Slice.Iter.{iter_rest};
ghost use Rattle.fluent_ast.specs.View.{entry_view};
ghost use Rattle.fluent_resource.specs.ResourceView.{IsReadWith, Tried, entries_of, source_in};

use fluent_syntax::{ParseFault, ParserError, ast, parse_runtime};
use std::alloc::{AllocError, Global};
use std::slice::Iter;

/// An FTL source and its entries.
#[derive(Debug)]
pub struct FluentResource<'s> {
    source: &'s str,
    body: ast::Resource<'s>,
}

// Written out, so that the drop of each part of a tree is proved here, and not in each crate that a resource goes out
// of scope in.
impl Drop for FluentResource<'_> {
    fn drop(self) {
        let FluentResource { source: _, body: _ } = self;
    }
}

/// Why a source gave no resource, or not a clean one.
#[derive(Debug, Drop)]
pub enum TryNewFault<'s> {
    /// Parts of the source can't be read. The resource is whole and usable, with a Junk for each error.
    Parser(FluentResource<'s>, Vec<ParserError>),
    /// An allocation failed.
    Memory,
}

/// The entries of a resource from the start.
pub type Entries<'x, 's> = Iter<'x, ast::Entry<'s>>;

impl<'s> FluentResource<'s> {
    /// Reads a source (Fluent Syntax 1.0).
    ///
    /// # Errors
    ///
    /// `Parser` where the source holds Junk, with the resource and an error for each Junk, in order;
    /// `Memory` where an allocation failed, which an empty source can't meet.
    pub fn try_new(alloc: Global, source: &'s str) -> Result<FluentResource<'s>, TryNewFault<'s>>
        ensures { Tried source.now result }
    {
        match parse_runtime(alloc, source) {
            Ok(body) => Ok(FluentResource { source, body }),
            Err(ParseFault::Parser(body, errors)) => {
                Err(TryNewFault::Parser(FluentResource { source, body }, errors))
            }
            Err(ParseFault::Memory) => Err(TryNewFault::Memory),
        }
    }

    /// Reads a source, and keeps what can be read of it: the resource, and an error for each Junk, in order.
    ///
    /// # Errors
    ///
    /// An allocation failed, which an empty source can't meet.
    pub fn read(
        alloc: Global,
        source: &'s str,
    ) -> Result<(FluentResource<'s>, Vec<ParserError>), AllocError>
        ensures read { IfOk result (λ read. IsReadWith source.now read.0 read.1) }
        ensures memory { OnErr result (source.now ≢ []) }
    {
        match FluentResource::try_new(alloc, source) {
            Ok(resource) => Ok((resource, Vec::new(alloc))),
            Err(TryNewFault::Parser(resource, errors)) => Ok((resource, errors)),
            Err(TryNewFault::Memory) => Err(AllocError),
        }
    }

    /// The text that the resource was read from.
    pub fn source(&self) -> &'s str
        ensures { result.now ≡ source_in self.now }
    {
        self.source
    }

    /// The entries in order. Junk counts as an entry, comments do not.
    pub fn entries(&self) -> Entries<'_, 's>
        ensures { map entry_view (iter_rest result) ≡ entries_of self.now }
    {
        self.body.body.iter()
    }

    /// The entry at an index, or `None` past the end. Junk counts as an entry.
    pub fn get_entry(&self, index: usize) -> Option<&ast::Entry<'s>>
        ensures { option_map (λ e. entry_view e.now) result
            ≡ slice_get (entries_of self.now) index }
    {
        self.body.body.get(index)
    }

    /// The entries as a slice. Junk counts as an entry, comments do not.
    pub fn all(&self) -> &[ast::Entry<'s>]
        ensures { map entry_view result.now ≡ entries_of self.now }
    {
        self.body.body.as_slice()
    }
}

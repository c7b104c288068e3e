//! Classes: numbers of the contents of patterns.
ghost use Rattle.std.specs.Prelude.{◌≡◌, [], IfOk, OnOk, OnErr, map};
ghost use Rattle.fluent_ast.specs.View.{pattern_view};
ghost use Rattle.fluent_references.specs.Classes.{AreDistinct, Grows, HasClass};
ghost use Rattle.fluent_references.specs.Inside.Content.{content};

use crate::stored::Stored;
use fluent_ast::ast::Pattern;
use indexmap::IndexSet;
use std::alloc::{AllocError, Global};

/// The contents of the patterns that are stored, each once. A content's class is its index among them, so that patterns
/// of equal classes are equal.
#[derive(Drop)]
pub struct Classes<'r, 's> {
    stored: IndexSet<Stored<'r, 's>>,
    ghost distinct: { AreDistinct (map content stored.keys) },
}

impl<'r, 's> Classes<'r, 's> {
    ghost use Rattle.fluent_references.specs.Inside.Adding.{AddsClass};
    ghost use Rattle.fluent_references.specs.Table.{table};

    /// No content yet.
    pub fn new(alloc: Global) -> Self
        ensures { table result ≡ [] }
    {
        Classes {
            stored: IndexSet::new(alloc),
        }
    }

    /// The class of a pattern, a new one where its content is new. Every other content keeps its class.
    ///
    /// # Errors
    ///
    /// An allocation failed, or there are 2^32 classes: no content is added.
    pub fn class_of(&mut self, pattern: &'r Pattern<'s>) -> Result<u32, AllocError>
        ensures class { IfOk result (λ c. HasClass (table self.new) c (pattern_view pattern.now)) }
        ensures kept { Grows (table self.old) (table self.new) }
        ensures alloc_failed { OnErr result (table self.new ≡ table self.old) }
        ensures stored { OnOk result (AddsClass self.old self.new pattern.now) }
    {
        if self.stored.len() > u32::MAX as usize {
            return Err(AllocError);
        }
        let (class, _) = self.stored.insert_full(Stored { pattern })?;
        Ok(class as u32)
    }
}

//! What is kept of a stored pattern.
ghost use Rattle.std.specs.Prelude.{◌≡◌, [], None, IfOk, IsOk, OnErr, OnOk};
ghost use Rattle.fluent_ast.specs.Tree.{Text};
ghost use Rattle.fluent_ast.specs.ReferencesOf.{references_of};
ghost use Rattle.fluent_references.specs.Inside.Adding.{AddsContent, AddsPrefix, AddsSlots};
ghost use Rattle.fluent_references.specs.Links.{KeepsNumbers};
ghost use Rattle.fluent_references.specs.Classes.{Grows};
ghost use Rattle.fluent_references.specs.Cursors.{seen};
ghost use Rattle.fluent_references.specs.Slots.{named, number, slots as slots_of};
ghost use Rattle.fluent_references.specs.Table.{table};

use crate::classes::Classes;
use crate::cursor::Cursor;
use crate::linking::link_pattern;
use crate::slots::Slots;
use fluent_ast::ast::Pattern;
use std::alloc::{AllocError, Global};

/// What is kept of a stored pattern: the numbers of the ids that it refers to, in the order of the tree, and, where it
/// refers to any, the number of its content among all that do.
#[derive(Drop)]
pub struct Linked {
    class: Option<u32>,
    links: Vec<u32>,
}

impl Linked {
    ghost use Rattle.fluent_references.specs.Linked.{class_of, links_of, IsBeforeAll, IsLinkedBy};

    /// The class of its content, if it has one.
    pub fn class(&self) -> Option<u32>
        ensures { result ≡ class_of self.now }
    {
        self.class
    }

    /// The cursor before all that it refers to.
    pub fn cursor(&self) -> Cursor<'_>
        ensures links { seen result ≡ links_of self.now }
        ensures before { IsBeforeAll self.now (seen result) }
    {
        Cursor::from_links(&self.links)
    }

    /// Links a pattern that is going to be stored: each id that it refers to gets a number, and the pattern its class,
    /// where there are such ids. One that refers to nothing has none, takes no memory, and never fails. What ids
    /// name stays.
    ///
    /// # Errors
    ///
    /// An allocation failed, or there are 2^32 numbers or classes: each id still has its number and each content its
    /// class, and the call can be made again.
    pub fn link<'r, 's, X: Drop>(
        alloc: Global,
        slots: &mut Slots<'s, X>,
        classes: &mut Classes<'r, 's>,
        pattern: &'r Pattern<'s>,
    ) -> Result<Linked, AllocError>
        ensures linked { IfOk result (IsLinkedBy slots.new classes.new pattern.now) }
        ensures numbers { KeepsNumbers (number (slots_of slots.old)) (number (slots_of slots.new)) }
        ensures named { (q : Text) → named q (slots_of slots.new) ≡ named q (slots_of slots.old) }
        ensures classes { Grows (table classes.old) (table classes.new) }
        // Each reference has a slot, and the content a class, where it refers to anything.
        ensures slots { OnOk result (AddsSlots slots.old slots.new (references_of pattern.now)) }
        ensures stored { OnOk result (AddsContent classes.old classes.new pattern.now) }
        // Where it refers to nothing, no memory is asked for, and it has no class.
        ensures succeeds { references_of pattern.now ≡ [] → IsOk result }
        ensures classless { references_of pattern.now ≡ [] → IfOk result (λ l. class_of l ≡ None) }
        // The first references may have slots, but no content is stored.
        ensures begun { OnErr result (AddsPrefix slots.old slots.new (references_of pattern.now)) }
        ensures alloc_failed { OnErr result (table classes.new ≡ table classes.old) }
    {
        let mut links = Vec::new(alloc);
        link_pattern(&mut links, slots, pattern)?;
        if links.is_empty() {
            return Ok(Linked { class: None, links });
        }
        let class = classes.class_of(pattern)?;
        Ok(Linked {
            class: Some(class),
            links,
        })
    }
}

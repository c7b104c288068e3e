//! Cursors among the links of a pattern, and how they pass over its parts.
ghost use Rattle.std.specs.Prelude.{◌≡◌, []};
ghost use Rattle.fluent_ast.specs.ReferencesOf.{of_arguments, of_element, of_inline, of_inlines, references_of};
ghost use Rattle.fluent_references.specs.Links.{past, next};
ghost use Rattle.fluent_references.specs.Cursors.{first_of, seen};

use crate::passing::{
    pass_arguments, pass_element, pass_inline, pass_one, pass_pattern, pass_positional,
};
use fluent_ast::ast::{CallArguments, InlineExpression, Pattern, PatternElement};

/// Where a part of a pattern stands among the links of the whole: the links from it on. Where there are none, ids are
/// looked up. (A slice alone goes in registers; in an `Option`, through memory, calls took up to three times as long.)
#[derive(Clone, Copy, Drop)]
pub struct Cursor<'b> {
    links: &'b [u32],
}

impl<'b> Cursor<'b> {
    /// Every id is looked up.
    pub fn by_name() -> Self
        ensures { seen result ≡ [] }
    {
        Cursor { links: &[] }
    }

    /// Before these links.
    pub fn from_links(links: &'b [u32]) -> Self
        ensures { seen result ≡ links.now }
    {
        Cursor { links }
    }

    /// The number of the reference that comes next. Where there is none, its id is looked up.
    pub fn first(&self) -> Option<u32>
        ensures { result ≡ first_of (seen self.now) }
    {
        self.links.first().copied()
    }

    /// After one reference.
    pub fn after_one(self) -> Self
        ensures { seen result ≡ next (seen self.entry) }
    {
        Cursor::from_links(pass_one(self.links))
    }

    /// After a pattern.
    pub fn after_pattern(self, pattern: &Pattern<'_>) -> Self
        ensures { seen result ≡ past (references_of pattern.now) (seen self.entry) }
    {
        Cursor::from_links(pass_pattern(self.links, pattern))
    }

    /// After an element of a pattern.
    pub fn after_element(self, element: &PatternElement<'_>) -> Self
        ensures { seen result ≡ past (of_element element.now) (seen self.entry) }
    {
        Cursor::from_links(pass_element(self.links, element))
    }

    /// After an inline expression.
    pub fn after_inline(self, inline: &InlineExpression<'_>) -> Self
        ensures { seen result ≡ past (of_inline inline.now) (seen self.entry) }
    {
        Cursor::from_links(pass_inline(self.links, inline))
    }

    /// After positional arguments.
    pub fn after_positional(self, positional: &[InlineExpression<'_>]) -> Self
        ensures { seen result ≡ past (of_inlines positional.now) (seen self.entry) }
    {
        Cursor::from_links(pass_positional(self.links, positional))
    }

    /// After the arguments of a function or a term.
    pub fn after_arguments(self, arguments: &CallArguments<'_>) -> Self
        ensures { seen result ≡ past (of_arguments arguments.now) (seen self.entry) }
    {
        Cursor::from_links(pass_arguments(self.links, arguments))
    }
}

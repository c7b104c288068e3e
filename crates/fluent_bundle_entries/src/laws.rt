//! Laws: `==` of each type of error is true exactly for equal contents; and rows of a definition.
ghost use Rattle.std.specs.Prelude.{◌≡◌, ◌↔◌, IsTrue};
ghost use Rattle.fluent_bundle_entries.specs.ErrorView.{kind_view, reference_view, resolver_error_view, error_view};
ghost use Rattle.fluent_bundle_entries.specs.TextRows.{Rows};

use crate::errors::{EntryKind, FluentError, ReferenceKind, ResolverError};

/// Kinds of entries are equal where they are one kind.
pub fn equal_kinds(one: &EntryKind, two: &EntryKind) -> bool
    ensures { IsTrue result ↔ (kind_view one.now ≡ kind_view two.now) }
{
    one == two
}

/// References are equal where they are of one kind, to one id and one attribute.
pub fn equal_references(one: &ReferenceKind, two: &ReferenceKind) -> bool
    ensures { IsTrue result ↔ (reference_view one.now ≡ reference_view two.now) }
{
    one == two
}

/// Errors of the resolver are equal where their contents are.
pub fn equal_resolver_errors(one: &ResolverError, two: &ResolverError) -> bool
    ensures { IsTrue result ↔ (resolver_error_view one.now ≡ resolver_error_view two.now) }
{
    one == two
}

/// Errors are equal where their contents are.
pub fn equal_errors(one: &FluentError, two: &FluentError) -> bool
    ensures { IsTrue result ↔ (error_view one.now ≡ error_view two.now) }
{
    one == two
}

/// Which patterns are texts alone, and what of a pattern is text.
pub fn patterns_of_texts()
    ensures { Rows }
{}

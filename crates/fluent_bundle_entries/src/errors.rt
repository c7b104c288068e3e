//! What is reported beside a text or an added resource.
ghost use Rattle.std.specs.Prelude.{◌≡◌, IfOk, IsOk};
ghost use Rattle.fluent_bundle_entries.specs.ErrorView.{error_view};
ghost use Rattle.fluent_bundle_entries.specs.ErrorsWithoutMemory.{HasNoText};

pub mod resolver;

use fluent_ast::ParserError;
use resolver::copy_of;
pub use resolver::{ReferenceKind, ResolverError};
use std::alloc::{AllocError, Global};
use std::fmt;

/// The kinds of entries that share a bundle's map of ids.
#[derive(Clone, Copy, Debug, PartialEq, Eq)]
pub enum EntryKind {
    Message,
    Term,
    Function,
}

impl fmt::Display for EntryKind {
    ghost use Rattle.std.specs.Prelude.{Some};
    ghost use Rattle.fluent_bundle_entries.specs.ErrorView.{kind_view};
    ghost use Rattle.fluent_semantics.specs.Errors.{kind_text};

    ghost output = { λ kind. Some (kind_text (kind_view kind)) };

    fn fmt<W: fmt::Write>(&self, f: &mut fmt::Formatter<W>) -> fmt::Result {
        match self {
            EntryKind::Message => f.write_str("message"),
            EntryKind::Term => f.write_str("term"),
            EntryKind::Function => f.write_str("function"),
        }
    }
}

/// Everything that is reported to the caller in a list of errors.
#[derive(Debug, Drop, PartialEq, Eq)]
pub enum FluentError {
    /// An entry was not added, since its id was there.
    Overriding {
        /// The kind of the entry that was not added.
        kind: EntryKind,
        id: String,
    },
    ParserError(ParserError),
    ResolverError(ResolverError),
}

impl FluentError {
    /// Makes a copy with the same content.
    ///
    /// # Errors
    ///
    /// An allocation failed. The copy of an error without a text can't fail.
    pub fn try_clone(&self, alloc: Global) -> Result<FluentError, AllocError>
        ensures same { IfOk result (λ copy. error_view copy ≡ error_view self.now) }
        ensures succeeds { HasNoText self.now → IsOk result }
    {
        match self {
            FluentError::Overriding { kind, id } => Ok(FluentError::Overriding {
                kind: *kind,
                id: copy_of(alloc, id)?,
            }),
            FluentError::ParserError(error) => Ok(FluentError::ParserError(*error)),
            FluentError::ResolverError(error) => Ok(FluentError::ResolverError(error.try_clone(
                alloc,
            )?)),
        }
    }
}

impl fmt::Display for FluentError {
    ghost use Rattle.std.specs.Prelude.{Some};
    ghost use Rattle.fluent_bundle_entries.specs.ErrorView.{error_view};
    ghost use Rattle.fluent_semantics.specs.Errors.{error_text};

    ghost output = { λ e. Some (error_text (error_view e)) };

    fn fmt<W: fmt::Write>(&self, f: &mut fmt::Formatter<W>) -> fmt::Result {
        match self {
            FluentError::Overriding { kind, id } => {
                write!(f, "Attempt to override an existing {kind}: \"{id}\".")
            }
            FluentError::ParserError(error) => write!(f, "Parser error: {error}"),
            FluentError::ResolverError(error) => write!(f, "Resolver error: {error}"),
        }
    }
}

impl std::error::Error for FluentError {}

impl From<ParserError> for FluentError {
    ghost use Rattle.std.specs.Prelude.{◌≡◌};
    ghost use Rattle.fluent_bundle_entries.specs.ErrorView.{error_view};
    ghost use Rattle.fluent_semantics.specs.Errors.{parser_error};

    ghost from_gives = { λ e result. error_view result ≡ parser_error e.start e.end };

    fn from(error: ParserError) -> FluentError {
        FluentError::ParserError(error)
    }
}

impl From<ResolverError> for FluentError {
    ghost use Rattle.std.specs.Prelude.{◌≡◌};
    ghost use Rattle.fluent_bundle_entries.specs.ErrorView.{error_view, resolver_error_view};
    ghost use Rattle.fluent_semantics.specs.Errors.{resolver_error};

    ghost from_gives = { λ e result. error_view result ≡ resolver_error (resolver_error_view e) };

    fn from(error: ResolverError) -> FluentError {
        FluentError::ResolverError(error)
    }
}

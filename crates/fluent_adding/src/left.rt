//! What is told of an entry or a function that is not added.
ghost use Rattle.std.specs.Prelude.{◌≡◌, IfOk};
ghost use Rattle.fluent_semantics.specs.Errors as e;
ghost use Rattle.fluent_bundle_entries.specs.ErrorView.{error_view, kind_view};

use fluent_bundle_entries::{EntryKind, FluentError};
use std::alloc::{AllocError, Global};

/// The error of an entry that is not added, since its id is taken.
pub(crate) fn left(alloc: Global, kind: EntryKind, id: &str) -> Result<FluentError, AllocError>
    ensures { IfOk result (λ error. error_view error ≡ e.overriding (kind_view kind) id.now) }
{
    Ok(FluentError::Overriding {
        kind,
        id: String::from_str(alloc, id)?,
    })
}

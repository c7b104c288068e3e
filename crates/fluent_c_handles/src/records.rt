//! Errors as records, which a program reads without knowing their texts.
ghost use Rattle.std.specs.Prelude.{◌≡◌, ◌++◌, IfOk, OnOk, string_bytes};
ghost use Rattle.fluent_resolver_state.specs.Status.{reported};
ghost use Rattle.fluent_bundle_entries.specs.ErrorView.{error_view, reference_view, resolver_error_view};
ghost use Rattle.fluent_semantics.specs.Errors.{resolver_error};
ghost use Rattle.fluent_c_handles.specs.Calls.Formatting.{error_record, error_records, record_after, reference_record};

use fluent_bundle::{FluentError, ReferenceKind, ResolverError};
use std::alloc::{AllocError, Global};

/// A record for each error: the letter of its kind, an id and the name of an attribute, each of which a zero byte ends.
pub(crate) fn records(alloc: Global, errors: &[FluentError]) -> Result<String, AllocError>
    ensures { IfOk result (λ text. string_bytes text ≡ error_records (reported errors.now)) }
{
    let mut text = String::new(alloc);
    for error in errors {
        put_record(&mut text, error)?;
    }
    Ok(text)
}

/// Puts the record of an error behind others.
fn put_record(text: &mut String, error: &FluentError) -> Result<(), AllocError>
    ensures { OnOk result (string_bytes text.new ≡ string_bytes text.old ++ error_record (error_view error.now)) }
{
    match error {
        FluentError::ResolverError(error) => put_resolver_record(text, error),
        FluentError::Overriding { kind: _, id } => put_named(text, "?", id.as_str(), ""),
        FluentError::ParserError(_) => put_named(text, "?", "", ""),
    }
}

/// Puts the record of what went wrong in a pattern.
fn put_resolver_record(text: &mut String, error: &ResolverError) -> Result<(), AllocError>
    ensures { OnOk result (string_bytes text.new ≡ string_bytes text.old ++ error_record (resolver_error (resolver_error_view error.now))) }
{
    match error {
        ResolverError::Reference(reference) => put_lost_record(text, reference),
        ResolverError::NoValue(id) => put_named(text, "n", id.as_str(), ""),
        ResolverError::MissingDefault => put_named(text, "d", "", ""),
        ResolverError::Cyclic => put_named(text, "c", "", ""),
        ResolverError::TooManyPlaceables => put_named(text, "p", "", ""),
    }
}

/// Puts the record of what was referred to and isn't there.
fn put_lost_record(text: &mut String, reference: &ReferenceKind) -> Result<(), AllocError>
    ensures { OnOk result (string_bytes text.new ≡ string_bytes text.old ++ reference_record (reference_view reference.now)) }
{
    match reference {
        ReferenceKind::Function { id } => put_named(text, "f", id.as_str(), ""),
        ReferenceKind::Message {
            id,
            attribute: None,
        } => put_named(text, "m", id.as_str(), ""),
        ReferenceKind::Message {
            id,
            attribute: Some(name),
        } => put_named(text, "a", id.as_str(), name.as_str()),
        ReferenceKind::Term {
            id,
            attribute: None,
        } => put_named(text, "t", id.as_str(), ""),
        ReferenceKind::Term {
            id,
            attribute: Some(name),
        } => put_named(text, "b", id.as_str(), name.as_str()),
        ReferenceKind::Variable { id } => put_named(text, "v", id.as_str(), ""),
    }
}

/// Puts a record by its parts.
fn put_named(text: &mut String, letter: &str, id: &str, name: &str) -> Result<(), AllocError>
    ensures { OnOk result (string_bytes text.new ≡ string_bytes text.old ++ (letter.now ++ record_after id.now name.now)) }
{
    write!(text, "{letter}{id}\0{name}\0")
}

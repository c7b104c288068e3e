//! What goes wrong where a pattern is resolved.
ghost use Rattle.std.specs.Prelude.{◌≡◌, IfOk, IsOk, None, string_bytes};
ghost use Rattle.std.specs.Option.{option_map};
ghost use Rattle.fluent_ast.specs.View.{attribute_of};
ghost use Rattle.fluent_bundle_entries.specs.ErrorView.{attribute_name, lost_in, reference_in, reference_view, resolver_error_view};
ghost use Rattle.fluent_bundle_entries.specs.ErrorsWithoutMemory.{NamesNothing};

use fluent_ast::ast::{Identifier, InlineExpression};
use std::alloc::{AllocError, Global};
use std::fmt;

/// What a reference that could not be resolved named. A term's id stands without its dash.
#[derive(Debug, Drop, PartialEq, Eq)]
pub enum ReferenceKind {
    Function {
        id: String,
    },
    Message {
        id: String,
        attribute: Option<String>,
    },
    Term {
        id: String,
        attribute: Option<String>,
    },
    Variable {
        id: String,
    },
}

/// A copy of a text.
pub(crate) fn copy_of(alloc: Global, text: &String) -> Result<String, AllocError>
    ensures { IfOk result (λ copy. string_bytes copy ≡ string_bytes text.now) }
{
    String::from_str(alloc, text.as_str())
}

/// A copy of an attribute's name, where there is one.
fn copy_of_name(alloc: Global, name: &Option<String>) -> Result<Option<String>, AllocError>
    ensures { IfOk result (λ copy. attribute_name copy ≡ attribute_name name.now) }
{
    match name {
        Some(name) => Ok(Some(copy_of(alloc, name)?)),
        None => Ok(None),
    }
}

/// The name of an attribute that an expression refers to, where it does.
fn name_of(alloc: Global, attribute: &Option<Identifier<'_>>) -> Result<Option<String>, AllocError>
    ensures { IfOk result (λ name. attribute_name name ≡ attribute_of attribute.now) }
{
    match attribute {
        Some(attribute) => Ok(Some(String::from_str(alloc, attribute.name)?)),
        None => Ok(None),
    }
}

impl ReferenceKind {
    /// What an expression refers to; `None` where it is no reference.
    ///
    /// # Errors
    ///
    /// An allocation failed. The call can't fail where the expression is no reference.
    pub fn of(
        alloc: Global,
        expression: &InlineExpression<'_>,
    ) -> Result<Option<ReferenceKind>, AllocError>
        ensures found { IfOk result (λ r. option_map reference_view r ≡ reference_in expression.now) }
        ensures succeeds { reference_in expression.now ≡ None → IsOk result }
    {
        match expression {
            InlineExpression::FunctionReference { id, .. } => Ok(Some(ReferenceKind::Function {
                id: String::from_str(alloc, id.name)?,
            })),
            InlineExpression::MessageReference { id, attribute } => {
                Ok(Some(ReferenceKind::Message {
                    id: String::from_str(alloc, id.name)?,
                    attribute: name_of(alloc, attribute)?,
                }))
            }
            InlineExpression::TermReference { id, attribute, .. } => Ok(Some(
                ReferenceKind::Term {
                    id: String::from_str(alloc, id.name)?,
                    attribute: name_of(alloc, attribute)?,
                },
            )),
            InlineExpression::VariableReference { id } => Ok(Some(ReferenceKind::Variable {
                id: String::from_str(alloc, id.name)?,
            })),
            InlineExpression::StringLiteral { .. } => Ok(None),
            InlineExpression::NumberLiteral { .. } => Ok(None),
            InlineExpression::Placeable { .. } => Ok(None),
        }
    }

    /// Makes a copy with the same content.
    ///
    /// # Errors
    ///
    /// An allocation failed.
    pub fn try_clone(&self, alloc: Global) -> Result<ReferenceKind, AllocError>
        ensures { IfOk result (λ copy. reference_view copy ≡ reference_view self.now) }
    {
        match self {
            ReferenceKind::Function { id } => Ok(ReferenceKind::Function {
                id: copy_of(alloc, id)?,
            }),
            ReferenceKind::Message { id, attribute } => Ok(ReferenceKind::Message {
                id: copy_of(alloc, id)?,
                attribute: copy_of_name(alloc, attribute)?,
            }),
            ReferenceKind::Term { id, attribute } => Ok(ReferenceKind::Term {
                id: copy_of(alloc, id)?,
                attribute: copy_of_name(alloc, attribute)?,
            }),
            ReferenceKind::Variable { id } => Ok(ReferenceKind::Variable {
                id: copy_of(alloc, id)?,
            }),
        }
    }
}

/// What went wrong at one expression of a pattern.
#[derive(Debug, Drop, PartialEq, Eq)]
pub enum ResolverError {
    /// What was referred to is not there.
    Reference(ReferenceKind),
    /// The message has no value.
    NoValue(String),
    /// A select had no variant to take.
    MissingDefault,
    /// A pattern refers to itself.
    Cyclic,
    /// The limit on placeables was reached.
    TooManyPlaceables,
}

impl ResolverError {
    /// The error of a reference that could not be resolved; `None` where the expression is no reference.
    ///
    /// # Errors
    ///
    /// An allocation failed. The call can't fail where the expression is no reference.
    pub fn of(
        alloc: Global,
        expression: &InlineExpression<'_>,
    ) -> Result<Option<ResolverError>, AllocError>
        ensures found { IfOk result (λ e. option_map resolver_error_view e ≡ lost_in expression.now) }
        ensures succeeds { reference_in expression.now ≡ None → IsOk result }
    {
        match ReferenceKind::of(alloc, expression)? {
            Some(reference) => Ok(Some(ResolverError::Reference(reference))),
            None => Ok(None),
        }
    }

    /// Makes a copy with the same content.
    ///
    /// # Errors
    ///
    /// An allocation failed. The copy of an error without a text can't fail.
    pub fn try_clone(&self, alloc: Global) -> Result<ResolverError, AllocError>
        ensures same { IfOk result (λ copy. resolver_error_view copy
            ≡ resolver_error_view self.now) }
        ensures succeeds { NamesNothing self.now → IsOk result }
    {
        match self {
            ResolverError::Reference(reference) => Ok(ResolverError::Reference(reference.try_clone(
                alloc,
            )?)),
            ResolverError::NoValue(id) => Ok(ResolverError::NoValue(copy_of(alloc, id)?)),
            ResolverError::MissingDefault => Ok(ResolverError::MissingDefault),
            ResolverError::Cyclic => Ok(ResolverError::Cyclic),
            ResolverError::TooManyPlaceables => Ok(ResolverError::TooManyPlaceables),
        }
    }
}

impl fmt::Display for ResolverError {
    ghost use Rattle.std.specs.Prelude.{Some};
    ghost use Rattle.fluent_bundle_entries.specs.ErrorView.{resolver_error_view};
    ghost use Rattle.fluent_semantics.specs.Errors.{resolver_error_text};

    ghost output = { λ e. Some (resolver_error_text (resolver_error_view e)) };

    fn fmt<W: fmt::Write>(&self, f: &mut fmt::Formatter<W>) -> fmt::Result {
        match self {
            ResolverError::Reference(reference) => match reference {
                ReferenceKind::Function { id } => write!(f, "Unknown function: {id}()"),
                ReferenceKind::Message {
                    id,
                    attribute: None,
                } => { write!(f, "Unknown message: {id}") }
                ReferenceKind::Message {
                    id,
                    attribute: Some(name),
                } => { write!(f, "Unknown attribute: {id}.{name}") }
                ReferenceKind::Term {
                    id,
                    attribute: None,
                } => write!(f, "Unknown term: -{id}"),
                ReferenceKind::Term {
                    id,
                    attribute: Some(name),
                } => { write!(f, "Unknown attribute: -{id}.{name}") }
                ReferenceKind::Variable { id } => write!(f, "Unknown variable: ${id}"),
            },
            ResolverError::NoValue(id) => write!(f, "No value: {id}"),
            ResolverError::MissingDefault => f.write_str("No default"),
            ResolverError::Cyclic => f.write_str("Cyclical dependency detected"),
            ResolverError::TooManyPlaceables => f.write_str("Too many placeables"),
        }
    }
}

impl std::error::Error for ResolverError {}

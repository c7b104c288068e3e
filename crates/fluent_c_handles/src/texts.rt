//! The texts that a bundle gives, in memory of their own or in buffers of the caller.
ghost use Rattle.std.specs.Prelude.{◌≡◌, ◌++◌, IfOk, IfErr, OnErr, OnOk, string_bytes};
ghost use Rattle.fluent_resolver_state.specs.Status.{reported};
ghost use Rattle.fluent_c_handles.specs.Calls.Formatting.{FormatsIn, NotFormattedIn, error_line, error_lines, told_in};
ghost use Rattle.fluent_bundle_entries.specs.ErrorView.{error_view};
ghost use Rattle.fluent_c_handles.specs.Answers.{bundle_view};
ghost use Rattle.fluent_c_handles.specs.Inside.Shown.{GivesHeld, GivesIn, GivesShown, HasNoValues, HasValues, NotShown};
ghost use Rattle.fluent_answers.specs.ArgumentView.{args_view};

use crate::buffers::put_text;
use crate::lookup::is_there;
use crate::opening::Asking;
use crate::records::records;
use fluent_answers::{Fault, OwnValue, read_args};
use fluent_bundle::{FluentArgs, FluentError};
use std::alloc::{AllocError, Global};
use std::str;

/// How many bytes a text and the lines of its errors have.
#[derive(Clone, Copy, Debug, Drop, PartialEq, Eq)]
#[repr(C)]
pub struct Lengths {
    pub text: usize,
    pub errors: usize,
}

/// Why nothing was answered.
#[derive(Clone, Copy, Debug, Drop, PartialEq, Eq)]
pub enum FormatFault {
    /// The id or the name of the attribute is not UTF-8.
    NotText,
    /// The arguments can't be read.
    Arguments(Fault),
    /// The answers can't be read.
    Answers(Fault),
    /// There is no such message with a value, or with such an attribute.
    NoMessage,
    /// An allocation failed.
    Memory,
}

/// How the errors of a text are told.
#[derive(Clone, Copy, Debug, Drop, PartialEq, Eq)]
pub enum Form {
    /// A line for each.
    Lines,
    /// A record for each, as [`records`](crate::records) writes it.
    Records,
}

/// Formats the value of a message, or its attribute of a name that is not empty, with arguments that
/// [`read_args`] reads. Each buffer that is too small is left as it was: the lengths say which room is needed. Of what
/// went wrong in the text each error has a line.
///
/// # Errors
///
/// As [`FormatFault`] says: both buffers are as before.
pub(crate) fn format(
    alloc: Global,
    bundle: &Asking<'_, '_>,
    id: &[u8],
    name: &[u8],
    args: &[u8],
    out: &mut [u8],
    err: &mut [u8],
) -> Result<Lengths, FormatFault>
    ensures ok { IfOk result (FormatsIn (bundle_view bundle.now) id.now name.now args.now out.old out.new err.old err.new) }
    ensures err { IfErr result (NotFormattedIn (bundle_view bundle.now) id.now name.now args.now) }
    ensures left { OnErr result ((out.new ≡ out.old) × (err.new ≡ err.old)) }
{
    format_in(alloc, bundle, Form::Lines, id, name, args, out, err)
}

/// The same, and what is told of the errors in a form. A message that is not there is told before its arguments.
///
/// # Errors
///
/// As of [`format`].
#[inline(always)]
pub(crate) fn format_in(
    alloc: Global,
    bundle: &Asking<'_, '_>,
    form: Form,
    id: &[u8],
    name: &[u8],
    args: &[u8],
    out: &mut [u8],
    err: &mut [u8],
) -> Result<Lengths, FormatFault>
    ensures ok { IfOk result (GivesIn form (bundle_view bundle.now) id.now name.now args.now out.old out.new err.old err.new) }
    ensures err { IfErr result (NotFormattedIn (bundle_view bundle.now) id.now name.now args.now) }
    ensures left { OnErr result ((out.new ≡ out.old) × (err.new ≡ err.old)) }
{
    let (Ok(id), Ok(name)) = (str::from_utf8(id), str::from_utf8(name)) else {
        return Err(FormatFault::NotText);
    };
    // Without arguments there is nothing to read, and the message is looked up once.
    if args.is_empty() {
        return format_with(alloc, bundle, form, id, name, None, out, err);
    }
    if !is_there(bundle, id, name) {
        return Err(FormatFault::NoMessage);
    }
    match read_values(alloc, args) {
        Ok(args) => format_with(alloc, bundle, form, id, name, Some(&args), out, err),
        Err(fault) => Err(fault),
    }
}

/// The values of arguments.
pub(crate) fn read_values(
    alloc: Global,
    args: &[u8],
) -> Result<FluentArgs<'_, OwnValue>, FormatFault>
    ensures ok { IfOk result (λ values. HasValues args.now (args_view values)) }
    ensures err { IfErr result (HasNoValues args.now) }
{
    match read_args(alloc, args) {
        Ok(args) => Ok(args),
        Err(fault) => Err(FormatFault::Arguments(fault)),
    }
}

/// Formats a value or an attribute with arguments that were read.
#[inline(always)]
fn format_with(
    alloc: Global,
    bundle: &Asking<'_, '_>,
    form: Form,
    id: &str,
    name: &str,
    args: Option<&FluentArgs<'_, OwnValue>>,
    out: &mut [u8],
    err: &mut [u8],
) -> Result<Lengths, FormatFault>
    ensures ok { IfOk result (GivesShown form (bundle_view bundle.now) id.now name.now args.entry out.old out.new err.old err.new) }
    ensures err { IfErr result (NotShown (bundle_view bundle.now) id.now name.now) }
    ensures left { OnErr result ((out.new ≡ out.old) × (err.new ≡ err.old)) }
{
    let mut errors = Vec::new(alloc);
    let text = if name.is_empty() {
        bundle.format_value(id, args, &mut errors)
    } else {
        bundle.format_attribute(id, name, args, &mut errors)
    };
    match text {
        Ok(Some(text)) => put_shown(alloc, form, text.as_str(), errors.as_slice(), out, err),
        Ok(None) => Err(FormatFault::NoMessage),
        Err(AllocError) => Err(FormatFault::Memory),
    }
}

/// Puts a text, and what is told of the errors in it, into buffers.
#[inline(always)]
fn put_shown(
    alloc: Global,
    form: Form,
    text: &str,
    errors: &[FluentError],
    out: &mut [u8],
    err: &mut [u8],
) -> Result<Lengths, FormatFault>
    ensures ok { IfOk result (GivesHeld text.now (told_in form (reported errors.now)) out.old out.new err.old err.new) }
    ensures err { IfErr result (λ f. f ≡ FormatFault.Memory) }
    ensures left { OnErr result ((out.new ≡ out.old) × (err.new ≡ err.old)) }
{
    if errors.is_empty() {
        return Ok(put_both(text, "", out, err));
    }
    match told(alloc, form, errors) {
        Ok(lines) => Ok(put_both(text, lines.as_str(), out, err)),
        Err(AllocError) => Err(FormatFault::Memory),
    }
}

/// Puts two texts into buffers.
fn put_both(text: &str, lines: &str, out: &mut [u8], err: &mut [u8]) -> Lengths
    ensures { GivesHeld text.now lines.now out.old out.new err.old err.new result }
{
    Lengths {
        text: put_text(text, out),
        errors: put_text(lines, err),
    }
}

/// What is told of errors.
pub(crate) fn told(alloc: Global, form: Form, errors: &[FluentError]) -> Result<String, AllocError>
    ensures { IfOk result (λ text. string_bytes text ≡ told_in form (reported errors.now)) }
{
    match form {
        Form::Lines => lines(alloc, errors),
        Form::Records => records(alloc, errors),
    }
}

/// A line for each error.
fn lines(alloc: Global, errors: &[FluentError]) -> Result<String, AllocError>
    ensures { IfOk result (λ text. string_bytes text ≡ error_lines (reported errors.now)) }
{
    let mut text = String::new(alloc);
    for error in errors {
        put_line(&mut text, error)?;
    }
    Ok(text)
}

/// Puts the text of an error, and a line feed, behind others.
fn put_line(text: &mut String, error: &FluentError) -> Result<(), AllocError>
    ensures { OnOk result (string_bytes text.new ≡ string_bytes text.old ++ error_line (error_view error.now)) }
{
    write!(text, "{error}\n")
}

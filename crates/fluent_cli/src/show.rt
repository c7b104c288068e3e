//! A message as an application shows it.

ghost use Rattle.std.specs.Prelude.{◌≡◌, [], IfOk, OnOk, map, string_bytes};
ghost use Rattle.fluent_check.specs.Bundles.{bundle_view};
ghost use Rattle.fluent_sources.specs.Files.{Adds};
ghost use Rattle.fluent_fallback.specs.Chain.{bundles_of};
ghost use Rattle.fluent_bundle.specs.Formatted.{AddsAll};
ghost use Rattle.fluent_resolver_state.specs.Status.{reported};
ghost use Rattle.fluent_values.specs.View.{named, value_view};
ghost use Rattle.fluent_cli.specs.Shown.{IsShown, arguments_of, error_lines, is_there, missing_line, said_of, shown_by, status_shown, value_of};

use crate::answer::{Answer, Status};
use crate::reading::Inputs;
use fluent_bundle::{
    FluentArgs, FluentError, FluentValue, NoCustom, NoFormatter, NoFunction, NoTransform,
};
use fluent_check::bundle::bundles_of;
use fluent_cli_report::fault_lines;
use fluent_cli_words::{Argument, ShowRequest};
use fluent_fallback::Chain;
use fluent_plural_rules::RuleTexts;
use std::alloc::{AllocError, Global};
use std::borrow::CowStr;

/// A chain of the bundles of some sources.
type Texts<'c, 'r, 's> = Chain<
    'c,
    'c,
    'r,
    's,
    RuleTexts,
    NoCustom,
    NoFunction,
    NoFormatter,
    NoTransform,
>;

/// The value of an argument.
fn value_of<'w>(argument: &Argument<'w>) -> FluentValue<'w, NoCustom>
    ensures { value_view (λ c. []) result ≡ value_of argument.now.is_text argument.now.value.now }
{
    if argument.is_text {
        FluentValue::from(argument.value)
    } else {
        FluentValue::try_number(argument.value)
    }
}

/// The arguments of a message. One that comes later takes the place of one with its name.
fn arguments<'w>(
    alloc: Global,
    words: &[Argument<'w>],
) -> Result<FluentArgs<'w, NoCustom>, AllocError>
    ensures { IfOk result (λ args. named (λ c. []) args ≡ arguments_of words.now) }
{
    let mut args = FluentArgs::new(alloc);
    for word in words {
        args.set(CowStr::Borrowed(word.name), value_of(word))?;
    }
    Ok(args)
}

/// The text that was asked for: that of the first bundle that has it, or else the id. What went wrong in it is added to the
/// errors.
fn text_of<'s>(
    alloc: Global,
    texts: &Texts<'_, '_, 's>,
    request: &ShowRequest<'_>,
    errors: &mut Vec<FluentError>,
) -> Result<String, AllocError>
    ensures text { IfOk result
        (λ text. string_bytes text ≡ (shown_by request.now (map bundle_view (bundles_of texts.now))).text) }
    ensures errors { OnOk result (AddsAll (shown_by request.now (map bundle_view (bundles_of texts.now))).errors
        errors.old.items errors.new.items) }
{
    let args = arguments(alloc, request.arguments.as_slice())?;
    match request.attribute {
        Some(name) => { texts.format_attribute_owned(alloc, request.id, name, Some(&args), errors) }
        None => texts.format_value_owned(alloc, request.id, Some(&args), errors),
    }
}

/// Whether one of the bundles has what was asked for.
fn has(texts: &Texts<'_, '_, '_>, request: &ShowRequest<'_>) -> bool
    ensures { result ≡ is_there request.now (map bundle_view (bundles_of texts.now)) }
{
    match request.attribute {
        Some(name) => texts.has_attribute(request.id, name),
        None => texts.has_value(request.id),
    }
}

/// Says what went wrong in a text.
fn say_errors(errors: &[FluentError], said: &mut String) -> Result<(), AllocError>
    ensures { OnOk result (Adds (error_lines (reported errors.now)) said.old said.new) }
{
    for error in errors {
        write!(said, "fluent: {error}\n")?;
    }
    Ok(())
}

/// Says that what was asked for isn't there, where it isn't.
fn say_missing(
    request: &ShowRequest<'_>,
    is_there: bool,
    said: &mut String,
) -> Result<(), AllocError>
    ensures { OnOk result (Adds (missing_line request.now is_there) said.old said.new) }
{
    let id = request.id;
    if is_there {
        return Ok(());
    }
    match request.attribute {
        Some(name) => write!(said, "fluent: no attribute '{id}.{name}'\n"),
        None => write!(said, "fluent: no message '{id}' with a value\n"),
    }
}

/// What is said on standard error: what is wrong with the sources, then with the text.
fn said_of(
    alloc: Global,
    request: &ShowRequest<'_>,
    inputs: &Inputs<'_>,
    errors: &[FluentError],
    is_there: bool,
) -> Result<String, AllocError>
    ensures { IfOk result (λ said. string_bytes said ≡ said_of request.now inputs.now (reported errors.now) is_there) }
{
    let mut said = fault_lines(alloc, &inputs.beside)?;
    let faults = fault_lines(alloc, &inputs.sources)?;
    said.push_str(faults.as_str())?;
    say_errors(errors, &mut said)?;
    say_missing(request, is_there, &mut said)?;
    Ok(said)
}

/// The status of a run that showed a text.
fn status_of(is_there: bool, is_strict: bool, is_wrong: bool) -> Status
    ensures { result ≡ status_shown is_there is_strict is_wrong }
{
    if is_there && !(is_strict && is_wrong) {
        Status::Fine
    } else {
        Status::Wrong
    }
}

/// Shows the message, or the attribute, of the first of these files that has it, with those that are loaded beside each.
pub(crate) fn show(
    alloc: Global,
    request: &ShowRequest<'_>,
    inputs: &Inputs<'_>,
) -> Result<Answer, AllocError>
    ensures { IfOk result (IsShown request.now inputs.now) }
{
    let bundles = bundles_of(
        alloc,
        request.language,
        request.functions.as_slice(),
        inputs.beside.resources.as_slice(),
        inputs.sources.resources.as_slice(),
    )?;
    let texts = Chain::of(bundles.as_slice());
    let mut errors = Vec::new(alloc);
    let mut output = text_of(alloc, &texts, request, &mut errors)?;
    output.push_str("\n")?;
    let is_there = has(&texts, request);
    let said = said_of(alloc, request, inputs, errors.as_slice(), is_there)?;
    Ok(Answer {
        status: status_of(is_there, request.is_strict, !said.is_empty()),
        output,
        errors: said,
    })
}

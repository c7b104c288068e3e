//! Numbers with options, by their texts.
ghost use Rattle.std.specs.Prelude.{◌≡◌, ◌<◌, IfOk};
ghost use Rattle.std.specs.Option.{option_map};
ghost use Rattle.fluent_intl.specs.Number.{number_of};
ghost use Rattle.fluent_semantics.specs.Value.{number_value};
ghost use Rattle.fluent_values.specs.View.{named, value_view};
ghost use Rattle.fluent_answers.specs.Numbers.{after, before, number_value_of, option_values, parts, with_options};
ghost use Rattle.fluent_answers.specs.OwnContent.{own_content};

use crate::own::OwnValue;
use fluent_intl::FluentNumber;
use fluent_values::{FluentArgs, FluentValue, MergeArgs};
use std::alloc::{AllocError, Global};
use std::borrow::CowStr;

/// What a text is that is given as a number: a number with options, or the text where no number stands before the first
/// semicolon.
///
/// # Errors
///
/// An allocation failed, which only options can meet.
pub(crate) fn number<'b>(
    alloc: Global,
    text: &'b str,
) -> Result<FluentValue<'b, OwnValue>, AllocError>
    ensures { IfOk result (λ v. value_view own_content v ≡ number_value_of text.now) }
{
    let Some((head, options)) = split(text, ';') else {
        return Ok(FluentValue::try_number(text));
    };
    let value: FluentValue<'b, OwnValue> = FluentValue::try_number(head);
    match value {
        FluentValue::Number(number) => Ok(FluentValue::Number(with_options(
            alloc, number, options,
        )?)),
        _ => Ok(FluentValue::String(CowStr::Borrowed(text))),
    }
}

/// A number with the options behind it. Where the first is empty, the digits of the number are no minimum.
fn with_options(
    alloc: Global,
    number: FluentNumber,
    options: &str,
) -> Result<FluentNumber, AllocError>
    ensures { IfOk result (λ n. number_value (number_of n) ≡ with_options (number_of number) options.now) }
{
    let mut number = number;
    if options.is_empty() || options.as_bytes()[0] == b';' {
        number.options.minimum_fraction_digits = None;
    }
    if !options.is_empty() {
        let args = option_args(alloc, options)?;
        number.options.merge(alloc, &args)?;
    }
    Ok(number)
}

/// Options as the named arguments that `NUMBER` takes. The currency is the last: the whole rest is its text.
fn option_args<'b>(alloc: Global, text: &'b str) -> Result<FluentArgs<'b, OwnValue>, AllocError>
    ensures { IfOk result (λ args. named own_content args ≡ option_values text.now) }
{
    let mut args = FluentArgs::new(alloc);
    let mut rest = text;
    while !rest.is_empty() {
        let (name, value) = parted(rest, '=');
        if name == "currency" {
            args.set(
                CowStr::Borrowed(name),
                FluentValue::String(CowStr::Borrowed(value)),
            )?;
            return Ok(args);
        }
        let (option, after) = parted(rest, ';');
        let (name, value) = parted(option, '=');
        args.set(CowStr::Borrowed(name), FluentValue::try_number(value))?;
        rest = after;
    }
    Ok(args)
}

/// What stands before the first such mark, and what stands after it, or nothing.
fn parted(text: &str, mark: char) -> (&str, &str)
    requires { mark < 128 }
    ensures before { result.0.now ≡ before mark text.now }
    ensures after { result.1.now ≡ after mark text.now }
{
    match split(text, mark) {
        Some(parts) => parts,
        None => (text, ""),
    }
}

/// What stands before the first such mark, and what stands after it, where there is one.
fn split(text: &str, mark: char) -> Option<(&str, &str)>
    requires { mark < 128 }
    ensures { option_map (λ p. (p.0.now, p.1.now)) result ≡ parts mark text.now }
{
    text.split_once(mark)
}

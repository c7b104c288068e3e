//! The text of a number with its options.
ghost use Rattle.std.specs.Prelude.{◌≡◌, ◌++◌, IfOk, OnOk, string_bytes};
ghost use Rattle.std.specs.Option.{option_map};
ghost use Rattle.fluent_intl.specs.Number.{number_of};
ghost use Rattle.fluent_intl.specs.Options.{options_of};
ghost use Rattle.fluent_answers.specs.Numbers.{count_text, empty_option, has_empty, has_point, number_text, option_text, words_text, counts_text, style_word, display_word, type_word, grouping_word};

use fluent_intl::{
    FluentNumber, FluentNumberCurrencyDisplayStyle, FluentNumberOptions, FluentNumberStyle,
    FluentNumberType,
};
use std::alloc::{AllocError, Global};

/// The text of a number, and each option that differs from the default.
///
/// # Errors
///
/// An allocation failed.
pub(super) fn number_text(alloc: Global, number: &FluentNumber) -> Result<String, AllocError>
    ensures { IfOk result (λ text. string_bytes text ≡ number_text (number_of number.now)) }
{
    let mut out = String::from_str(alloc, number.text().as_str())?;
    let options = &number.options;
    put_empty(&mut out, options.minimum_fraction_digits)?;
    put_words(&mut out, options)?;
    put_counts(&mut out, options)?;
    put_option(&mut out, "type", type_word(options.number_type))?;
    if let Some(code) = &options.currency {
        put_option(&mut out, "currency", Some(code.as_str()))?;
    }
    Ok(out)
}

/// Writes an empty option behind digits that are no minimum.
fn put_empty(out: &mut String, minimum: Option<usize>) -> Result<(), AllocError>
    ensures { OnOk result (string_bytes out.new ≡ string_bytes out.old ++ empty_option minimum (string_bytes out.old)) }
{
    if has_empty(minimum, out.as_str()) {
        return out.push_str(";");
    }
    Ok(())
}

/// Whether a number has digits behind its point that are no minimum.
fn has_empty(minimum: Option<usize>, digits: &str) -> bool
    ensures { result ≡ has_empty minimum digits.now }
{
    match minimum {
        Some(_) => false,
        None => has_point(digits),
    }
}

fn has_point(digits: &str) -> bool
    ensures { result ≡ has_point digits.now }
{
    digits.as_bytes().iter().any(|byte| *byte == b'.')
}

/// Writes the options that are words, but for the type.
fn put_words(out: &mut String, options: &FluentNumberOptions) -> Result<(), AllocError>
    ensures { OnOk result (string_bytes out.new ≡ string_bytes out.old ++ words_text (options_of options.now)) }
{
    put_option(out, "style", style_word(options.style))?;
    put_option(
        out,
        "currencyDisplay",
        display_word(options.currency_display),
    )?;
    put_option(out, "useGrouping", grouping_word(options.use_grouping))
}

/// Writes the options that are counts.
fn put_counts(out: &mut String, options: &FluentNumberOptions) -> Result<(), AllocError>
    ensures { OnOk result (string_bytes out.new ≡ string_bytes out.old ++ counts_text (options_of options.now)) }
{
    put_count(out, "minimumIntegerDigits", options.minimum_integer_digits)?;
    put_count(
        out,
        "minimumFractionDigits",
        options.minimum_fraction_digits,
    )?;
    put_count(
        out,
        "maximumFractionDigits",
        options.maximum_fraction_digits,
    )?;
    put_count(
        out,
        "minimumSignificantDigits",
        options.minimum_significant_digits,
    )?;
    put_count(
        out,
        "maximumSignificantDigits",
        options.maximum_significant_digits,
    )
}

/// Writes an option that is set.
fn put_option(out: &mut String, name: &str, word: Option<&str>) -> Result<(), AllocError>
    ensures { OnOk result (string_bytes out.new ≡ string_bytes out.old ++ option_text name.now (option_map (λ w. w.now) word.entry)) }
{
    match word {
        Some(word) => write!(out, ";{name}={word}"),
        None => Ok(()),
    }
}

/// Writes a count that is set.
fn put_count(out: &mut String, name: &str, count: Option<usize>) -> Result<(), AllocError>
    ensures { OnOk result (string_bytes out.new ≡ string_bytes out.old ++ count_text name.now count) }
{
    match count {
        Some(count) => write!(out, ";{name}={count}"),
        None => Ok(()),
    }
}

fn style_word(style: FluentNumberStyle) -> Option<&'static str>
    ensures { option_map (λ w. w.now) result ≡ style_word style }
{
    match style {
        FluentNumberStyle::Decimal => None,
        FluentNumberStyle::Currency => Some("currency"),
        FluentNumberStyle::Percent => Some("percent"),
    }
}

fn display_word(display: FluentNumberCurrencyDisplayStyle) -> Option<&'static str>
    ensures { option_map (λ w. w.now) result ≡ display_word display }
{
    match display {
        FluentNumberCurrencyDisplayStyle::Symbol => None,
        FluentNumberCurrencyDisplayStyle::Code => Some("code"),
        FluentNumberCurrencyDisplayStyle::Name => Some("name"),
    }
}

fn grouping_word(use_grouping: bool) -> Option<&'static str>
    ensures { option_map (λ w. w.now) result ≡ grouping_word use_grouping }
{
    if use_grouping { None } else { Some("false") }
}

fn type_word(number_type: FluentNumberType) -> Option<&'static str>
    ensures { option_map (λ w. w.now) result ≡ type_word number_type }
{
    match number_type {
        FluentNumberType::Cardinal => None,
        FluentNumberType::Ordinal => Some("ordinal"),
    }
}

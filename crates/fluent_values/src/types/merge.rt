//! Options of a number from named arguments.
ghost use Rattle.std.specs.Prelude.{◌≡◌, OnOk, OnErr};
ghost use Rattle.fluent_intl.specs.Options.{Options, options_of};
ghost use Rattle.fluent_semantics.specs.Arguments as fin;
ghost use Rattle.fluent_values.specs.View.{value_view, named};
ghost use Rattle.fluent_values.specs.Inside.Merging.{merged, with_currency, with_one, with_rest, with_text, GivesCurrency, IsMadeBy};

use crate::args::FluentArgs;
use crate::types::{FluentType, FluentValue};
use fluent_intl::{
    FluentNumberCurrencyDisplayStyle, FluentNumberOptions, FluentNumberStyle, FluentNumberType,
};
use std::alloc::{AllocError, Global};

/// What named arguments can change.
pub trait MergeArgs<C: FluentType> {
    /// The options that it holds, by content.
    ghost options: { Self → Options };

    /// Takes each option from the argument of its name, if there is one with a value that fits: a text for
    /// `type`, `style`, `currency`, `currencyDisplay` and `useGrouping`, a number for `minimumIntegerDigits`,
    /// `minimumFractionDigits`, `maximumFractionDigits`, `minimumSignificantDigits` and
    /// `maximumSignificantDigits`.
    ///
    /// # Errors
    ///
    /// An allocation failed, which only a text for `currency` can meet: the options are as before.
    fn merge(&mut self, alloc: Global, args: &FluentArgs<'_, C>) -> Result<(), AllocError>
        ensures ok { OnOk result (options self.new ≡ merged C.content args.now (options self.old)) }
        ensures err { OnErr result (options self.new ≡ options self.old) }
        ensures memory { OnErr result (GivesCurrency C.content args.now) };
}

impl<C: FluentType> MergeArgs<C> for FluentNumberOptions {
    ghost options = { options_of };

    fn merge(&mut self, alloc: Global, args: &FluentArgs<'_, C>) -> Result<(), AllocError> {
        merge_currency(self, alloc, args)?;
        merge_rest(self, args);
        Ok(())
    }
}

/// The one option that takes memory.
fn merge_currency<C: FluentType>(
    options: &mut FluentNumberOptions,
    alloc: Global,
    args: &FluentArgs<'_, C>,
) -> Result<(), AllocError>
    ensures ok { OnOk result (IsMadeBy (with_currency (named C.content args.now)) options.old options.new) }
    ensures err { OnErr result (options.new ≡ options.old) }
    ensures memory { OnErr result (GivesCurrency C.content args.now) }
{
    match args.get("currency") {
        Some(FluentValue::String(code)) => {
            let code = String::from_str(alloc, code.as_str())?;
            options.currency = Some(code);
            Ok(())
        }
        _ => Ok(()),
    }
}

/// All but the currency, in one walk: most calls give one option or two, and there are ten names.
fn merge_rest<C: FluentType>(options: &mut FluentNumberOptions, args: &FluentArgs<'_, C>)
    ensures { IsMadeBy (with_rest (named C.content args.now)) options.old options.new }
{
    for (name, value) in args.iter() {
        merge_one(options, name, value);
    }
}

/// One argument, unless it is the currency.
fn merge_one<C: FluentType>(
    options: &mut FluentNumberOptions,
    name: &str,
    value: &FluentValue<'_, C>,
)
    ensures { IsMadeBy (with_one name.now (value_view C.content value.now)) options.old options.new }
{
    match value {
        FluentValue::String(text) => merge_text(options, name, text.as_str()),
        FluentValue::Number(number) => merge_count(options, name, usize::from(number)),
        _ => {}
    }
}

fn merge_text(options: &mut FluentNumberOptions, name: &str, text: &str)
    ensures { IsMadeBy (with_text name.now text.now) options.old options.new }
{
    match name {
        "type" => options.number_type = FluentNumberType::from(text),
        "style" => options.style = FluentNumberStyle::from(text),
        "currency" => {}
        "currencyDisplay" => {
            options.currency_display = FluentNumberCurrencyDisplayStyle::from(text);
        }
        "useGrouping" => options.use_grouping = text != "false",
        _ => {}
    }
}

/// A count of digits. Of fraction digits 18 count at most, as a minimum.
fn merge_count(options: &mut FluentNumberOptions, name: &str, count: usize)
    ensures { IsMadeBy (fin.merge_count name.now count) options.old options.new }
{
    match name {
        "minimumIntegerDigits" => options.minimum_integer_digits = Some(count),
        "minimumFractionDigits" => options.minimum_fraction_digits = Some(count.min(18)),
        "maximumFractionDigits" => options.maximum_fraction_digits = Some(count),
        "minimumSignificantDigits" => options.minimum_significant_digits = Some(count),
        "maximumSignificantDigits" => options.maximum_significant_digits = Some(count),
        _ => {}
    }
}

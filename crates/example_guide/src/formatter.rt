//! A formatter.
use crate::bundle::show_left;
use crate::showing::show;
use fluent_bundle::{
    EnglishPlurals, FluentArgs, FluentBundle, FluentFormatter, FluentNumber, FluentResource,
    FluentValue, NoCustom, NoFunction,
};
use std::alloc::{AllocError, Global};
use std::borrow::CowStr;
use std::io;

/// Shows a number that has a currency with the currency's code after it.
#[derive(Clone, Copy, Drop)]
pub struct Prices;

impl<M> FluentFormatter<NoCustom, M> for Prices {
    ghost use Rattle.example_guide.specs.Prices.{price};

    ghost formatted = { λ _ v _. price v };

    fn format<'a>(
        &self,
        alloc: Global,
        value: &FluentValue<'a, NoCustom>,
        _intls: &M,
    ) -> Result<Option<String>, AllocError> {
        let FluentValue::Number(number) = value else {
            return Ok(None);
        };
        let Some(code) = &number.options.currency else {
            return Ok(None);
        };
        let digits = number.as_string(alloc)?;
        Ok(Some(format!(in alloc; "{} {}", digits.as_str(), code.as_str())?))
    }
}

/// Shows a price.
pub fn show_formatter(rt: &HostRuntime, resource: &FluentResource<'_>) -> io::Result<()> {
    let mut bundle: FluentBundle<EnglishPlurals, NoCustom, NoFunction, Prices> =
        FluentBundle::new_default(rt.alloc())?;
    bundle.set_formatter(Some(Prices));
    show_left(rt, bundle.add_builtins())?;
    show_left(rt, bundle.add_resource(resource))?;

    let mut price = FluentNumber::from(12);
    price.options.currency = Some(String::from_str(rt.alloc(), "EUR")?);
    let mut args = FluentArgs::new(rt.alloc());
    args.set(CowStr::Borrowed("price"), FluentValue::Number(price))?;
    show(rt, &bundle, "total", Some(&args))
}

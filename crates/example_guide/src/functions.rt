//! Functions of one's own.
use crate::bundle::show_left;
use crate::showing::show;
use fluent_bundle::{
    EnglishPlurals, FluentArgs, FluentBundle, FluentFunction, FluentResource, FluentValue,
    NoCustom, NoFormatter,
};
use std::alloc::{AllocError, Global};
use std::borrow::CowStr;
use std::io;

/// The functions that messages of this application call.
#[derive(Clone, Copy, Drop)]
pub enum Own {
    /// What the program runs on.
    Platform,
    /// How many bytes a text has.
    Strlen,
}

impl FluentFunction<NoCustom> for Own {
    ghost use Rattle.std.specs.Prelude.{codes};
    ghost use Rattle.fluent_semantics.specs.Value.{text_value};
    ghost use Rattle.example_guide.specs.Functions.{strlen};
    ghost use Rattle.example_guide.specs.declared.functions.Own.TheVariants as own;

    ghost answer = { λ f positional _. elim f [
      | own.Platform ↦ text_value (codes "linux")
      | own.Strlen ↦ strlen positional
    ] };

    fn call<'a>(
        &self,
        _alloc: Global,
        positional: &[FluentValue<'a, NoCustom>],
        _named: &FluentArgs<'a, NoCustom>,
    ) -> Result<FluentValue<'a, NoCustom>, AllocError> {
        match self {
            Own::Platform => Ok(FluentValue::from("linux")),
            Own::Strlen => match positional.first() {
                Some(FluentValue::String(text)) => Ok(FluentValue::from(text.as_str().len())),
                _ => Ok(FluentValue::Error),
            },
        }
    }
}

/// Shows messages that call functions.
pub fn show_functions(rt: &HostRuntime, resource: &FluentResource<'_>) -> io::Result<()> {
    let mut bundle: FluentBundle<EnglishPlurals, NoCustom, Own, NoFormatter> =
        FluentBundle::new_default(rt.alloc())?;
    show_left(rt, bundle.add_function("PLATFORM", Own::Platform))?;
    show_left(rt, bundle.add_function("STRLEN", Own::Strlen))?;
    show_left(rt, bundle.add_resource(resource))?;

    let mut args = FluentArgs::new(rt.alloc());
    args.set(CowStr::Borrowed("word"), FluentValue::from("Grüße"))?;
    show(rt, &bundle, "preferences", None)?;
    show(rt, &bundle, "size", Some(&args))
}

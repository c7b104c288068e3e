//! A function that is kept with what it answers.
ghost use Rattle.std.specs.Prelude.{◌≡◌, [], codes, IfOk};
ghost use Rattle.fluent_semantics.specs.Value.{text_value};
ghost use Rattle.fluent_values.specs.View.{value_view};

use crate::bundle::show_left;
use crate::showing::show;
use fluent_bundle::{
    AnswerRule, Answering, EnglishPlurals, FluentArgs, FluentBundle, FluentResource, FluentValue,
    FunctionOf, NoCustom, NoFormatter,
};
use std::alloc::{AllocError, Global};
use std::io;

/// Always `hello`.
struct Greeting;

impl AnswerRule<NoCustom> for Greeting {
    ghost answer = { λ _ _. text_value (codes "hello") };
}

fn hello<'a>(
    _alloc: Global,
    _positional: &[FluentValue<'a, NoCustom>],
    _named: &FluentArgs<'a, NoCustom>,
) -> Result<FluentValue<'a, NoCustom>, AllocError>
    ensures { IfOk result (λ v. value_view (λ _. []) v ≡ text_value (codes "hello")) }
{
    Ok(FluentValue::from("hello"))
}

/// Shows a message that calls what greets.
fn show_greeting<K: Answering<NoCustom, Greeting> + Drop>(
    rt: &HostRuntime,
    resource: &FluentResource<'_>,
    greets: K,
) -> io::Result<()>
    requires { K.ready greets }
{
    let mut bundle: FluentBundle<
        EnglishPlurals,
        NoCustom,
        FunctionOf<NoCustom, K, Greeting>,
        NoFormatter,
    > = FluentBundle::new_default(rt.alloc())?;
    show_left(rt, bundle.add_function("GREETING", FunctionOf::new(greets)))?;
    show_left(rt, bundle.add_resource(resource))?;
    show(rt, &bundle, "greeting", None)
}

/// Shows a message that calls the function above.
pub fn show_kept(rt: &HostRuntime, resource: &FluentResource<'_>) -> io::Result<()> {
    show_greeting(rt, resource, hello)
}

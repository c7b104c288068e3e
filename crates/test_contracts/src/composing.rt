//! What an application composes of the bundle's calls.
ghost use Rattle.std.specs.Prelude.{◌≡◌, IfOk, IsTrue, Some};
ghost use Rattle.fluent_ast.specs.Tree.{Text};
ghost use Rattle.fluent_ast.specs.View.{pattern_view};
ghost use Rattle.fluent_bundle_entries.specs.Texts.{sole_text};
ghost use Rattle.fluent_resource.specs.ResourceView.{entries_of};
ghost use Rattle.test_contracts.specs.Composed.{calling, showing};

use crate::own::{Bracketed, Own, Upper};
use fluent_bundle::ast::Pattern;
use fluent_bundle::bundle::AddFault;
use fluent_bundle::{
    FluentBundle, FluentFormatter, FluentFunction, FluentResource, FluentType, Means, MemoizerKind,
    NoCustom, Transform,
};
use fluent_fallback::Chain;
use fluent_intl::EnglishPlurals;
use std::alloc::Global;

/// A bundle in English.
type English<'r, 's> = FluentBundle<'r, 's, EnglishPlurals, NoCustom, Own, Bracketed, Upper>;

/// A chain of them.
type Bundles<'c, 'b, 'r, 's> = Chain<
    'c,
    'b,
    'r,
    's,
    EnglishPlurals,
    NoCustom,
    Own,
    Bracketed,
    Upper,
>;

/// A bundle with a formatter, which looks at the plural source.
pub fn with_formatter<
    'r,
    's,
    M: MemoizerKind,
    C: FluentType,
    F: FluentFunction<C>,
    G: FluentFormatter<C, M>,
    T: Transform,
>(alloc: Global, intls: M, formatter: G) -> FluentBundle<'r, 's, M, C, F, G, T>
    ensures { ⟦<FluentBundle<'r, 's, M, C, F, G, T> as Means>⟧.meaning result
        ≡ showing M.category C.shown C.alike G.formatted intls formatter }
{
    let mut bundle = FluentBundle::new(alloc, Vec::new(alloc), intls);
    bundle.set_use_isolating(true);
    bundle.set_formatter(Some(formatter));
    bundle
}

/// A bundle with a transform, a function and a resource. It is proved, and needn't be called.
fn with_function<
    'r,
    's,
    M: MemoizerKind,
    C: FluentType,
    F: FluentFunction<C>,
    G: FluentFormatter<C, M>,
    T: Transform,
>(
    alloc: Global,
    intls: M,
    function: F,
    transform: T,
    resource: &'r FluentResource<'s>,
) -> Result<FluentBundle<'r, 's, M, C, F, G, T>, AddFault>
    ensures { IfOk result (λ b. ⟦<FluentBundle<'r, 's, M, C, F, G, T> as Means>⟧.meaning b
        ≡ calling M.category C.shown C.alike F.answer T.changed intls transform function (entries_of resource.now)) }
{
    let mut bundle = FluentBundle::new(alloc, Vec::new(alloc), intls);
    bundle.set_transform(Some(transform));
    bundle.add_function("F", function)?;
    bundle.add_resource(resource)?;
    Ok(bundle)
}

/// A pattern of one text is formatted by a new bundle, even where no memory is left.
pub fn is_formatted(alloc: Global, pattern: &Pattern<'_>) -> bool
    ensures { (t : Text) → sole_text (pattern_view pattern.now) ≡ Some t → IsTrue result }
{
    let mut made: English<'_, '_> = FluentBundle::new(alloc, Vec::new(alloc), EnglishPlurals);
    made.set_use_isolating(false);
    let mut errors = Vec::new(alloc);
    made.format_pattern(pattern, None, &mut errors).is_ok()
}

/// An id that no bundle has is the text of a chain, even where no memory is left.
pub fn is_the_id(alloc: Global, id: &str) -> bool
    ensures { IsTrue result }
{
    let chain: Bundles<'_, '_, '_, '_> = Chain::new(&[]);
    let mut errors = Vec::new(alloc);
    chain.format_value(id, None, &mut errors).is_ok()
}

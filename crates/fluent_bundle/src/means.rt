//! What a bundle means, in the words of the definitions. Contracts alone name it.
ghost use Rattle.fluent_semantics.specs.Bundle.{Bundle};
ghost use Rattle.fluent_ast.specs.Tree.{Text};
ghost use Rattle.fluent_bundle.specs.BundleView.{meant};

use crate::bundle::FluentBundle;
use fluent_intl::MemoizerKind;
use fluent_resolver::Means;
use fluent_values::types::FluentType;
use fluent_values::{FluentFormatter, FluentFunction, Transform};

impl<
    'r,
    's,
    M: MemoizerKind,
    C: FluentType,
    F: FluentFunction<C>,
    G: FluentFormatter<C, M>,
    T: Transform,
> Means for FluentBundle<'r, 's, M, C, F, G, T> {
    ghost Kind = { Bundle Text };

    ghost meaning = { meant M.category C.shown C.alike F.answer G.formatted T.changed };
}

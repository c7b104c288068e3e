//! The bundles of several languages, the best first.
ghost use Rattle.std.specs.Prelude.{◌≡◌, [], ◌∷◌, ◌++◌, map, OnOk, OnErr};
ghost use Rattle.fluent_bundle.specs.BundleView.{attribute_at, value_at};
ghost use Rattle.fluent_fallback.specs.Chain.{index_with, BorrowsFirst, GivesFirst, bundles_of};
ghost use Rattle.fluent_catalog.specs.CatalogView.{IsUnchanged, bundles_in, tag_in, tag_seen, tags_in};

use fluent_bundle::{
    FluentArgs, FluentBundle, FluentError, FluentFormatter, FluentFunction, FluentType, Means,
    MemoizerKind, Transform,
};
use fluent_fallback::Chain;
use std::alloc::{AllocError, Global};
use std::borrow::CowStr;

/// The texts of a program in several languages: a bundle for each, in the order in which they are asked, with the tag
/// of its language.
///
/// The bundles have one type, and each its own plural rules of that type (those of
/// `RuleTexts::of_language` for one), transform, formatter, functions and limit.
pub struct Catalog<'r, 's, M, C, F, G, T = Box<dyn Transform>> {
    tags: Vec<&'s str>,
    bundles: Vec<FluentBundle<'r, 's, M, C, F, G, T>>,
}

// Written out as a bundle's is, for the same reason.
impl<'r, 's: 'r, M: Drop, C, F: Drop, G: Drop, T: Drop> Drop for Catalog<'r, 's, M, C, F, G, T> {
    fn drop(self) {
        let Catalog {
            tags: _,
            bundles: _,
        } = self;
    }
}

impl<
    'r,
    's: 'r,
    M: MemoizerKind,
    C: FluentType,
    F: FluentFunction<C>,
    G: FluentFormatter<C, M>,
    T: Transform,
> Means for Catalog<'r, 's, M, C, F, G, T> {
    ghost use Rattle.std.specs.Prelude.{List};
    ghost use Rattle.fluent_ast.specs.Tree.{Text};
    ghost use Rattle.fluent_semantics.specs.Bundle.{Bundle};
    ghost use Rattle.fluent_bundle.specs.BundleView.{meant};

    ghost Kind = { List (Bundle Text) };

    ghost meaning = { λ catalog. map
        (meant M.category C.shown C.alike F.answer G.formatted T.changed) (bundles_in catalog) };
}

impl<
    'r,
    's: 'r,
    M: MemoizerKind,
    C: FluentType,
    F: FluentFunction<C>,
    G: FluentFormatter<C, M>,
    T: Transform,
> Catalog<'r, 's, M, C, F, G, T> {
    /// A catalog of no language. It takes no memory.
    pub fn new(alloc: Global) -> Self
        ensures tags { tags_in result ≡ [] }
        ensures bundles { bundles_in result ≡ [] }
    {
        Catalog {
            tags: Vec::new(alloc),
            bundles: Vec::new(alloc),
        }
    }

    /// Adds a language with the bundle of its texts, which is asked after those that are there.
    ///
    /// # Errors
    ///
    /// An allocation failed: the catalog is as before, and the bundle is dropped.
    pub fn push(
        &mut self,
        tag: &'s str,
        bundle: FluentBundle<'r, 's, M, C, F, G, T>,
    ) -> Result<(), AllocError>
        ensures tags { OnOk result (tags_in self.new ≡ tags_in self.old ++ tag.now ∷ []) }
        ensures bundles { OnOk result (bundles_in self.new ≡ bundles_in self.old ++ bundle.entry ∷ []) }
        ensures err { OnErr result (IsUnchanged self.old self.new) }
    {
        self.tags.reserve(1)?;
        self.bundles.push(bundle)?;
        let _ = self.tags.push(tag);
        Ok(())
    }

    /// The tags of the languages, in the order in which they are asked.
    pub fn languages(&self) -> &[&'s str]
        ensures { map (λ tag. tag.now) result.now ≡ tags_in self.now }
    {
        self.tags.as_slice()
    }

    /// The bundles of the languages, in the same order.
    pub fn bundles(&self) -> &[FluentBundle<'r, 's, M, C, F, G, T>]
        ensures { result.now ≡ bundles_in self.now }
    {
        self.bundles.as_slice()
    }

    /// The chain of the bundles, which writes texts too, and gives them in memory of their own.
    pub fn chain(&self) -> Chain<'_, '_, 'r, 's, M, C, F, G, T>
        ensures { bundles_of result ≡ bundles_in self.now }
    {
        Chain::of(self.bundles.as_slice())
    }

    /// The value of the message in the first language where it has one, as [`Chain::format_value`] gives it: where no
    /// language has a value for it, the id is borrowed as the text, and nothing is added.
    ///
    /// # Errors
    ///
    /// An allocation failed: what was added begins the errors.
    pub fn format_value<'t>(
        &self,
        id: &'t str,
        args: Option<&FluentArgs<'_, C>>,
        errors: &mut Vec<FluentError>,
    ) -> Result<CowStr<'t>, AllocError>
    where
        's: 't,
        ensures text { GivesFirst (⟦<Self as Means>⟧.meaning self.now) C.content args.entry id.now (value_at id.now)
            result errors }
        ensures borrowed { BorrowsFirst ⟦<FluentBundle<'r, 's, M, C, F, G, T> as Means>⟧.meaning (bundles_in self.now)
            id.now (value_at id.now) result }
    {
        Chain::of(self.bundles.as_slice()).format_value(id, args, errors)
    }

    /// The first attribute of the name in the first language where the message has one, as
    /// [`Chain::format_attribute`] gives it.
    ///
    /// # Errors
    ///
    /// An allocation failed: what was added begins the errors.
    pub fn format_attribute<'t>(
        &self,
        id: &'t str,
        name: &str,
        args: Option<&FluentArgs<'_, C>>,
        errors: &mut Vec<FluentError>,
    ) -> Result<CowStr<'t>, AllocError>
    where
        's: 't,
        ensures text { GivesFirst (⟦<Self as Means>⟧.meaning self.now) C.content args.entry id.now (attribute_at id.now name.now)
            result errors }
        ensures borrowed { BorrowsFirst ⟦<FluentBundle<'r, 's, M, C, F, G, T> as Means>⟧.meaning (bundles_in self.now)
            id.now (attribute_at id.now name.now) result }
    {
        Chain::of(self.bundles.as_slice()).format_attribute(id, name, args, errors)
    }

    /// The language that answers for the value of a message. `None` where no language has a value for it, and the id
    /// stands for the text.
    pub fn find_value(&self, id: &str) -> Option<&'s str>
        ensures { tag_seen result ≡ tag_in self.now (index_with (value_at id.now) (⟦<Self as Means>⟧.meaning self.now)) }
    {
        self.tag_at(Chain::of(self.bundles.as_slice()).find_value(id))
    }

    /// The language that answers for an attribute of a message, by the rule of [`Catalog::find_value`].
    pub fn find_attribute(&self, id: &str, name: &str) -> Option<&'s str>
        ensures { tag_seen result ≡ tag_in self.now (index_with (attribute_at id.now name.now) (⟦<Self as Means>⟧.meaning self.now)) }
    {
        self.tag_at(Chain::of(self.bundles.as_slice()).find_attribute(id, name))
    }

    /// The tag at an index, if there is one.
    fn tag_at(&self, index: Option<usize>) -> Option<&'s str>
        ensures { tag_seen result ≡ tag_in self.now index }
    {
        match self.tags.as_slice().get(index?) {
            Some(tag) => Some(*tag),
            None => None,
        }
    }
}

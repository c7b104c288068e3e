//! Bundles that are asked in turn.
ghost use Rattle.std.specs.Prelude.{◌≡◌, length, slice_get};
ghost use Rattle.std.specs.Option.{option_map};
ghost use Rattle.fluent_text.specs.Writer.{CountsFault};
ghost use Rattle.fluent_bundle.specs.BundleView.{attribute_at, value_at};
ghost use Rattle.fluent_bundle.specs.Formatted.{BorrowsAsked, GivesFound, TakesNoMemory, WritesFound};
ghost use Rattle.fluent_fallback.specs.Chain.{index_with, BorrowsFirst, FirstTakesNoMemory, GivesFirst, OwnsFirst, WritesFirst, bundles_of, has, pattern_of, referred, pattern_asked};
ghost use Rattle.fluent_fallback.specs.Inside.Found.{index, pattern_seen};

use fluent_bundle::{
    Counting, FluentArgs, FluentBundle, FluentError, FluentFormatter, FluentFunction, FluentType,
    Means, MemoizerKind, Transform, WriteFault, ast,
};
use fluent_text::put;
use std::alloc::{AllocError, Global};
use std::borrow::CowStr;
use std::io::Write;

/// A bundle of a chain, which is borrowed.
#[derive(Clone, Copy, Drop)]
pub struct BundleRef<'b, 'r, 's, M, C, F, G, T = Box<dyn Transform>>(
    pub &'b FluentBundle<'r, 's, M, C, F, G, T>,
);

/// The bundles of a chain.
#[derive(Drop)]
enum Bundles<'c, 'b, 'r, 's, M, C, F, G, T> {
    /// Each at an index of its own.
    Refs(&'c [BundleRef<'b, 'r, 's, M, C, F, G, T>]),
    /// In a list.
    List(&'c [FluentBundle<'r, 's, M, C, F, G, T>]),
}

/// Bundles in the order in which they are asked, such as one for each language that somebody reads, the one that is
/// read best first: `Chain::of(&bundles)` of a list, or `Chain::new(&[BundleRef(&polish), BundleRef(&english)])`.
///
/// They have one type, and may have different plural rules of that type, transforms, formatters, functions and
/// limits: the bundle that answers answers by its own, and looks up references in itself alone.
#[derive(Drop)]
pub struct Chain<'c, 'b, 'r, 's, M, C, F, G, T = Box<dyn Transform>> {
    bundles: Bundles<'c, 'b, 'r, 's, M, C, F, G, T>,
}

impl<
    'c,
    'b,
    'r,
    's: 'r,
    M: MemoizerKind,
    C: FluentType,
    F: FluentFunction<C>,
    G: FluentFormatter<C, M>,
    T: Transform,
> Means for Chain<'c, 'b, 'r, 's, M, C, F, G, T> {
    ghost use Rattle.std.specs.Prelude.{List, map};
    ghost use Rattle.fluent_ast.specs.Tree.{Text};
    ghost use Rattle.fluent_semantics.specs.Bundle.{Bundle};
    ghost use Rattle.fluent_bundle.specs.BundleView.{meant};

    ghost Kind = { List (Bundle Text) };

    ghost meaning = { λ chain. map
        (meant M.category C.shown C.alike F.answer G.formatted T.changed) (bundles_of chain) };
}

impl<
    'c,
    'b,
    'r,
    's: 'r,
    M: MemoizerKind,
    C: FluentType,
    F: FluentFunction<C>,
    G: FluentFormatter<C, M>,
    T: Transform,
> Chain<'c, 'b, 'r, 's, M, C, F, G, T> {
    /// A chain of these bundles, of which the first is asked first.
    pub fn new(bundles: &'c [BundleRef<'b, 'r, 's, M, C, F, G, T>]) -> Self
        ensures { bundles_of result ≡ referred bundles.now }
    {
        Chain {
            bundles: Bundles::Refs(bundles),
        }
    }

    /// A chain of the bundles of a list, of which the first is asked first.
    pub fn of(bundles: &'c [FluentBundle<'r, 's, M, C, F, G, T>]) -> Self
        ensures { bundles_of result ≡ bundles.now }
    {
        Chain {
            bundles: Bundles::List(bundles),
        }
    }

    /// Whether one of the bundles has a message of this id with a value. Where none has, the id stands for the text.
    pub fn has_value(&self, id: &str) -> bool
        ensures { result ≡ has ⟦<FluentBundle<'r, 's, M, C, F, G, T> as Means>⟧.meaning
            self.now id.now None }
    {
        self.find_value(id).is_some()
    }

    /// Whether one of the bundles has a message of this id with an attribute of this name. Where none has, the id
    /// stands for the text.
    pub fn has_attribute(&self, id: &str, name: &str) -> bool
        ensures { result ≡ has ⟦<FluentBundle<'r, 's, M, C, F, G, T> as Means>⟧.meaning
            self.now id.now (Some name.entry) }
    {
        self.find_attribute(id, name).is_some()
    }

    /// Which bundle answers for the value of a message: its index among the bundles, from 0 on. `None` where none has
    /// a value for it, and the id stands for the text.
    pub fn find_value(&self, id: &str) -> Option<usize>
        ensures { result ≡ index_with (value_at id.now) (⟦<Self as Means>⟧.meaning self.now) }
    {
        self.find(id, None)
    }

    /// Which bundle answers for an attribute of a message, by the rule of [`Chain::find_value`].
    pub fn find_attribute(&self, id: &str, name: &str) -> Option<usize>
        ensures { result ≡ index_with (attribute_at id.now name.now) (⟦<Self as Means>⟧.meaning self.now) }
    {
        self.find(id, Some(name))
    }

    /// The value of the message in the first bundle where it has one, as [`FluentBundle::format_pattern`] gives it
    /// there; what went wrong in it is added at the end of the list of errors. Where no bundle has a value for it,
    /// the id is borrowed as the text, and nothing is added. This, and a value that is borrowed, take no memory.
    ///
    /// # Errors
    ///
    /// An allocation failed: what was added begins the errors.
    pub fn format_value<'t>(
        &self,
        id: &'t str,
        args: Option<&FluentArgs<'_, C>>,
        errors: &mut Vec<FluentError>,
    ) -> Result<CowStr<'t>, AllocError>
    where
        's: 't,
        ensures text { GivesFirst (⟦<Self as Means>⟧.meaning self.now) C.content args.entry id.now (value_at id.now)
            result errors }
        ensures borrowed { BorrowsFirst ⟦<FluentBundle<'r, 's, M, C, F, G, T> as Means>⟧.meaning (bundles_of self.now)
            id.now (value_at id.now) result }
    {
        self.format(id, None, args, errors)
    }

    /// The first attribute of the name in the first bundle where the message has one, by the rule of
    /// [`Chain::format_value`]: where no bundle has it, the id is borrowed as the text, and nothing is added.
    ///
    /// # Errors
    ///
    /// An allocation failed: what was added begins the errors.
    pub fn format_attribute<'t>(
        &self,
        id: &'t str,
        name: &str,
        args: Option<&FluentArgs<'_, C>>,
        errors: &mut Vec<FluentError>,
    ) -> Result<CowStr<'t>, AllocError>
    where
        's: 't,
        ensures text { GivesFirst (⟦<Self as Means>⟧.meaning self.now) C.content args.entry id.now (attribute_at id.now name.now)
            result errors }
        ensures borrowed { BorrowsFirst ⟦<FluentBundle<'r, 's, M, C, F, G, T> as Means>⟧.meaning (bundles_of self.now)
            id.now (attribute_at id.now name.now) result }
    {
        self.format(id, Some(name), args, errors)
    }

    /// The text that [`Chain::format_value`] gives, in memory of its own, so that it is borrowed from nothing.
    ///
    /// # Errors
    ///
    /// An allocation failed: what was added begins the errors.
    pub fn format_value_owned(
        &self,
        alloc: Global,
        id: &str,
        args: Option<&FluentArgs<'_, C>>,
        errors: &mut Vec<FluentError>,
    ) -> Result<String, AllocError>
        ensures { OwnsFirst (⟦<Self as Means>⟧.meaning self.now) C.content args.entry id.now (value_at id.now)
            result errors }
    {
        match self.format_value(id, args, errors) {
            Ok(text) => text.into_owned(alloc),
            Err(AllocError) => Err(AllocError),
        }
    }

    /// The text that [`Chain::format_attribute`] gives, in memory of its own.
    ///
    /// # Errors
    ///
    /// An allocation failed: what was added begins the errors.
    pub fn format_attribute_owned(
        &self,
        alloc: Global,
        id: &str,
        name: &str,
        args: Option<&FluentArgs<'_, C>>,
        errors: &mut Vec<FluentError>,
    ) -> Result<String, AllocError>
        ensures { OwnsFirst (⟦<Self as Means>⟧.meaning self.now) C.content args.entry id.now (attribute_at id.now name.now)
            result errors }
    {
        match self.format_attribute(id, name, args, errors) {
            Ok(text) => text.into_owned(alloc),
            Err(AllocError) => Err(AllocError),
        }
    }

    /// Writes the value of the message in the first bundle where it has one, as [`FluentBundle::write_pattern`] writes
    /// it there: the formatter isn't asked about the whole text. Where no bundle has a value for it, the id is
    /// written, and nothing is added.
    ///
    /// # Errors
    ///
    /// As for [`FluentBundle::write_value`]. The id, and texts alone of a bundle without transform, take no memory.
    pub fn write_value<W: Write>(
        &self,
        w: &mut Counting<W>,
        id: &str,
        args: Option<&FluentArgs<'_, C>>,
        errors: &mut Vec<FluentError>,
    ) -> Result<(), WriteFault>
        ensures text { WritesFirst (⟦<Self as Means>⟧.meaning self.now) C.content args.entry id.now (value_at id.now)
            result W.contents w errors }
        ensures fault { CountsFault w.old w.new result }
        ensures memory { FirstTakesNoMemory ⟦<FluentBundle<'r, 's, M, C, F, G, T> as Means>⟧.meaning (bundles_of self.now)
            (value_at id.now) result }
    {
        self.write(w, id, None, args, errors)
    }

    /// Writes the first attribute of the name in the first bundle where the message has one, by the rule of
    /// [`Chain::write_value`].
    ///
    /// # Errors
    ///
    /// As for [`Chain::write_value`].
    pub fn write_attribute<W: Write>(
        &self,
        w: &mut Counting<W>,
        id: &str,
        name: &str,
        args: Option<&FluentArgs<'_, C>>,
        errors: &mut Vec<FluentError>,
    ) -> Result<(), WriteFault>
        ensures text { WritesFirst (⟦<Self as Means>⟧.meaning self.now) C.content args.entry id.now (attribute_at id.now name.now)
            result W.contents w errors }
        ensures fault { CountsFault w.old w.new result }
        ensures memory { FirstTakesNoMemory ⟦<FluentBundle<'r, 's, M, C, F, G, T> as Means>⟧.meaning (bundles_of self.now)
            (attribute_at id.now name.now) result }
    {
        self.write(w, id, Some(name), args, errors)
    }

    /// The value of the message, or its attribute where a name is given, in the first bundle that has it, or the id.
    fn format<'t>(
        &self,
        id: &'t str,
        attribute: Option<&str>,
        args: Option<&FluentArgs<'_, C>>,
        errors: &mut Vec<FluentError>,
    ) -> Result<CowStr<'t>, AllocError>
    where
        's: 't,
        ensures text { GivesFirst (⟦<Self as Means>⟧.meaning self.now) C.content args.entry id.now (pattern_asked id.now attribute.entry)
            result errors }
        ensures borrowed { BorrowsFirst ⟦<FluentBundle<'r, 's, M, C, F, G, T> as Means>⟧.meaning (bundles_of self.now)
            id.now (pattern_asked id.now attribute.entry) result }
    {
        for index in 0..self.len() {
            if let Some(bundle) = self.bundle_at(index) {
                if let Some(text) = Self::format_in(bundle, id, attribute, args, errors)? {
                    return Ok(text);
                }
            }
        }
        Ok(CowStr::Borrowed(id))
    }

    /// Writes the value of the message, or its attribute where a name is given, in the first bundle that has it, or the id.
    fn write<W: Write>(
        &self,
        w: &mut Counting<W>,
        id: &str,
        attribute: Option<&str>,
        args: Option<&FluentArgs<'_, C>>,
        errors: &mut Vec<FluentError>,
    ) -> Result<(), WriteFault>
        ensures text { WritesFirst (⟦<Self as Means>⟧.meaning self.now) C.content args.entry id.now (pattern_asked id.now attribute.entry)
            result W.contents w errors }
        ensures fault { CountsFault w.old w.new result }
        ensures memory { FirstTakesNoMemory ⟦<FluentBundle<'r, 's, M, C, F, G, T> as Means>⟧.meaning (bundles_of self.now)
            (pattern_asked id.now attribute.entry) result }
    {
        for index in 0..self.len() {
            if let Some(bundle) = self.bundle_at(index) {
                if Self::write_in(bundle, w, id, attribute, args, errors)? {
                    return Ok(());
                }
            }
        }
        put(w, id.as_bytes())
    }

    /// The index of the first bundle that has the value of the message, or its attribute where a name is given.
    fn find(&self, id: &str, attribute: Option<&str>) -> Option<usize>
        ensures { result ≡ index ⟦<FluentBundle<'r, 's, M, C, F, G, T> as Means>⟧.meaning
            self.now id.now attribute.entry }
    {
        for index in 0..self.len() {
            if let Some(bundle) = self.bundle_at(index) {
                if Self::pattern_in(bundle, id, attribute).is_some() {
                    return Some(index);
                }
            }
        }
        None
    }

    /// How many bundles there are.
    fn len(&self) -> usize
        ensures { result ≡ length (bundles_of self.now) }
    {
        match self.bundles {
            Bundles::Refs(refs) => refs.len(),
            Bundles::List(bundles) => bundles.len(),
        }
    }

    /// The bundle at an index.
    fn bundle_at(&self, index: usize) -> Option<&'c FluentBundle<'r, 's, M, C, F, G, T>>
        ensures { option_map (λ b. b.now) result ≡ slice_get (bundles_of self.now) index }
    {
        match self.bundles {
            Bundles::Refs(refs) => Some(refs.get(index)?.0),
            Bundles::List(bundles) => bundles.get(index),
        }
    }

    /// The value of the message in a bundle, or its attribute where a name is given, if it is there.
    fn format_in(
        bundle: &FluentBundle<'r, 's, M, C, F, G, T>,
        id: &str,
        attribute: Option<&str>,
        args: Option<&FluentArgs<'_, C>>,
        errors: &mut Vec<FluentError>,
    ) -> Result<Option<CowStr<'s>>, AllocError>
        ensures text { GivesFound (⟦<FluentBundle<'r, 's, M, C, F, G, T> as Means>⟧.meaning bundle.now) C.content args.entry
            (pattern_asked id.now attribute.entry) result errors }
        ensures borrowed { BorrowsAsked bundle.now
            (pattern_of ⟦<FluentBundle<'r, 's, M, C, F, G, T> as Means>⟧.meaning id.now attribute.entry bundle.now) result }
    {
        match attribute {
            None => bundle.format_value(id, args, errors),
            Some(name) => bundle.format_attribute(id, name, args, errors),
        }
    }

    /// Writes the value of the message in a bundle, or its attribute where a name is given, and says whether it is
    /// there.
    fn write_in<W: Write>(
        bundle: &FluentBundle<'r, 's, M, C, F, G, T>,
        w: &mut Counting<W>,
        id: &str,
        attribute: Option<&str>,
        args: Option<&FluentArgs<'_, C>>,
        errors: &mut Vec<FluentError>,
    ) -> Result<bool, WriteFault>
        ensures text { WritesFound (⟦<FluentBundle<'r, 's, M, C, F, G, T> as Means>⟧.meaning bundle.now) C.content args.entry
            (pattern_asked id.now attribute.entry) result W.contents w errors }
        ensures fault { CountsFault w.old w.new result }
        ensures memory { TakesNoMemory bundle.now
            (pattern_of ⟦<FluentBundle<'r, 's, M, C, F, G, T> as Means>⟧.meaning id.now attribute.entry bundle.now) result }
    {
        match attribute {
            None => bundle.write_value(w, id, args, errors),
            Some(name) => bundle.write_attribute(w, id, name, args, errors),
        }
    }

    /// The value of the message in a bundle, or its first attribute where a name is given.
    fn pattern_in(
        bundle: &FluentBundle<'r, 's, M, C, F, G, T>,
        id: &str,
        attribute: Option<&str>,
    ) -> Option<&'r ast::Pattern<'s>>
        ensures { pattern_seen result ≡ pattern_of ⟦<FluentBundle<'r, 's, M, C, F, G, T> as Means>⟧.meaning id.now attribute.entry bundle.now }
    {
        let message = bundle.get_message(id)?;
        match attribute {
            None => message.value(),
            Some(name) => Some(message.get_attribute(name)?.value()),
        }
    }
}

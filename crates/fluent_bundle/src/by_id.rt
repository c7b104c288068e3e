//! The formatting calls by id, each a look-up and a formatting call in one.
#![tactic(auto, unfolding(crate::specs::BundleView::bundle_parts))]

ghost use Rattle.std.specs.Prelude.{◌≡◌, IfSome};
ghost use Rattle.std.specs.Option.{option_map};
ghost use Rattle.fluent_text.specs.Writer.{CountsFault};
ghost use Rattle.fluent_resolver_state.specs.FoundView.{IsStored, content_at};
ghost use Rattle.fluent_bundle.specs.BundleView.{attribute_at, entries_in, value_at};
ghost use Rattle.fluent_bundle.specs.Formatted.{BorrowsAsked, GivesFound, TakesNoMemory, WritesFound};
ghost use Rattle.fluent_bundle.specs.Inside.Asked.{pattern_asked};

use crate::bundle::FluentBundle;
use crate::laws;
use fluent_bundle_entries::FluentError;
use fluent_intl::MemoizerKind;
use fluent_resolver::{Found, Means, Target, found};
use fluent_syntax::ast::Identifier;
use fluent_syntax::{Counting, WriteFault};
use fluent_values::types::FluentType;
use fluent_values::{Context, FluentArgs, FluentFormatter, FluentFunction, Transform};
use std::alloc::AllocError;
use std::borrow::CowStr;
use std::io::Write;

impl<
    'r,
    's: 'r,
    M: MemoizerKind,
    C: FluentType,
    F: FluentFunction<C>,
    G: FluentFormatter<C, M>,
    T: Transform,
> FluentBundle<'r, 's, M, C, F, G, T> {
    /// The text of the value of the message that an id names, as [`FluentBundle::format_pattern`] gives it; what went
    /// wrong is added at the end of the list of errors. `None` where there is no such message, or it has no value:
    /// then nothing is added. The message is looked up once, and what its value refers to by what is kept of it, so this
    /// is the fastest way to format it. `None`, and a value that is borrowed, take no memory.
    ///
    /// # Errors
    ///
    /// An allocation failed: what was added begins the errors.
    pub fn format_value(
        &self,
        id: &str,
        args: Option<&FluentArgs<'_, C>>,
        errors: &mut Vec<FluentError>,
    ) -> Result<Option<CowStr<'s>>, AllocError>
        ensures finds { GivesFound (⟦<Self as Means>⟧.meaning self.now) C.content args.entry (value_at id.now)
            result errors }
        ensures borrowed { BorrowsAsked self.now (value_at id.now (⟦<Self as Means>⟧.meaning self.now)) result }
    {
        self.format_asked(id, &None, args, errors)
    }

    /// The text of the first attribute of a name of the message that an id names, by the rule of
    /// [`FluentBundle::format_value`]: `None` where there is no such message, or it has no such attribute.
    ///
    /// # Errors
    ///
    /// An allocation failed: what was added begins the errors.
    pub fn format_attribute(
        &self,
        id: &str,
        name: &str,
        args: Option<&FluentArgs<'_, C>>,
        errors: &mut Vec<FluentError>,
    ) -> Result<Option<CowStr<'s>>, AllocError>
        ensures finds { GivesFound (⟦<Self as Means>⟧.meaning self.now) C.content args.entry (attribute_at id.now name.now)
            result errors }
        ensures borrowed { BorrowsAsked self.now (attribute_at id.now name.now (⟦<Self as Means>⟧.meaning self.now))
            result }
    {
        self.format_asked(id, &Some(Identifier { name }), args, errors)
    }

    /// Writes the value of the message that an id names, as [`FluentBundle::write_pattern`] writes it, and says that
    /// it is there. `false` where there is no such message, or it has no value: then nothing is written and nothing
    /// is added to the list of errors, and no memory is taken.
    ///
    /// # Errors
    ///
    /// As of [`FluentBundle::write_pattern`]: what was written begins the text, and what was added begins the
    /// errors.
    pub fn write_value<W: Write>(
        &self,
        w: &mut Counting<W>,
        id: &str,
        args: Option<&FluentArgs<'_, C>>,
        errors: &mut Vec<FluentError>,
    ) -> Result<bool, WriteFault>
        ensures writes { WritesFound (⟦<Self as Means>⟧.meaning self.now) C.content args.entry (value_at id.now)
            result W.contents w errors }
        ensures fault { CountsFault w.old w.new result }
        ensures memory { TakesNoMemory self.now (value_at id.now (⟦<Self as Means>⟧.meaning self.now)) result }
    {
        self.write_asked(w, id, &None, args, errors)
    }

    /// Writes the first attribute of a name of the message that an id names, by the rule of
    /// [`FluentBundle::write_value`]: `false` where there is no such message, or it has no such attribute.
    ///
    /// # Errors
    ///
    /// As of [`FluentBundle::write_value`].
    pub fn write_attribute<W: Write>(
        &self,
        w: &mut Counting<W>,
        id: &str,
        name: &str,
        args: Option<&FluentArgs<'_, C>>,
        errors: &mut Vec<FluentError>,
    ) -> Result<bool, WriteFault>
        ensures writes { WritesFound (⟦<Self as Means>⟧.meaning self.now) C.content args.entry (attribute_at id.now name.now)
            result W.contents w errors }
        ensures fault { CountsFault w.old w.new result }
        ensures memory { TakesNoMemory self.now (attribute_at id.now name.now (⟦<Self as Means>⟧.meaning self.now))
            result }
    {
        self.write_asked(w, id, &Some(Identifier { name }), args, errors)
    }

    /// The text of what is asked for by id: a value, or an attribute where a name is given.
    fn format_asked(
        &self,
        id: &str,
        name: &Option<Identifier<'_>>,
        args: Option<&FluentArgs<'_, C>>,
        errors: &mut Vec<FluentError>,
    ) -> Result<Option<CowStr<'s>>, AllocError>
        ensures finds { GivesFound (⟦<Self as Means>⟧.meaning self.now) C.content args.entry (pattern_asked id.now name.now)
            result errors }
        ensures borrowed { BorrowsAsked self.now (pattern_asked id.now name.now (⟦<Self as Means>⟧.meaning self.now))
            result }
    {
        laws::limits_are_kept();
        match self.target(id, name) {
            Some(target) => {
                match self.format_linked(target.pattern, target.cursor, args, errors) {
                    Ok(text) => Ok(Some(text)),
                    Err(AllocError) => Err(AllocError),
                }
            }
            None => Ok(None),
        }
    }

    /// Writes what is asked for by id, and says whether it is there.
    #[inline(always)]
    fn write_asked<W: Write>(
        &self,
        w: &mut Counting<W>,
        id: &str,
        name: &Option<Identifier<'_>>,
        args: Option<&FluentArgs<'_, C>>,
        errors: &mut Vec<FluentError>,
    ) -> Result<bool, WriteFault>
        ensures writes { WritesFound (⟦<Self as Means>⟧.meaning self.now) C.content args.entry (pattern_asked id.now name.now)
            result W.contents w errors }
        ensures fault { CountsFault w.old w.new result }
        ensures memory { TakesNoMemory self.now (pattern_asked id.now name.now (⟦<Self as Means>⟧.meaning self.now))
            result }
    {
        laws::limits_are_kept();
        match self.target(id, name) {
            Some(target) => {
                match self.write_linked(w, target.pattern, target.cursor, args, errors) {
                    Ok(()) => Ok(true),
                    Err(fault) => Err(fault),
                }
            }
            None => Ok(false),
        }
    }

    /// What is asked for by id, with what is kept of it.
    #[inline(always)]
    fn target(&self, id: &str, name: &Option<Identifier<'_>>) -> Option<Target<'_, 's>>
        ensures content { option_map content_at result ≡ pattern_asked id.now name.now
            (⟦<Self as Means>⟧.meaning self.now) }
        ensures stored { IfSome result (IsStored (entries_in self.now)) }
    {
        match found::by_id(&self.entries, id, name) {
            Found::Pattern(target) => Some(target),
            Found::Unknown => None,
            Found::WithoutValue => None,
        }
    }
}

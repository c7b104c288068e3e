//! The formatting calls of a bundle.
#![tactic(auto, unfolding(crate::specs::BundleView::bundle_parts))]

ghost use Rattle.std.specs.Prelude.{◌≡◌, ◌&&◌, ◌++◌, false, not, is_some, string_bytes, IfOk, OnOk};
ghost use Rattle.std.specs.Option.{option_map};
ghost use Rattle.fluent_semantics.specs.Value.{text_value};
ghost use Rattle.fluent_text.specs.Writer.{CountsFault};
ghost use Rattle.fluent_ast.specs.References.{references};
ghost use Rattle.fluent_ast.specs.View.{pattern_view};
ghost use Rattle.fluent_bundle_entries.specs.IdNumbers.{IsPlaced};
ghost use Rattle.fluent_bundle_entries.specs.Texts.{is_text};
ghost use Rattle.fluent_resolver_state.specs.Status.{arguments_view};
ghost use Rattle.fluent_bundle.specs.BundleView.{entries_in, transform_in};
ghost use Rattle.fluent_bundle.specs.Formatted.{Adds, AddsSome, BorrowsText, GivesWhole, GivesWithin, KeepsLimit, WritesBeginning, WritesFree, WritesWhole, WritesWithin, written};
ghost use Rattle.fluent_bundle.specs.Inside.Outputs.{CountsHalt, WritesOut};
ghost use Rattle.fluent_bundle.specs.Inside.Unchanged.{unchanged_text, untransformed_text};

use crate::bundle::FluentBundle;
use crate::laws;
use crate::resolver::answers::formatted;
use fluent_bundle_entries::FluentError;
use fluent_intl::MemoizerKind;
use fluent_resolver::output::through;
use fluent_resolver::texts::{is_text, only_text, push_texts, write_texts};
use fluent_resolver::{Cursor, Means, State, write_whole};
use fluent_syntax::ast::Pattern;
use fluent_syntax::{Counting, WriteFault, put};
use fluent_values::output::{Halt, Output, with_error};
use fluent_values::types::{FluentType, FluentValue};
use fluent_values::{Context, FluentArgs, FluentFormatter, FluentFunction, Transform};
use std::alloc::AllocError;
use std::borrow::CowStr;
use std::io::Write;

/// How many bytes are kept ready for a text that is answered: most are no longer, so most take memory once.
const ROOM: usize = 64;

/// The same for a pattern of more than a few elements.
const MORE_ROOM: usize = 128;

const FEW: usize = 2;

impl<
    'r,
    's: 'r,
    M: MemoizerKind,
    C: FluentType,
    F: FluentFunction<C>,
    G: FluentFormatter<C, M>,
    T: Transform,
> FluentBundle<'r, 's, M, C, F, G, T> {
    /// Writes the text of a pattern, and adds what went wrong in it at the end of the list of errors. Without
    /// arguments each variable is missing.
    ///
    /// A placeable stands between U+2068 and U+2069 where isolation is on and it is not all of its pattern. A
    /// variable that is missing is an error and shows as its name in braces. One call opens at most as many
    /// placeables as the bundle's limit (100 where none was set): one more is an error, and of what stands after
    /// it nothing is written but the fallback of each placeable that is open. Text elements are written as the
    /// transform changes them, and values as the formatter shows them; it is not asked about the whole text.
    ///
    /// # Errors
    ///
    /// `Writer` where a write failed, `Zero` where a write of a nonempty piece took no byte, `Memory` where an
    /// allocation failed. Then what was written begins the text, and what was added begins the errors: all that the
    /// pattern does up to one place, and nothing after it. A pattern of texts alone takes no memory where no
    /// transform is set.
    pub fn write_pattern<W: Write>(
        &self,
        w: &mut Counting<W>,
        pattern: &Pattern<'s>,
        args: Option<&FluentArgs<'_, C>>,
        errors: &mut Vec<FluentError>,
    ) -> Result<(), WriteFault>
        // By substitution, where that opens no more placeables than the limit.
        ensures within { WritesWithin (⟦<Self as Means>⟧.meaning self.now) C.content args.entry pattern.now
            result W.contents w errors }

        // With the budget, in every case.
        ensures whole { WritesWhole (⟦<Self as Means>⟧.meaning self.now) C.content args.entry pattern.now
            result W.contents w errors }

        // Whatever is answered.
        ensures prefix { WritesBeginning (⟦<Self as Means>⟧.meaning self.now) C.content args.entry pattern.now
            W.contents w errors }
        ensures limit { KeepsLimit (⟦<Self as Means>⟧.meaning self.now) (arguments_view C.content args.entry)
            (pattern_view pattern.now) }
        ensures fault { CountsFault w.old w.new result }
        ensures memory { WritesFree self.now (pattern_view pattern.now) result }
    {
        laws::limits_are_kept();
        self.write_linked(w, pattern, Cursor::by_name(), args, errors)
    }

    /// The text of a pattern, as [`FluentBundle::write_pattern`] writes it, and then as the formatter shows it as a
    /// value; what went wrong is added at the end of the list of errors. A pattern that is one text is borrowed and
    /// takes no memory, where no transform and no formatter is set.
    ///
    /// # Errors
    ///
    /// An allocation failed: what was added begins the errors.
    pub fn format_pattern(
        &self,
        pattern: &Pattern<'s>,
        args: Option<&FluentArgs<'_, C>>,
        errors: &mut Vec<FluentError>,
    ) -> Result<CowStr<'s>, AllocError>
        ensures within { GivesWithin (⟦<Self as Means>⟧.meaning self.now) C.content args.entry pattern.now
            result errors }
        ensures whole { GivesWhole (⟦<Self as Means>⟧.meaning self.now) C.content args.entry pattern.now
            result errors }
        ensures prefix { AddsSome (written (⟦<Self as Means>⟧.meaning self.now) C.content args.entry pattern.now).errors errors }
        ensures limit { KeepsLimit (⟦<Self as Means>⟧.meaning self.now) (arguments_view C.content args.entry)
            (pattern_view pattern.now) }
        ensures borrowed { BorrowsText self.now (pattern_view pattern.now) result }
    {
        laws::limits_are_kept();
        self.format_linked(pattern, Cursor::by_name(), args, errors)
    }

    /// Writes a pattern whose references go by their links, or by name where there are none.
    #[inline(always)]
    pub(crate) fn write_linked<W: Write>(
        &self,
        w: &mut Counting<W>,
        pattern: &Pattern<'s>,
        cursor: Cursor<'_>,
        args: Option<&FluentArgs<'_, C>>,
        errors: &mut Vec<FluentError>,
    ) -> Result<(), WriteFault>
        requires { IsPlaced (entries_in self.now) (references (pattern_view pattern.now)) cursor }
        ensures whole { WritesWhole (⟦<Self as Means>⟧.meaning self.now) C.content args.entry pattern.now
            result W.contents w errors }
        ensures prefix { WritesBeginning (⟦<Self as Means>⟧.meaning self.now) C.content args.entry pattern.now
            W.contents w errors }
        ensures fault { CountsFault w.old w.new result }
        ensures memory { WritesFree self.now (pattern_view pattern.now) result }
    {
        // A law does nothing when it is called: its clauses go into the proof.
        laws::events_are_the_run();
        if let Some(text) = self.untransformed_text(pattern) {
            return put(w, text.as_bytes());
        }
        if self.writes_texts_alone(pattern) {
            return write_texts(w, pattern);
        }
        let mut unused = String::new(self.alloc);
        let mut kept = String::new(self.alloc);
        let out = &mut through(w, &mut unused, &mut kept);
        let written = self.write_resolved(out, pattern, cursor, args, errors);
        with_error(written, &mut out.error)
    }

    /// The text of a pattern whose references go by their links, or by name where there are none.
    #[inline(always)]
    pub(crate) fn format_linked(
        &self,
        pattern: &Pattern<'s>,
        cursor: Cursor<'_>,
        args: Option<&FluentArgs<'_, C>>,
        errors: &mut Vec<FluentError>,
    ) -> Result<CowStr<'s>, AllocError>
        requires { IsPlaced (entries_in self.now) (references (pattern_view pattern.now)) cursor }
        ensures whole { GivesWhole (⟦<Self as Means>⟧.meaning self.now) C.content args.entry pattern.now
            result errors }
        ensures prefix { AddsSome (written (⟦<Self as Means>⟧.meaning self.now) C.content args.entry pattern.now).errors errors }
        ensures borrowed { BorrowsText self.now (pattern_view pattern.now) result }
    {
        if let Some(text) = self.sole_text(pattern) {
            return Ok(CowStr::Borrowed(text));
        }
        let text = self.gather(pattern, cursor, args, errors)?;
        match self.formatted_text(text.as_str())? {
            Some(shown) => Ok(CowStr::Owned(shown)),
            None => Ok(CowStr::Owned(text)),
        }
    }

    /// The text of a pattern that is one text, where no transform and no formatter is set.
    #[inline(always)]
    fn sole_text<'p>(&self, pattern: &Pattern<'p>) -> Option<&'p str>
        ensures { option_map (λ t. t.now) result ≡ unchanged_text self.now (pattern_view pattern.now) }
    {
        if self.transform.is_none() && self.formatter.is_none() {
            only_text(pattern)
        } else {
            None
        }
    }

    /// The text of a pattern that is one text, where no transform is set.
    #[inline(always)]
    fn untransformed_text<'p>(&self, pattern: &Pattern<'p>) -> Option<&'p str>
        ensures { option_map (λ t. t.now) result ≡ untransformed_text self.now (pattern_view pattern.now) }
    {
        if self.transform.is_none() {
            only_text(pattern)
        } else {
            None
        }
    }

    /// Whether the text of a pattern is its own: it holds nothing else, and no transform is set.
    fn writes_texts_alone(&self, pattern: &Pattern<'_>) -> bool
        ensures { result ≡ (not (is_some (transform_in self.now))
            && is_text (pattern_view pattern.now)) }
    {
        self.transform.is_none() && is_text(pattern)
    }

    /// The formatter's answer for a whole text.
    fn formatted_text(&self, text: &str) -> Result<Option<String>, AllocError>
        ensures { IfOk result (λ shown. option_map string_bytes shown
            ≡ (⟦<Self as Means>⟧.meaning self.now).formatter (text_value text.now)) }
    {
        let value = FluentValue::String(CowStr::Borrowed(text));
        formatted(self.alloc, &self.formatter, &value, &self.intls)
    }

    /// Writes the text of a pattern that has placeables, or texts that are changed, to where an output says, which keeps no
    /// text. It is part of each caller, where it is known what a state begins with.
    #[inline(always)]
    fn write_resolved<W: Write>(
        &self,
        out: &mut Output<W>,
        pattern: &Pattern<'s>,
        cursor: Cursor<'_>,
        args: Option<&FluentArgs<'_, C>>,
        errors: &mut Vec<FluentError>,
    ) -> Result<(), Halt>
        requires placed { IsPlaced (entries_in self.now) (references (pattern_view pattern.now)) cursor }
        requires unkept { out.old.is_kept ≡ false }
        ensures { WritesOut (⟦<Self as Means>⟧.meaning self.now) C.content args.entry pattern.now
            result W.contents out errors }
    {
        let mut state = State::new(self, &self.entries, args, Some(errors));
        let written = write_whole(&mut state, out, pattern, cursor);
        match state.into_errors() {
            Some(_list) => written,
            None => written,
        }
    }

    /// The text of a pattern in memory of its own.
    fn gather(
        &self,
        pattern: &Pattern<'s>,
        cursor: Cursor<'_>,
        args: Option<&FluentArgs<'_, C>>,
        errors: &mut Vec<FluentError>,
    ) -> Result<String, AllocError>
        requires { IsPlaced (entries_in self.now) (references (pattern_view pattern.now)) cursor }
        ensures text { IfOk result (λ text. string_bytes text
            ≡ (written (⟦<Self as Means>⟧.meaning self.now) C.content args.entry pattern.now).value) }
        ensures errors { OnOk result (Adds (written (⟦<Self as Means>⟧.meaning self.now) C.content args.entry pattern.now).errors errors) }
        ensures prefix { AddsSome (written (⟦<Self as Means>⟧.meaning self.now) C.content args.entry pattern.now).errors errors }
    {
        // A law does nothing when it is called: its clauses go into the proof.
        laws::events_are_the_run();
        let mut text = String::with_capacity(self.alloc, room_for(pattern))?;
        if self.writes_texts_alone(pattern) {
            push_texts(&mut text, pattern)?;
            return Ok(text);
        }
        let mut unused = Counting::new(Vec::new(self.alloc));
        match self.write_into(&mut text, &mut unused, pattern, cursor, args, errors) {
            Ok(()) => Ok(text),
            Err(_) => Err(AllocError),
        }
    }

    /// Writes the text of a pattern at the end of a text, and leaves the writer beside it alone.
    fn write_into<W: Write>(
        &self,
        text: &mut String,
        unused: &mut Counting<W>,
        pattern: &Pattern<'s>,
        cursor: Cursor<'_>,
        args: Option<&FluentArgs<'_, C>>,
        errors: &mut Vec<FluentError>,
    ) -> Result<(), Halt>
        requires { IsPlaced (entries_in self.now) (references (pattern_view pattern.now)) cursor }
        ensures text { OnOk result (string_bytes text.new
            ≡ string_bytes text.old ++ (written (⟦<Self as Means>⟧.meaning self.now) C.content args.entry pattern.now).value) }
        ensures errors { OnOk result (Adds (written (⟦<Self as Means>⟧.meaning self.now) C.content args.entry pattern.now).errors errors) }
        ensures prefix { AddsSome (written (⟦<Self as Means>⟧.meaning self.now) C.content args.entry pattern.now).errors errors }
        ensures fault { CountsHalt unused.old unused.new result }
    {
        // A law does nothing when it is called: its clauses go into the proof.
        laws::events_are_the_run();
        let mut kept = String::new(self.alloc);
        let mut out = Output {
            writer: unused,
            buffer: text,
            is_buffered: true,
            error: None,
            kept: &mut kept,
            is_kept: false,
        };
        self.write_resolved(&mut out, pattern, cursor, args, errors)
    }
}

/// How many bytes are kept ready for the text of a pattern.
#[inline(always)]
fn room_for(pattern: &Pattern<'_>) -> usize {
    if pattern.elements.len() <= FEW {
        ROOM
    } else {
        MORE_ROOM
    }
}

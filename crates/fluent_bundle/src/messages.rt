//! A message with all its parts as text.
ghost use Rattle.std.specs.Prelude.{◌≡◌, map, None, IfOk, IsOk, OnOk};
ghost use Rattle.std.specs.Cow.{cow_str_bytes};
ghost use Rattle.std.specs.Option.{option_map};
ghost use Rattle.fluent_ast.specs.View.{attribute_view, pattern_view};
ghost use Rattle.fluent_bundle_entries.specs.MessageView.{content_of};
ghost use Rattle.fluent_resolver_state.specs.Status.{arguments_view};
ghost use Rattle.fluent_bundle.specs.BundleView.{message_at};
ghost use Rattle.fluent_bundle.specs.Formatted.{Adds, AddsSome, ShowsMessage, attribute_errors, attribute_shown, attribute_texts, message_errors, message_shown, message_text, value_errors, value_text, wrong_with};

use crate::bundle::FluentBundle;
use fluent_bundle_entries::{FluentError, GetEntry};
use fluent_intl::MemoizerKind;
use fluent_resolver::Means;
use fluent_syntax::ast;
use fluent_values::types::FluentType;
use fluent_values::{Context, FluentArgs, FluentFormatter, FluentFunction, Transform};
use std::alloc::AllocError;
use std::borrow::CowStr;

/// A message as text.
#[derive(Drop)]
pub struct FormattedMessage<'s> {
    /// The text of its value, where it has one.
    pub value: Option<CowStr<'s>>,
    /// Its attributes in order.
    pub attributes: Vec<FormattedAttribute<'s>>,
}

/// An attribute as text.
#[derive(Drop)]
pub struct FormattedAttribute<'s> {
    pub name: &'s str,
    pub text: CowStr<'s>,
}

impl<
    'r,
    's: 'r,
    M: MemoizerKind,
    C: FluentType,
    F: FluentFunction<C>,
    G: FluentFormatter<C, M>,
    T: Transform,
> FluentBundle<'r, 's, M, C, F, G, T> {
    /// The message that an id names, with its value and all its attributes as text, or `None` where it names none.
    /// Each part is what [`FluentBundle::format_pattern`] gives for it by itself, under a limit of its own; what went
    /// wrong is added at the end of the list of errors, of the value first, then of the attributes in order.
    ///
    /// # Errors
    ///
    /// An allocation failed: what was added begins the errors. `None` takes no memory.
    pub fn format_message(
        &self,
        id: &str,
        args: Option<&FluentArgs<'_, C>>,
        errors: &mut Vec<FluentError>,
    ) -> Result<Option<FormattedMessage<'s>>, AllocError>
        ensures text { IfOk result (ShowsMessage (⟦<Self as Means>⟧.meaning self.now) C.content args.entry id.now) }
        ensures errors { OnOk result (Adds (wrong_with (⟦<Self as Means>⟧.meaning self.now) C.content args.entry id.now) errors) }
        ensures prefix { AddsSome (wrong_with (⟦<Self as Means>⟧.meaning self.now) C.content args.entry id.now) errors }
        ensures none { message_at id.now (⟦<Self as Means>⟧.meaning self.now) ≡ None → IsOk result }
    {
        match self.get_entry_message(id) {
            Some(message) => match self.format_parts(message, args, errors) {
                Ok(formatted) => Ok(Some(formatted)),
                Err(AllocError) => Err(AllocError),
            },
            None => Ok(None),
        }
    }

    /// The value and the attributes of a message.
    fn format_parts(
        &self,
        message: &ast::Message<'s>,
        args: Option<&FluentArgs<'_, C>>,
        errors: &mut Vec<FluentError>,
    ) -> Result<FormattedMessage<'s>, AllocError>
        ensures text { IfOk result (λ shown. message_shown shown
            ≡ message_text (⟦<Self as Means>⟧.meaning self.now) (arguments_view C.content args.entry) (content_of message.now)) }
        ensures all { OnOk result (Adds (message_errors (⟦<Self as Means>⟧.meaning self.now) (arguments_view C.content args.entry) (Some (content_of message.now))) errors) }
        ensures prefix { AddsSome (message_errors (⟦<Self as Means>⟧.meaning self.now) (arguments_view C.content args.entry) (Some (content_of message.now))) errors }
    {
        let value = self.format_optional(&message.value, args, errors)?;
        let attributes = self.format_attributes(message.attributes.as_slice(), args, errors)?;
        Ok(FormattedMessage { value, attributes })
    }

    /// The text of a value, where there is one.
    fn format_optional(
        &self,
        value: &Option<ast::Pattern<'s>>,
        args: Option<&FluentArgs<'_, C>>,
        errors: &mut Vec<FluentError>,
    ) -> Result<Option<CowStr<'s>>, AllocError>
        ensures text { IfOk result (λ shown. option_map cow_str_bytes shown
            ≡ value_text (⟦<Self as Means>⟧.meaning self.now) (arguments_view C.content args.entry) (option_map pattern_view value.now)) }
        ensures all { OnOk result (Adds (value_errors (⟦<Self as Means>⟧.meaning self.now) (arguments_view C.content args.entry) (option_map pattern_view value.now)) errors) }
        ensures prefix { AddsSome (value_errors (⟦<Self as Means>⟧.meaning self.now) (arguments_view C.content args.entry) (option_map pattern_view value.now)) errors }
    {
        match value {
            Some(pattern) => match self.format_pattern(pattern, args, errors) {
                Ok(text) => Ok(Some(text)),
                Err(AllocError) => Err(AllocError),
            },
            None => Ok(None),
        }
    }

    /// The texts of attributes, each under its name.
    fn format_attributes(
        &self,
        list: &[ast::Attribute<'s>],
        args: Option<&FluentArgs<'_, C>>,
        errors: &mut Vec<FluentError>,
    ) -> Result<Vec<FormattedAttribute<'s>>, AllocError>
        ensures text { IfOk result (λ shown. map attribute_shown shown.items
            ≡ attribute_texts (⟦<Self as Means>⟧.meaning self.now) (arguments_view C.content args.entry) (map attribute_view list.now)) }
        ensures all { OnOk result (Adds (attribute_errors (⟦<Self as Means>⟧.meaning self.now) (arguments_view C.content args.entry) (map attribute_view list.now)) errors) }
        ensures prefix { AddsSome (attribute_errors (⟦<Self as Means>⟧.meaning self.now) (arguments_view C.content args.entry) (map attribute_view list.now)) errors }
    {
        let mut texts = Vec::new(self.alloc);
        for attribute in list {
            let text = self.format_pattern(&attribute.value, args, errors)?;
            texts.push(FormattedAttribute {
                name: attribute.id.name,
                text,
            })?;
        }
        Ok(texts)
    }
}

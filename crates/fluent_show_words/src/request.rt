//! What the words of a call ask for.

ghost use Rattle.std.specs.Prelude.{◌≡◌, string_bytes, nat_eq, codes};
ghost use Rattle.std.specs.List.{list_all, starts_with};
ghost use Rattle.fluent_show_words.specs.Words.{name_and_value, is_argument, asked_from, asked_after, asked_by};
ghost use Rattle.fluent_show_words.specs.WordsView.{asked_seen, options_view, texts_of};

use crate::options::{Named, Options, Word, word_of};

/// A message to show, how, and the words `NAME=VALUE` of its arguments.
#[derive(Clone, Copy)]
pub struct Request<'w> {
    pub options: Options<'w>,
    pub id: &'w str,
    pub arguments: &'w [String],
}

/// What stands before the first `=`, and what stands after it.
pub fn name_and_value(word: &str) -> (&str, &str)
    ensures { (result.0.now, result.1.now) ≡ name_and_value word.now }
{
    match word.split_once('=') {
        Some((name, value)) => (name, value),
        None => (word, ""),
    }
}

/// Whether a word has a `=` with something before it.
fn is_argument(word: &str) -> bool
    ensures { result ≡ is_argument word.now }
{
    match word.split_once('=') {
        Some((name, _)) => !name.is_empty(),
        None => false,
    }
}

fn is_option(word: &str) -> bool
    ensures { result ≡ starts_with nat_eq word.now (codes "--") }
{
    word.starts_with("--")
}

fn are_arguments(words: &[String]) -> bool
    ensures { result ≡ list_all (λ word. is_argument (string_bytes word)) words.now }
{
    words.iter().all(|word| is_argument(word.as_str()))
}

impl<'w> Request<'w> {
    /// What options and then `ID [NAME=VALUE]..` ask for; `None` where the words are not of that form.
    pub fn of(words: &'w [String]) -> Option<Request<'w>>
        ensures { asked_seen result ≡ asked_by (texts_of words.now) }
    {
        Request::after(Options::none(), None, words)
    }

    /// The same after these options, and, where there is one, after the word of an option whose text comes next.
    fn after(
        options: Options<'w>,
        before: Option<Named>,
        words: &'w [String],
    ) -> Option<Request<'w>>
        ensures { asked_seen result ≡ asked_after (options_view options.entry) before (texts_of words.now) }
    {
        let (word, rest) = words.split_first()?;
        if let Some(named) = before {
            return Request::after(options.with_text(named, word.as_str())?, None, rest);
        }
        match word_of(word.as_str()) {
            Word::NoIsolate => Request::after(options.without_isolation()?, None, rest),
            Word::WithText(named) => Request::after(options, Some(named), rest),
            Word::Other => Request::from_id(options, words),
        }
    }

    /// What the words from the id on ask for.
    fn from_id(options: Options<'w>, words: &'w [String]) -> Option<Request<'w>>
        ensures { asked_seen result ≡ asked_from (options_view options.entry) (texts_of words.now) }
    {
        let (id, arguments) = words.split_first()?;
        if is_option(id.as_str()) {
            return None;
        }
        if !are_arguments(arguments) {
            return None;
        }
        Some(Request {
            options,
            id: id.as_str(),
            arguments,
        })
    }
}

//! The options before the id of a message.

ghost use Rattle.std.specs.Prelude.{◌≡◌};
ghost use Rattle.fluent_show_words.specs.Words.{no_options, once, with_text, without_isolation, word_of};
ghost use Rattle.fluent_show_words.specs.WordsView.{options_seen, options_view, text_view};

/// How a message is shown, and from which sources.
#[derive(Clone, Copy)]
pub struct Options<'w> {
    pub isolate: bool,
    /// The plural rules for how many there are, as a text.
    pub cardinal: Option<&'w str>,
    /// The plural rules for which one it is, as a text.
    pub ordinal: Option<&'w str>,
    /// An FTL source that stands in where the input has no value for the message.
    pub fallback: Option<&'w str>,
}

/// An option with a text after it.
#[derive(Clone, Copy)]
pub(crate) enum Named {
    Cardinal,
    Ordinal,
    Fallback,
}

/// What a word before the id is.
#[derive(Clone, Copy)]
pub(crate) enum Word {
    NoIsolate,
    WithText(Named),
    Other,
}

/// Which option a word is.
pub(crate) fn word_of(word: &str) -> Word
    ensures { result ≡ word_of word.now }
{
    match word {
        "--no-isolate" => Word::NoIsolate,
        "--cardinal" => Word::WithText(Named::Cardinal),
        "--ordinal" => Word::WithText(Named::Ordinal),
        "--fallback" => Word::WithText(Named::Fallback),
        _ => Word::Other,
    }
}

/// The options, where no text was given before.
fn once<'w>(before: Option<&'w str>, options: Options<'w>) -> Option<Options<'w>>
    ensures { options_seen result ≡ once (text_view before.entry) (options_view options.entry) }
{
    match before {
        None => Some(options),
        Some(_) => None,
    }
}

impl<'w> Options<'w> {
    /// What holds where no option is given.
    pub(crate) fn none() -> Options<'w>
        ensures { options_view result ≡ no_options }
    {
        Options {
            isolate: true,
            cardinal: None,
            ordinal: None,
            fallback: None,
        }
    }

    /// The same with isolation off; `None` where it was off.
    pub(crate) fn without_isolation(self) -> Option<Options<'w>>
        ensures { options_seen result ≡ without_isolation (options_view self.entry) }
    {
        if self.isolate {
            Some(Options {
                isolate: false,
                ..self
            })
        } else {
            None
        }
    }

    /// The same with the text of an option; `None` where that had one.
    pub(crate) fn with_text(self, named: Named, text: &'w str) -> Option<Options<'w>>
        ensures { options_seen result ≡ with_text named text.now (options_view self.entry) }
    {
        let text = Some(text);
        match named {
            Named::Cardinal => once(
                self.cardinal,
                Options {
                    cardinal: text,
                    ..self
                },
            ),
            Named::Ordinal => once(
                self.ordinal,
                Options {
                    ordinal: text,
                    ..self
                },
            ),
            Named::Fallback => once(
                self.fallback,
                Options {
                    fallback: text,
                    ..self
                },
            ),
        }
    }
}

//! What was expected where reading stopped.
use std::fmt;

/// Why no entry can be read: where reading stopped, and what was expected there.
#[derive(Clone, Copy, PartialEq, Eq, Debug, Drop)]
pub struct Reason {
    /// Where reading stopped, in bytes from the start of what can't be read. It may lie behind the Junk, which ends where a
    /// line begins with a letter: in braces and brackets such a line is read too.
    pub offset: usize,
    pub expected: Expected,
}

/// What was expected, or which mistake stands there.
#[derive(Clone, Copy, PartialEq, Eq, Debug, Drop)]
pub enum Expected {
    /// A letter or `-`, with which an entry begins.
    EntryStart,
    EqualsSign,
    ClosingBrace,
    OpeningBracket,
    ClosingBracket,
    ClosingParenthesis,
    /// A line break before the variants of a select.
    LineEnd,
    /// The first letter of a name.
    Letter,
    Digit,
    /// A value or attributes of a message.
    ValueOrAttributes,
    /// A value of a term.
    TermValue,
    /// A function's name in upper case, since arguments follow it.
    FunctionName,
    /// The name of an argument, since a colon follows it.
    ArgumentName,
    /// A default variant among those of a select.
    DefaultVariant,
    /// A variant after `->`.
    Variant,
    /// A value of an attribute or a variant.
    Value,
    VariantKey,
    /// A string or a number, as a named argument's value.
    Literal,
    /// One default alone: this is the second.
    OneDefault,
    /// No message as a selector.
    NoMessageSelector,
    /// No term as a selector.
    NoTermSelector,
    /// No attribute of a message as a selector.
    NoAttributeSelector,
    /// No attribute of a term as a placeable.
    NoAttributePlaceable,
    /// The quote that ends a string.
    ClosingQuote,
    /// No positional argument after a named one.
    NoPositional,
    /// Another name: an argument before has this one.
    NewName,
    /// An escape of a string: `\\`, `\"`, `\u` or `\U`.
    KnownEscape,
    /// Four or six hexadecimal digits after `\u` or `\U`.
    HexadecimalDigits,
    /// No closing brace in a text.
    NoClosingBrace,
    Expression,
    /// No placeable as a selector.
    SimpleSelector,
    /// No more than 100 placeables and argument lists in one another.
    FewerLevels,
}

impl fmt::Display for Expected {
    ghost use Rattle.std.specs.Prelude.{Some};
    ghost use Rattle.fluent_reasons.specs.ExpectedText.{expected_text};

    ghost output = { λ e. Some (expected_text e) };

    fn fmt<W: fmt::Write>(&self, f: &mut fmt::Formatter<W>) -> fmt::Result {
        f.write_str(self.text())
    }
}

impl Expected {
    ghost use Rattle.std.specs.Prelude.{◌≡◌};
    ghost use Rattle.fluent_reasons.specs.ExpectedText.{expected_text};

    /// The text that is shown of it, for those who write FTL.
    pub fn text(&self) -> &'static str
        ensures { result.now ≡ expected_text self.now }
    {
        match self {
            Expected::EntryStart => "expected an entry, which begins with a letter, '-' or '#'",
            Expected::EqualsSign => "expected '='",
            Expected::ClosingBrace => "expected a closing '}'",
            Expected::OpeningBracket => "expected '['",
            Expected::ClosingBracket => "expected a closing ']'",
            Expected::ClosingParenthesis => "expected a closing ')'",
            Expected::LineEnd => "expected a line break before the variants",
            Expected::Letter => "expected a name, which begins with a letter",
            Expected::Digit => "expected a digit",
            Expected::ValueOrAttributes => "expected a value or attributes",
            Expected::TermValue => "expected a value of the term",
            Expected::FunctionName => "a function's name is in capitals",
            Expected::ArgumentName => "expected a simple name before ':'",
            Expected::DefaultVariant => "expected a default variant, marked by '*'",
            Expected::Variant => "expected a variant after '->'",
            Expected::Value => "expected a value",
            Expected::VariantKey => "expected a variant's key, a name or a number",
            Expected::Literal => "expected a string or a number",
            Expected::OneDefault => "a default variant stands before this one",
            Expected::NoMessageSelector => "a message can't be a selector",
            Expected::NoTermSelector => "a term can't be a selector",
            Expected::NoAttributeSelector => "a message's attribute can't be a selector",
            Expected::NoAttributePlaceable => "a term's attribute can't be shown",
            Expected::ClosingQuote => "expected a closing '\"'",
            Expected::NoPositional => "a positional argument can't follow a named one",
            Expected::NewName => "an argument before has this name",
            Expected::KnownEscape => "expected an escape: \\\\, \\\", \\uXXXX or \\UXXXXXX",
            Expected::HexadecimalDigits =>
                "expected hexadecimal digits, four after \\u and six after \\U",
            Expected::NoClosingBrace =>
                "'}' can't stand in a text, and after variants it begins a line",
            Expected::Expression => "expected an expression",
            Expected::SimpleSelector => "a placeable can't be a selector",
            Expected::FewerLevels => "expected no more than 100 levels of braces and brackets",
        }
    }
}

//! The kinds of values in records.
ghost use Rattle.std.specs.Prelude.{◌≡◌};
ghost use Rattle.fluent_answers.specs.Kinds.{byte_of, kind_of};

/// What the value of a record is.
#[derive(Clone, Copy, Debug, Drop, PartialEq, Eq)]
pub enum Kind {
    /// A text.
    Text,
    /// A number: its text, and after a semicolon its options.
    Number,
    /// A value of the caller's own: its token, a line feed and what it is shown as.
    Own,
    /// No value.
    Nothing,
    /// What a function answers that can make no sense of its arguments.
    Error,
}

/// The kind that a byte stands for.
pub(crate) fn kind_of(byte: u8) -> Option<Kind>
    ensures { result ≡ kind_of byte }
{
    match byte {
        b't' => Some(Kind::Text),
        b'n' => Some(Kind::Number),
        b'c' => Some(Kind::Own),
        b'o' => Some(Kind::Nothing),
        b'e' => Some(Kind::Error),
        _ => None,
    }
}

/// The byte that stands for a kind.
pub(crate) fn byte_of(kind: Kind) -> u8
    ensures { result ≡ byte_of kind }
{
    match kind {
        Kind::Text => b't',
        Kind::Number => b'n',
        Kind::Own => b'c',
        Kind::Nothing => b'o',
        Kind::Error => b'e',
    }
}

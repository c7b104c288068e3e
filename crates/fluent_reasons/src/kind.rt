//! What is kept of what was read.

/// What an expression is.
#[derive(Clone, Copy, Drop)]
pub enum Kind {
    /// A string or a number.
    Literal,
    Variable,
    Function,
    Message,
    MessageAttribute,
    Term,
    TermAttribute,
    Placeable,
}

/// Which variants a select has so far.
#[derive(Clone, Copy, Drop)]
pub enum Seen {
    NoVariant,
    /// Variants, none of them the default.
    Variants,
    /// The default, and maybe others.
    Default,
}

//! The tree of an FTL source (Fluent Syntax 1.0, abstract syntax), borrowed from the source's text.
//!
//! Every type is made of its parts, so a tree can also be made by hand.

/// What a source holds: its messages, terms and unreadable parts, in order.
#[derive(Debug, Drop)]
pub struct Resource<'s> {
    pub body: Vec<Entry<'s>>,
}

/// One entry of a source. Comments leave none.
#[derive(Debug, Drop)]
pub enum Entry<'s> {
    Message(Message<'s>),
    Term(Term<'s>),
    /// Lines that no entry could be read from.
    Junk { content: &'s str },
}

/// A message: a value, attributes, or both.
#[derive(Debug, Drop)]
pub struct Message<'s> {
    pub id: Identifier<'s>,
    pub value: Option<Pattern<'s>>,
    pub attributes: Vec<Attribute<'s>>,
}

/// A term. Its name stands without the dash.
#[derive(Debug, Drop)]
pub struct Term<'s> {
    pub id: Identifier<'s>,
    pub value: Pattern<'s>,
    pub attributes: Vec<Attribute<'s>>,
}

/// An attribute of a message or a term.
#[derive(Debug, Drop)]
pub struct Attribute<'s> {
    pub id: Identifier<'s>,
    pub value: Pattern<'s>,
}

/// The name of an entry, an attribute, an argument, a function or a variable.
#[derive(Clone, Copy, Debug, Drop)]
pub struct Identifier<'s> {
    pub name: &'s str,
}

/// A pattern: texts and placeables, in order.
#[cycle(tree)]
#[derive(Debug, Drop)]
pub struct Pattern<'s> {
    pub elements: Vec<PatternElement<'s>>,
}

/// One element of a pattern.
#[cycle(tree)]
#[derive(Debug, Drop)]
pub enum PatternElement<'s> {
    TextElement { value: &'s str },
    Placeable { expression: Expression<'s> },
}

/// What stands between the braces of a placeable.
#[cycle(tree)]
#[derive(Debug, Drop)]
pub enum Expression<'s> {
    Inline(InlineExpression<'s>),
    Select {
        selector: InlineExpression<'s>,
        variants: Vec<Variant<'s>>,
    },
}

/// An expression other than a select. Arguments stand after a `Box`, since few references have any: an element of a
/// pattern has 104 bytes so, and 144 else.
#[cycle(tree)]
#[derive(Debug, Drop)]
pub enum InlineExpression<'s> {
    /// The text between the quotes, as the source has it: escapes are not resolved.
    StringLiteral {
        value: &'s str,
    },
    NumberLiteral {
        value: &'s str,
    },
    FunctionReference {
        id: Identifier<'s>,
        arguments: Box<CallArguments<'s>>,
    },
    MessageReference {
        id: Identifier<'s>,
        attribute: Option<Identifier<'s>>,
    },
    TermReference {
        id: Identifier<'s>,
        attribute: Option<Identifier<'s>>,
        arguments: Option<Box<CallArguments<'s>>>,
    },
    VariableReference {
        id: Identifier<'s>,
    },
    Placeable {
        expression: Box<Expression<'s>>,
    },
}

/// The arguments of a function or a term, positional ones first.
#[cycle(tree)]
#[derive(Debug, Drop)]
pub struct CallArguments<'s> {
    pub positional: Vec<InlineExpression<'s>>,
    pub named: Vec<NamedArgument<'s>>,
}

/// An argument with its name.
#[cycle(tree)]
#[derive(Debug, Drop)]
pub struct NamedArgument<'s> {
    pub name: Identifier<'s>,
    pub value: InlineExpression<'s>,
}

/// A variant of a select.
#[cycle(tree)]
#[derive(Debug, Drop)]
pub struct Variant<'s> {
    pub key: VariantKey<'s>,
    pub value: Pattern<'s>,
    pub default: bool,
}

/// The key of a variant.
#[derive(Clone, Copy, Debug, Drop)]
pub enum VariantKey<'s> {
    Identifier { name: &'s str },
    NumberLiteral { value: &'s str },
}

//! Work that waits.

use fluent_ast::ast::{CallArguments, Expression, Identifier, InlineExpression, Pattern, Variant};
use fluent_references::Cursor;
use fluent_resolver_state::gathered::Gathered;
use fluent_resolver_state::{Environment, Found};
use fluent_values::FluentValue;

/// Work that waits: an expression or an argument that was put off, or what comes after one.
#[derive(Drop)]
pub(crate) enum Frame<'p, 'args, 's, C> {
    /// The elements of a pattern from the next on.
    Elements {
        pattern: &'p Pattern<'s>,
        next: usize,
        cursor: Cursor<'p>,
    },
    /// A placeable that is open: it ends with its fallback where the limit was reached, and with its last mark.
    Close {
        expression: &'p Expression<'s>,
        marked: bool,
    },
    /// A pattern that was put on the path, or wasn't.
    Leave(bool),
    /// Variables are looked up here again, after a term.
    Outer(Environment<'p, 'args, 's, C>),
    /// A select, which waits for its selector's value.
    Choose {
        variants: &'p Vec<Variant<'s>>,
        cursor: Cursor<'p>,
    },
    /// A call, which waits for the value of its next argument.
    Gather(Box<Gathering<'p, 's, C>>),
    /// What is kept is a value; what was kept before is kept again.
    Value {
        outer: String,
        was_kept: bool,
    },
    /// An expression that was put off: it is written.
    Express {
        expression: &'p Expression<'s>,
        cursor: Cursor<'p>,
    },
    /// An argument or a selector that was put off: its value is made.
    Resolve {
        inline: &'p InlineExpression<'s>,
        cursor: Cursor<'p>,
    },
}

/// A call whose arguments are gathered.
#[derive(Drop)]
pub(crate) struct Gathering<'p, 's, C> {
    pub purpose: Purpose<'p, 's>,
    /// The values so far.
    pub positional: Vec<FluentValue<'p, C>>,
    pub named: Gathered<'p, C>,
    pub remaining: Remaining<'p, 's>,
}

/// The arguments of a call that are left: all of them, how many have their values, and where the others begin.
/// (A struct of its own: what is written through a box is not known where a field of what it holds is a `&` to a tree.)
#[derive(Clone, Copy, Drop)]
pub(crate) struct Remaining<'p, 's> {
    pub arguments: &'p CallArguments<'s>,
    pub taken: usize,
    pub taken_named: usize,
    pub cursor: Cursor<'p>,
}

/// What the arguments of a call are for.
#[derive(Drop)]
pub(crate) enum Purpose<'p, 's> {
    /// A function's answer is written.
    Show {
        inline: &'p InlineExpression<'s>,
        id: &'p Identifier<'s>,
        cursor: Cursor<'p>,
    },
    /// It is a value.
    Give {
        id: &'p Identifier<'s>,
        cursor: Cursor<'p>,
    },
    /// They are what variables of a term are looked up in.
    Local {
        inline: &'p InlineExpression<'s>,
        id: &'p Identifier<'s>,
        found: Found<'p, 's>,
    },
    /// They are handed out.
    Hand,
}

//! Parsed plural rules.

use fluent_intl::PluralCategory;
use std::num::NonZeroU64;

/// An operand of a number, by its letter.
#[derive(Clone, Copy)]
pub(crate) enum Operand {
    N,
    I,
    F,
    T,
    V,
    W,
    C,
    E,
}

/// Whole numbers from the first to the last; none where the last is below the first.
#[derive(Clone, Copy)]
pub(crate) struct Range {
    pub first: u64,
    pub last: u64,
}

/// That an operand, or its remainder, is in one of the ranges, or that it isn't.
#[derive(Drop)]
pub(crate) struct Relation {
    pub operand: Operand,
    /// What the operand is divided by, if it is.
    pub divisor: Option<NonZeroU64>,
    pub equal: bool,
    pub ranges: Vec<Range>,
}

/// A category, and when a number has it: where one of the groups holds, each relation of it. Without groups always.
#[derive(Drop)]
pub(crate) struct Rule {
    pub category: PluralCategory,
    pub condition: Option<Vec<Vec<Relation>>>,
}

/// From a place in a table up to another.
pub(crate) type Span = (usize, usize);

/// What a `Relation` has: the operand, what it is divided by or 0, whether it is in one of the ranges, the first of these by its ends, and from
/// where to where the others stand.
pub(crate) type KnownRelation = (Operand, u64, bool, u64, u64, usize, usize);

/// What a `Rule` has: the category, and where the groups of its condition stand.
pub(crate) type KnownRule = (PluralCategory, Option<Span>);

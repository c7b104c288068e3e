//! A stored pattern, by its content.
ghost use Rattle.fluent_references.specs.Inside.Content.{content};

use crate::hashing::hash_pattern;
use fluent_ast::ast::Pattern;
use std::hash::{Hash, Hasher};

/// A pattern that stands for its content.
#[derive(Clone, Copy, Drop)]
pub struct Stored<'r, 's> {
    pub pattern: &'r Pattern<'s>,
}

impl<'r, 's> PartialEq for Stored<'r, 's> {
    ghost use Rattle.std.specs.Cmp.{partial_equiv_from_equiv};
    ghost use Rattle.fluent_ast.specs.Tree.{is_yes, pattern_same};
    ghost use Rattle.fluent_ast.specs.Same.{equivalent};

    ghost eq = { λ a b. is_yes (pattern_same (content a) (content b)) };

    ghost laws = { partial_equiv_from_equiv (equivalent content pattern_same) };

    fn eq(&self, other: &Self) -> bool {
        *self.pattern == *other.pattern
    }
}

impl<'r, 's> Eq for Stored<'r, 's> {
    ghost use Rattle.fluent_ast.specs.Tree.{pattern_same};
    ghost use Rattle.fluent_ast.specs.Same.{equivalent};

    ghost laws = { equivalent content pattern_same };
}

impl<'r, 's> Hash for Stored<'r, 's> {
    ghost use Rattle.fluent_references.specs.Inside.Content.{respects};
    ghost use Rattle.fluent_references.specs.Inside.Hashed.{hashed};

    ghost hash_input = { λ a. hashed (content a) };

    ghost respects_eq = { respects };

    fn hash<H: Hasher>(&self, state: &mut H) {
        hash_pattern(self.pattern, state);
    }
}

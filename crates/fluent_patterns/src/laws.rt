//! Laws of what is found in patterns.
ghost use Rattle.std.specs.Prelude.{◌≡◌, length};
ghost use Rattle.fluent_ast.specs.Tree.{Pattern};
ghost use Rattle.fluent_patterns.specs.Numbered.{references};
ghost use Rattle.fluent_patterns.specs.Numbers.{calls};

/// Of each reference of a pattern it is told whether it is a call of `NUMBER` with what is no number.
pub fn calls_are_told_of_references()
    ensures { (p : Pattern) → length (calls p) ≡ length (references p) }
{}

//! Patterns of texts alone.
ghost use Rattle.std.specs.Prelude.{◌≡◌};
ghost use Rattle.fluent_ast.specs.View.{pattern_view};
ghost use Rattle.fluent_bundle_entries.specs.Texts.{is_text};

use fluent_ast::ast::{Pattern, PatternElement};

/// Whether each element of a pattern is a text.
pub fn is_text(pattern: &Pattern) -> bool
    ensures { result ≡ is_text (pattern_view pattern.now) }
{
    for element in &pattern.elements {
        match element {
            PatternElement::TextElement { .. } => {}
            PatternElement::Placeable { .. } => return false,
        }
    }
    true
}

//! Changes of the texts of patterns, as pseudolocalization makes them.
ghost use Rattle.std.specs.Prelude.{◌≡◌, IfOk, string_bytes};
ghost use Rattle.fluent_ast.specs.Tree.{Text};

use std::alloc::{AllocError, Global};

/// A change of each text element of the patterns that a bundle formats.
pub trait Transform: Drop {
    /// What a text is changed to.
    ghost changed: { Self → Text → Text };

    /// Changes a text.
    ///
    /// # Errors
    ///
    /// An allocation failed.
    fn transform(&self, alloc: Global, text: &str) -> Result<String, AllocError>
        ensures { IfOk result (λ made. string_bytes made ≡ changed self.now text.now) };
}

/// A boxed transform is one itself, so a bundle can hold one whose type isn't known where the bundle is made.
impl Transform for Box<dyn Transform> {
    ghost changed = { λ b. (Transform-box b).changed b.value };

    fn transform(&self, alloc: Global, text: &str) -> Result<String, AllocError> {
        (**self).transform(alloc, text)
    }
}

/// No transform: each text is written as it stands.
#[derive(Clone, Copy, Drop)]
pub struct NoTransform;

impl Transform for NoTransform {
    ghost changed = { λ _ text. text };

    fn transform(&self, alloc: Global, text: &str) -> Result<String, AllocError> {
        String::from_str(alloc, text)
    }
}

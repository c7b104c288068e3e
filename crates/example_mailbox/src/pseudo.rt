//! Texts that look translated.
use fluent_bundle::Transform;
use std::alloc::{AllocError, Global};

/// Puts accents on vowels.
#[derive(Clone, Copy, Drop)]
pub struct Pseudo;

impl Transform for Pseudo {
    ghost use Rattle.example_mailbox.specs.Accents.{accented_text};

    ghost changed = { λ _ text. accented_text text };

    fn transform(&self, alloc: Global, text: &str) -> Result<String, AllocError> {
        text.chars().map(accented).collect(alloc)
    }
}

ghost use Rattle.std.specs.Prelude.{◌≡◌};
ghost use Rattle.example_mailbox.specs.Accents.{accented};

/// A letter with an accent, where it is a vowel.
fn accented(letter: char) -> char
    ensures { result ≡ accented letter }
{
    match letter {
        'a' => 'á',
        'e' => 'é',
        'i' => 'í',
        'o' => 'ó',
        'u' => 'ú',
        _ => letter,
    }
}

//! Values of the caller's own.
ghost use Rattle.std.specs.Prelude.{◌≡◌, IfOk, string_bytes};
ghost use Rattle.fluent_answers.specs.OwnValues.{own_text};
ghost use Rattle.fluent_semantics.specs.Number.{is_text};

use fluent_values::FluentType;
use std::alloc::{AllocError, Global};

/// A value of the caller's own: a token that the caller knows it by, a line feed, and the text that it is shown as.
#[derive(Drop)]
pub struct OwnValue {
    text: String,
}

impl OwnValue {
    ghost use Rattle.fluent_answers.specs.OwnContent.{own_content};

    /// The value of a text.
    pub fn new(alloc: Global, text: &str) -> Result<OwnValue, AllocError>
        ensures { IfOk result (λ own. own_content own ≡ text.now) }
    {
        let text = String::from_str(alloc, text)?;
        Ok(OwnValue { text })
    }

    /// Its whole text.
    pub fn text(&self) -> &str
        ensures { result.now ≡ own_content self.now }
    {
        self.text.as_str()
    }
}

impl FluentType for OwnValue {
    ghost use Rattle.fluent_answers.specs.OwnContent.{own_content};

    ghost content = { own_content };

    ghost shown = { own_text };

    ghost alike = { is_text };

    fn duplicate(&self, alloc: Global) -> Result<OwnValue, AllocError> {
        OwnValue::new(alloc, self.text())
    }

    fn same(&self, other: &OwnValue) -> bool {
        self.text() == other.text()
    }

    fn as_string(&self, alloc: Global) -> Result<String, AllocError> {
        String::from_str(alloc, shown(self.text()))
    }
}

/// What stands after the first line feed.
fn shown(text: &str) -> &str
    ensures { result.now ≡ own_text text.now }
{
    match text.split_once('\n') {
        Some((_, shown)) => shown,
        None => "",
    }
}

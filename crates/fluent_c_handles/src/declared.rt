//! What the caller declared that it answers itself.
ghost use Rattle.std.specs.Prelude.{◌≡◌, string_bytes};
ghost use Rattle.std.specs.List.{list_any};
ghost use Rattle.fluent_semantics.specs.Number.{is_text};
ghost use Rattle.fluent_c_handles.specs.Answers.{declared_view};
ghost use Rattle.fluent_c_handles.specs.Family.{is_declared, is_something, nothing_declared};

use fluent_answers::Asker;
use std::alloc::Global;

/// What the caller answers itself.
#[derive(Drop)]
pub struct Declared {
    /// The names of its functions, each once. One may stand for an entry of a source by now.
    pub(crate) functions: Vec<String>,
    /// Whether it is asked how a value is shown.
    pub(crate) formatter: bool,
    /// Whether it is asked what a text element becomes.
    pub(crate) transform: bool,
}

impl Declared {
    /// Nothing.
    pub(crate) fn none(alloc: Global) -> Declared
        ensures { declared_view result ≡ nothing_declared }
    {
        Declared {
            functions: Vec::new(alloc),
            formatter: false,
            transform: false,
        }
    }

    /// Whether it is anything.
    pub(crate) fn is_any(&self) -> bool
        ensures { result ≡ is_something (declared_view self.now) }
    {
        !self.functions.is_empty() || self.formatter || self.transform
    }

    /// Whether there is a function of the name.
    pub(crate) fn has(&self, name: &str) -> bool
        ensures { result ≡ list_any (λ one. is_text name.now (string_bytes one)) self.now.functions.items }
    {
        self.functions.iter().any(|one| name == one.as_str())
    }

    /// Whether who asks is something of it.
    pub(crate) fn has_asker(&self, asker: &Asker) -> bool
        ensures { result ≡ is_declared asker.now (declared_view self.now) }
    {
        match asker {
            Asker::Function(name) => self.has(name.as_str()),
            Asker::Formatter => self.formatter,
            Asker::Transform => self.transform,
        }
    }
}

//! Objects of an application that answer each call by want of memory.
use fluent_bundle::{
    EnglishPlurals, FluentArgs, FluentFormatter, FluentFunction, FluentType, FluentValue, Transform,
};
use std::alloc::{AllocError, Global};

/// A value, a function, a formatter or a transform, for which there is never memory.
#[derive(Clone, Copy, Drop)]
pub struct Failing;

impl FluentType for Failing {
    ghost use Rattle.std.specs.Prelude.{[], true};

    ghost content = { λ _. [] };

    ghost shown = { λ _. [] };

    ghost alike = { λ _ _. true };

    fn duplicate(&self, _alloc: Global) -> Result<Failing, AllocError> {
        Err(AllocError)
    }

    fn same(&self, _other: &Failing) -> bool {
        true
    }

    fn as_string(&self, _alloc: Global) -> Result<String, AllocError> {
        Err(AllocError)
    }
}

impl FluentFunction<Failing> for Failing {
    ghost use Rattle.fluent_semantics.specs.Value.{no_value};

    ghost answer = { λ _ _ _. no_value };

    fn call<'a>(
        &self,
        _alloc: Global,
        _positional: &[FluentValue<'a, Failing>],
        _arguments: &FluentArgs<'a, Failing>,
    ) -> Result<FluentValue<'a, Failing>, AllocError> {
        Err(AllocError)
    }
}

impl FluentFormatter<Failing, EnglishPlurals> for Failing {
    ghost use Rattle.std.specs.Prelude.{None};

    ghost formatted = { λ _ _ _. None };

    fn format<'a>(
        &self,
        _alloc: Global,
        _value: &FluentValue<'a, Failing>,
        _intls: &EnglishPlurals,
    ) -> Result<Option<String>, AllocError> {
        Err(AllocError)
    }
}

impl Transform for Failing {
    ghost changed = { λ _ t. t };

    fn transform(&self, _alloc: Global, _text: &str) -> Result<String, AllocError> {
        Err(AllocError)
    }
}

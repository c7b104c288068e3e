//! A value of a type of one's own.
use crate::bundle::show_left;
use crate::showing::show;
use fluent_bundle::{
    EnglishPlurals, FluentArgs, FluentBundle, FluentResource, FluentType, FluentValue, NoFormatter,
    NoFunction,
};
use std::alloc::{AllocError, Global};
use std::borrow::CowStr;
use std::io;

/// A version of a program.
#[derive(Clone, Copy, Drop)]
pub struct Version {
    pub major: u16,
    pub minor: u16,
    pub patch: u16,
}

impl FluentType for Version {
    ghost use Rattle.std.specs.Prelude.{[], ◌∷◌};
    ghost use Rattle.fluent_semantics.specs.Number.{is_text};
    ghost use Rattle.example_guide.specs.Versions.{version_text};

    ghost content = { λ v. v.major ∷ v.minor ∷ v.patch ∷ [] };

    ghost shown = { version_text };

    ghost alike = { is_text };

    fn duplicate(&self, _alloc: Global) -> Result<Version, AllocError> {
        Ok(*self)
    }

    fn same(&self, other: &Version) -> bool {
        self.major == other.major && self.minor == other.minor && self.patch == other.patch
    }

    fn as_string(&self, alloc: Global) -> Result<String, AllocError> {
        format!(in alloc; "{}.{}.{}", self.major, self.minor, self.patch)
    }
}

/// Shows a version.
pub fn show_custom(rt: &HostRuntime, resource: &FluentResource<'_>) -> io::Result<()> {
    let mut bundle: FluentBundle<EnglishPlurals, Version, NoFunction, NoFormatter> =
        FluentBundle::new_default(rt.alloc())?;
    show_left(rt, bundle.add_resource(resource))?;

    let version = Version {
        major: 1,
        minor: 4,
        patch: 2,
    };
    let mut args = FluentArgs::new(rt.alloc());
    args.set(CowStr::Borrowed("version"), FluentValue::Custom(version))?;
    show(rt, &bundle, "updated", Some(&args))
}

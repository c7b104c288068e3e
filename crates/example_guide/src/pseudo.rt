//! A transform: texts that look translated, to try an application before any translation is there.
ghost use Rattle.std.specs.Prelude.{◌≡◌, IfOk};
ghost use Rattle.fluent_resource.specs.ResourceView.{entries_of};
ghost use Rattle.example_guide.specs.Accents.{accented, accented_english};

use crate::bundle::show_left;
use crate::showing::show;
use fluent_bundle::{
    AddFault, EnglishPlurals, FluentArgs, FluentBundle, FluentResource, FluentValue, Means,
    NoCustom, NoFormatter, NoFunction, Transform,
};
use std::alloc::{AllocError, Global};
use std::borrow::CowStr;
use std::io;

/// Puts accents on vowels.
#[derive(Clone, Copy, Drop)]
pub struct Pseudo;

impl Transform for Pseudo {
    ghost use Rattle.example_guide.specs.Accents.{accented_text};

    ghost changed = { λ _ text. accented_text text };

    fn transform(&self, alloc: Global, text: &str) -> Result<String, AllocError> {
        text.chars().map(accented).collect(alloc)
    }
}

/// A letter with an accent, where it is a vowel.
fn accented(letter: char) -> char
    ensures { result ≡ accented letter }
{
    match letter {
        'a' => 'á',
        'e' => 'é',
        'i' => 'í',
        'o' => 'ó',
        'u' => 'ú',
        _ => letter,
    }
}

/// A bundle in English whose texts have accents.
pub type Accented<'r, 's> = FluentBundle<
    'r,
    's,
    EnglishPlurals,
    NoCustom,
    NoFunction,
    NoFormatter,
    Pseudo,
>;

/// A bundle in English with the messages of a resource, whose texts have accents.
pub fn accented_bundle<'r, 's>(
    alloc: Global,
    resource: &'r FluentResource<'s>,
) -> Result<Accented<'r, 's>, AddFault>
    ensures { IfOk result (λ b. ⟦<Accented<'r, 's> as Means>⟧.meaning b
        ≡ accented_english (entries_of resource.now)) }
{
    let mut bundle = FluentBundle::new(alloc, Vec::new(alloc), EnglishPlurals);
    bundle.set_transform(Some(Pseudo));
    bundle.add_resource(resource)?;
    Ok(bundle)
}

/// Shows a message in accents, but for its argument.
pub fn show_transform(rt: &HostRuntime, resource: &FluentResource<'_>) -> io::Result<()> {
    let bundle = match accented_bundle(rt.alloc(), resource) {
        Ok(bundle) => bundle,
        Err(fault) => return show_left(rt, Err(fault)),
    };
    let mut args = FluentArgs::new(rt.alloc());
    args.set(CowStr::Borrowed("name"), FluentValue::from("Joe"))?;
    show(rt, &bundle, "intro", Some(&args))
}

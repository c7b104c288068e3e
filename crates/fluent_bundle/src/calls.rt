//! Calls on a bundle as values, so that what a list of them makes can be said.
ghost use Rattle.std.specs.Prelude.{◌≡◌, [], ◌∷◌, OnOk, OnErr, IsOk};
ghost use Rattle.std.specs.List.{All};
ghost use Rattle.fluent_bundle.specs.Inside.AddAnswers.{unless_alloc_failed};
ghost use Rattle.fluent_bundle.specs.BundleView.{intls_in, KeepsSettings};
ghost use Rattle.fluent_bundle.specs.Calls.{asks, BegunBy, Makes, IsSetting};

use crate::bundle::{AddFault, FluentBundle};
use fluent_intl::MemoizerKind;
use fluent_resolver::Means;
use fluent_resource::FluentResource;
use fluent_values::types::FluentType;
use fluent_values::{Context, FluentFormatter, FluentFunction, Transform};
use std::alloc::AllocError;

/// A call that changes a bundle, with what it hands over.
#[derive(Drop)]
pub enum Call<'r, 's, F, G, T = Box<dyn Transform>> {
    AddResource(&'r FluentResource<'s>),
    AddResourceOverriding(&'r FluentResource<'s>),
    /// A function under an id.
    AddFunction(&'s str, F),
    AddBuiltins,
    SetUseIsolating(bool),
    SetTransform(Option<T>),
    SetFormatter(Option<G>),
    SetPlaceableLimit(usize),
}

impl<
    'r,
    's,
    M: MemoizerKind,
    C: FluentType,
    F: FluentFunction<C>,
    G: FluentFormatter<C, M>,
    T: Transform,
> FluentBundle<'r, 's, M, C, F, G, T> {
    /// Makes a call; what it hands over goes to the bundle, or is dropped where the bundle doesn't take it. An id
    /// that was there is no failure here, and isn't reported, nor is a limit that is out of range.
    ///
    /// # Errors
    ///
    /// An allocation failed, which the setters can't meet: the bundle is as before.
    pub fn make(&mut self, call: Call<'r, 's, F, G, T>) -> Result<(), AllocError>
        ensures ok { OnOk result (Makes ⟦<Self as Means>⟧.meaning (asks F.answer G.formatted T.changed (intls_in self.old))
            (call.entry ∷ []) self.old self.new) }
        ensures err { OnErr result ((⟦<Self as Means>⟧.meaning self.new ≡ ⟦<Self as Means>⟧.meaning self.old)
            × KeepsSettings self.old self.new) }
        ensures succeeds { IsSetting call.entry → IsOk result }
    {
        match call {
            Call::AddResource(resource) => known(self.add_resource(resource)),
            Call::AddResourceOverriding(resource) => self.add_resource_overriding(resource),
            Call::AddFunction(id, function) => known(self.add_function(id, function)),
            Call::AddBuiltins => known(self.add_builtins()),
            Call::SetUseIsolating(value) => {
                self.set_use_isolating(value);
                Ok(())
            }
            Call::SetTransform(transform) => {
                self.set_transform(transform);
                Ok(())
            }
            Call::SetFormatter(formatter) => {
                self.set_formatter(formatter);
                Ok(())
            }
            Call::SetPlaceableLimit(limit) => {
                let _ = self.set_placeable_limit(limit);
                Ok(())
            }
        }
    }

    /// Makes the calls in order.
    ///
    /// # Errors
    ///
    /// An allocation failed at one of them, which is no setter: those before it were made, and no other; what the
    /// others hand over is dropped.
    pub fn make_all(&mut self, calls: Vec<Call<'r, 's, F, G, T>>) -> Result<(), AllocError>
        ensures ok { OnOk result (Makes ⟦<Self as Means>⟧.meaning (asks F.answer G.formatted T.changed (intls_in self.old))
            calls.entry.items self.old self.new) }
        ensures err { OnErr result (BegunBy ⟦<Self as Means>⟧.meaning (asks F.answer G.formatted T.changed (intls_in self.old))
            calls.entry.items self.old self.new) }
        ensures succeeds { All IsSetting calls.entry.items → IsOk result }
    {
        for call in calls {
            self.make(call)?;
        }
        Ok(())
    }
}

/// What an adding call answers where nobody asks what was left.
fn known(added: Result<(), AddFault>) -> Result<(), AllocError>
    ensures { result ≡ unless_alloc_failed added }
{
    match added {
        Err(AddFault::Memory) => Err(AllocError),
        _ => Ok(()),
    }
}

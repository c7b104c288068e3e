//! The state of one formatting call.
#![tactic(auto, unfolding(crate::specs::ScopeView::scope_parts, fluent_resolver_state::specs::Status::state_parts))]

ghost use Rattle.std.specs.Prelude.{◌≡◌, true};
ghost use Rattle.fluent_path.specs.Contents.{is_idle};
ghost use Rattle.fluent_resolver_state.specs.Status.{is_outside};

use crate::means::Means;
use fluent_bundle_entries::{FluentError, Ids, ResolverError};
use fluent_resolver_state::{Counts, State};
use fluent_values::{Context, FluentArgs, FluentFunction, FluentType, HasBundle};
use std::alloc::AllocError;

/// The state of one formatting call between the calls that resolve a part of a pattern: its bundle, where its
/// variables are looked up, its list of errors, how many more placeables it may open, and what it did.
#[derive(Drop)]
pub struct Scope<'errors, 'p, 'r, 's, 'args, C, F, B> {
    pub(crate) state: State<'errors, 'p, 'r, 's, 'args, C, F, B>,
    /// No pattern is being written.
    ghost idle: { is_idle state.path ≡ true },
    /// Variables are looked up among the application's arguments.
    ghost outside: { is_outside state.environment ≡ true },
}

impl<'errors, 'p, 'r, 's, 'args, C: FluentType, F: FluentFunction<C>, B: Context<C>> Scope<
    'errors,
    'p,
    'r,
    's,
    'args,
    C,
    F,
    B,
> {
    ghost use Rattle.std.specs.Prelude.{◌≡◌, ◌↔◌, ◌∷◌, [], IfNone, IsOk, IsTrue};
    ghost use Rattle.fluent_bundle_entries.specs.EntryView.{ids as ids_of};
    ghost use Rattle.fluent_semantics.specs.Errors.{resolver_error};
    ghost use Rattle.fluent_semantics.specs.Meaning.{limit_reached};
    ghost use Rattle.fluent_resolver_state.specs.Status.{arguments_view, with_ids};
    ghost use Rattle.fluent_resolver_state.specs.Steps.{IsAtStart, ReportsIfOk};
    ghost use Rattle.fluent_bundle_entries.specs.ErrorView.{resolver_error_view};
    ghost use Rattle.fluent_resolver.specs.Scoped.{listed};
    ghost use Rattle.fluent_resolver.specs.ScopeView.{bundle_in, counts_in, errors_in, scope_parts};

    /// The state in which a call begins, with the whole budget of its bundle, whose ids it is handed too. Errors
    /// are added at the end of the list, if there is one. Without arguments each variable is missing. It takes no
    /// memory yet.
    pub fn new(
        bundle: &'p B,
        ids: &'p Ids<'r, 's, F>,
        args: Option<&'p FluentArgs<'args, C>>,
        errors: Option<&'errors mut Vec<FluentError>>,
    ) -> Self
        ensures bundle { bundle_in result ≡ bundle.entry }
        ensures errors { errors_in result ≡ errors.entry }
        ensures ids { (scope_parts result).ids ≡ ids.now }
        ensures begins { IsAtStart (⟦<Self as Means>⟧.meaning result)
            (with_ids (B.meant bundle.now) (ids_of F.answer ids.now)) (arguments_view C.content args.entry) }
    {
        Scope {
            state: State::new(bundle, ids, args, errors),
        }
    }

    /// The bundle of the call.
    pub fn bundle(&self) -> &'p B
        ensures { result ≡ bundle_in self.now }
    {
        self.state.bundle
    }

    /// The list of errors, with those that the call added; `None` where it was given no list.
    pub fn errors(&self) -> Option<&[FluentError]>
        ensures { listed result ≡ (⟦<Self as Means>⟧.meaning self.now).errors }
    {
        match &self.state.errors {
            Some(errors) => Some(errors.as_slice()),
            None => None,
        }
    }

    /// Gives the list of errors back, with those that the call added, at the call's end.
    pub fn into_errors(self) -> Option<&'errors mut Vec<FluentError>>
        ensures { result ≡ errors_in self.entry }
    {
        let Scope { state } = self;
        state.into_errors()
    }

    /// Whether a placeable past the limit was met.
    pub fn dirty(&self) -> bool
        ensures { IsTrue result ↔ ((⟦<Self as Means>⟧.meaning self.now).budget ≡ limit_reached) }
    {
        self.state.dirty()
    }

    /// What the call did so far.
    pub fn counts(&self) -> Counts
        ensures { result ≡ counts_in self.now }
    {
        self.state.counts
    }

    /// Adds an error at the end of the list, if there is one.
    ///
    /// # Errors
    ///
    /// An allocation failed, which only a list can meet: it is as before.
    pub fn add_error(&mut self, error: ResolverError) -> Result<(), AllocError>
        ensures added { ReportsIfOk result (resolver_error (resolver_error_view error) ∷ [])
            (⟦<Self as Means>⟧.meaning self.old) (⟦<Self as Means>⟧.meaning self.new) }
        ensures bundle { bundle_in self.new ≡ bundle_in self.old }
        ensures succeeds { IfNone (errors_in self.old) (IsOk result) }
    {
        self.state.add_error(error)
    }
}

impl<'errors, 'p, 'r, 's: 'r, 'args, C: FluentType, F: FluentFunction<C>, B: Context<C>> HasBundle<
    C,
> for Scope<'errors, 'p, 'r, 's, 'args, C, F, B> {
    ghost use Rattle.fluent_resolver.specs.ScopeView.{bundle_in};

    type Bundle = B;

    ghost bundle_of = { λ scope. (bundle_in scope).now };

    fn bundle(&self) -> &B {
        self.state.bundle
    }
}

impl<'errors, 'p, 'r, 's, 'args, C: FluentType, F: FluentFunction<C>, B: Context<C>> Means
    for Scope<'errors, 'p, 'r, 's, 'args, C, F, B> {
    ghost use Rattle.fluent_resolver.specs.ScopeView.{status};
    ghost use Rattle.fluent_resolver_state.specs.Status.{Status};

    ghost Kind = { Status B };

    ghost meaning = { status B.meant B.is_plain F.answer C.content };
}

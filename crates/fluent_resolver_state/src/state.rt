//! What one formatting call carries while it resolves patterns.
#![tactic(auto, unfolding(crate::specs::Status::state_parts))]

ghost use Rattle.fluent_bundle_entries.specs.IdNumbers.{table};
ghost use Rattle.fluent_path.specs.Contents.{AreClassed, above_on};

use crate::budget::{Budget, Counts};
use crate::environment::Environment;
use fluent_ast::ast::Pattern;
use fluent_bundle_entries::{FluentError, Ids, ResolverError};
use fluent_path::Path;
use fluent_values::{Context, FluentArgs, FluentFunction, FluentType};
use std::alloc::AllocError;

/// What one formatting call carries: its bundle, where its variables are looked up, the patterns that are being
/// written, its list of errors, how many more placeables it may open, and what it did.
pub struct State<'errors, 'p, 'r, 's, 'args, C, F, B> {
    /// The list that errors are added to, if there is one.
    pub errors: Option<&'errors mut Vec<FluentError>>,
    pub bundle: &'p B,
    /// What the bundle's ids name.
    pub ids: &'p Ids<'r, 's, F>,
    /// Where variables are looked up.
    pub environment: Environment<'p, 'args, 's, C>,
    /// The patterns that are being written.
    pub path: Path<'p, 's>,
    /// How many more placeables may be opened.
    pub budget: Budget,
    /// What the call did so far.
    pub counts: Counts,
    /// Above the first, a pattern on the path has a class where it refers to anything, and only there.
    ghost classed: { AreClassed (table ids.now) (above_on path) },
}

// Written out, since a bundle's resources outlive what it holds of them.
impl<'errors, 'p, 'r, 's: 'r, 'args, C: Drop, F, B> Drop
    for State<'errors, 'p, 'r, 's, 'args, C, F, B> {
    fn drop(self) {
        let State {
            errors: _,
            bundle: _,
            ids: _,
            environment: _,
            path: _,
            budget: _,
            counts: _,
        } = self;
    }
}

impl<'errors, 'p, 'r, 's, 'args, C: FluentType, F: FluentFunction<C>, B: Context<C>> State<
    'errors,
    'p,
    'r,
    's,
    'args,
    C,
    F,
    B,
> {
    ghost use Rattle.std.specs.Prelude.{◌≡◌, ◌↔◌, ◌∷◌, [], IfNone, IsOk, IsTrue, true};
    ghost use Rattle.fluent_semantics.specs.Errors.{resolver_error};
    ghost use Rattle.fluent_semantics.specs.Meaning.{limit_reached};
    ghost use Rattle.fluent_bundle_entries.specs.ErrorView.{resolver_error_view};
    ghost use Rattle.fluent_resolver_state.specs.Status.{budget_view, state_parts};
    ghost use Rattle.fluent_semantics.specs.Walk.{is_on};
    ghost use Rattle.fluent_resolver_state.specs.Steps.{can_open};
    ghost use Rattle.fluent_ast.specs.View.{pattern_view};
    ghost use Rattle.fluent_references.specs.Linked.{IsClassOf};
    ghost use Rattle.fluent_path.specs.Contents.{is_idle};
    ghost use Rattle.fluent_resolver_state.specs.Status.{is_outside};
    ghost use Rattle.fluent_resolver_state.specs.StateCalls.{BeginsCall, Enters, Leaves, Reports, Rests, Starts, TakesOne, Visits, status};

    /// The state in which a call begins, with the whole budget of its bundle, whose ids it is handed too. Errors
    /// are added at the end of the list, if there is one. Without arguments each variable is missing. It takes no
    /// memory yet.
    pub fn new(
        bundle: &'p B,
        ids: &'p Ids<'r, 's, F>,
        args: Option<&'p FluentArgs<'args, C>>,
        errors: Option<&'errors mut Vec<FluentError>>,
    ) -> Self
        ensures bundle { (state_parts result).bundle ≡ bundle.entry }
        ensures errors { (state_parts result).errors ≡ errors.entry }
        ensures ids { (state_parts result).ids ≡ ids.now }
        ensures idle { is_idle result.path ≡ true }
        ensures outside { result.environment ≡ Environment.Application args.entry }
        ensures begins { BeginsCall B.meant B.is_plain F.answer C.content bundle.now ids.now args.entry result }
    {
        State {
            errors,
            bundle,
            ids,
            environment: Environment::Application(args),
            path: Path::new(bundle.allocator()),
            budget: Budget::Left(bundle.placeable_limit()),
            counts: Counts {
                opened: 0,
                longest: 0,
                entered: 0,
            },
        }
    }

    /// Gives the list of errors back, with those that the call added, at the call's end.
    pub fn into_errors(self) -> Option<&'errors mut Vec<FluentError>>
        ensures { result ≡ (state_parts self.entry).errors }
    {
        let State {
            errors,
            bundle: _,
            ids: _,
            environment: _,
            path: _,
            budget: _,
            counts: _,
        } = self;
        errors
    }

    /// Whether a placeable past the limit was met.
    pub fn dirty(&self) -> bool
        ensures { IsTrue result ↔ ((status B.meant B.is_plain F.answer C.content self.now).budget ≡ limit_reached) }
    {
        matches!(self.budget, Budget::LimitReached)
    }

    /// Adds an error at the end of the list, if there is one.
    ///
    /// # Errors
    ///
    /// An allocation failed, which only a list can meet: it is as before.
    #[inline(always)]
    pub fn add_error(&mut self, error: ResolverError) -> Result<(), AllocError>
        ensures added { Reports B.meant B.is_plain F.answer C.content (resolver_error (resolver_error_view error) ∷ []) result
            self }
        ensures succeeds { IfNone self.old.errors (IsOk result) }
    {
        match &mut self.errors {
            Some(errors) => {
                errors.push(FluentError::ResolverError(error))?;
                Ok(())
            }
            None => Ok(()),
        }
    }

    /// Takes one from the budget, or notes that the limit is reached where none is left.
    pub fn take_one(&mut self) -> bool
        ensures opens { result ≡ can_open (budget_view self.old.budget) }
        ensures takes { TakesOne B.meant B.is_plain F.answer C.content result self }
    {
        match self.budget {
            Budget::Left(left) if left > 0 => {
                self.budget = Budget::Left(left - 1);
                self.counts.opened = self.counts.opened.saturating_add(1);
                true
            }
            _ => {
                self.budget = Budget::LimitReached;
                false
            }
        }
    }

    /// Whether a pattern has the content of one that is being written.
    #[inline(always)]
    pub fn is_on(&self, pattern: &Pattern<'s>, class: Option<u32>) -> bool
        requires { IsClassOf (table self.now.ids.now) (pattern_view pattern.now) class }
        ensures { result ≡ is_on (status B.meant B.is_plain F.answer C.content self.now).path (pattern_view pattern.now) }
    {
        self.path.is_on(pattern, class)
    }

    /// Puts a pattern on the path where that is empty, counts the pattern, and says whether it put it there.
    pub fn begin(&mut self, pattern: &'p Pattern<'s>) -> bool
        ensures { Starts B.meant B.is_plain F.answer C.content result pattern.now self }
    {
        let begun = self.path.begin(pattern);
        let length = self.path.len();
        self.counts.longest = self.counts.longest.max(length);
        self.counts.entered = self.counts.entered.saturating_add(1);
        begun
    }

    /// Enters a pattern that a reference leads to: puts it on the path, and counts it.
    ///
    /// # Errors
    ///
    /// An allocation failed: path and counts are as before.
    #[inline(always)]
    pub fn enter(&mut self, pattern: &'p Pattern<'s>, class: Option<u32>) -> Result<(), AllocError>
        requires { IsClassOf (table self.old.ids.now) (pattern_view pattern.now) class }
        ensures { Enters B.meant B.is_plain F.answer C.content pattern.now result self }
    {
        self.path.enter(pattern, class)?;
        let length = self.path.len();
        self.counts.longest = self.counts.longest.max(length);
        self.counts.entered = self.counts.entered.saturating_add(1);
        Ok(())
    }

    /// Counts a pattern that a reference leads to, which is entered and left at once, as nothing stands on it.
    #[inline(always)]
    pub fn visit(&mut self)
        ensures { Visits B.meant B.is_plain F.answer C.content self }
    {
        let length = self.path.len().saturating_add(1);
        self.counts.longest = self.counts.longest.max(length);
        self.counts.entered = self.counts.entered.saturating_add(1);
    }

    /// Takes the pattern off the path that `begin` or `enter` put there, where it did.
    #[inline(always)]
    pub fn leave(&mut self, put: bool)
        ensures { Leaves B.meant B.is_plain F.answer C.content put self }
    {
        self.path.leave(put);
    }

    /// The arguments of the application, outside of terms.
    pub fn application(&self) -> Option<&'p FluentArgs<'args, C>>
        ensures { is_outside self.now.environment ≡ true →
            self.now.environment ≡ Environment.Application result }
    {
        match &self.environment {
            Environment::Application(args) => *args,
            Environment::Local(_) => None,
        }
    }

    /// No pattern is being written any more, and variables are looked up among these arguments of the application.
    pub fn rest(&mut self, args: Option<&'p FluentArgs<'args, C>>)
        ensures rests { Rests B.meant B.is_plain F.answer C.content args.entry self }
        ensures idle { is_idle self.new.path ≡ true }
        ensures outside { self.new.environment ≡ Environment.Application args.entry }
    {
        self.path.clear();
        self.environment = Environment::Application(args);
    }
}

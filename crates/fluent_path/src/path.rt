//! The patterns that are being written, each referred to by the one before it.
#![tactic(auto, unfolding(crate::specs::Contents::on_path, crate::specs::Contents::above_on, crate::specs::Contents::below_top, crate::specs::Contents::is_idle))]

use crate::alike::is_like;
use fluent_ast::ast::Pattern;
use smallvec::SmallVec;
use std::alloc::{AllocError, Global};

/// A pattern above the first: by its class, or itself where it has none, since it refers to nothing.
#[derive(Clone, Copy)]
pub(crate) enum Above<'p, 's> {
    Class(u32),
    Bare(&'p Pattern<'s>),
}

impl<'p, 's> Above<'p, 's> {
    ghost use Rattle.std.specs.Prelude.{◌≡◌};
    ghost use Rattle.fluent_ast.specs.View.{pattern_view};
    ghost use Rattle.fluent_path.specs.Contents.{by_class, is_same};

    /// A pattern of this class.
    #[inline(always)]
    fn of(pattern: &'p Pattern<'s>, class: Option<u32>) -> Self
        ensures { result ≡ by_class pattern.entry class }
    {
        match class {
            Some(class) => Above::Class(class),
            None => Above::Bare(pattern),
        }
    }

    /// Whether it is a pattern of this class: by their classes, or by their contents where neither has one.
    #[inline(always)]
    fn is(&self, pattern: &Pattern<'s>, class: Option<u32>) -> bool
        ensures { result ≡ is_same (pattern_view pattern.now) class self.now }
    {
        match (self, class) {
            (Above::Class(own), Some(class)) => *own == class,
            (Above::Bare(own), None) => **own == *pattern,
            _ => false,
        }
    }
}

/// The pattern on top of a path, and its class.
#[derive(Clone, Copy)]
pub(crate) struct Top<'p, 's> {
    pattern: &'p Pattern<'s>,
    class: Option<u32>,
}

/// A path of patterns: the first, which needn't be a stored one and is compared by its content, and those above it. The
/// first and the one on top need no memory; nor do up to eight between them that have classes, as do all that refer to
/// anything.
#[derive(Drop)]
pub struct Path<'p, 's> {
    bottom: Option<&'p Pattern<'s>>,
    /// The classes of those above the first, as far as each has one.
    classes: SmallVec<u32, 8>,
    /// Those above these, of which the first has none. Nothing stands on what refers to nothing, so there are none in a run.
    mixed: Vec<Above<'p, 's>>,
    /// The last above the first, where it has not been pushed.
    top: Option<Top<'p, 's>>,
}

impl<'p, 's> Path<'p, 's> {
    ghost use Rattle.std.specs.Prelude.{◌≡◌, [], List, None, OnOk, OnErr, Some, length, nat_eq, true};
    ghost use Rattle.std.specs.List.{list_any};
    ghost use Rattle.std.specs.Option.{option_map, option_to_list};
    ghost use Rattle.std.specs.Bool.{OnTrue, OnFalse};
    ghost use Rattle.fluent_ast.specs.Tree.{Pattern as Content};
    ghost use Rattle.fluent_ast.specs.View.{pattern_view};
    ghost use Rattle.fluent_semantics.specs.Walk.{is_on, inner};
    ghost use Rattle.fluent_path.specs.Contents.{IsPut, IsTakenOff, StayClassed, StayClassedWith, Tells, above_of, above_on, below_top, by_classes, counted, is_idle, is_same, on_path};

    /// No pattern. It keeps the allocator and takes no memory yet.
    pub fn new(alloc: Global) -> Path<'p, 's>
        ensures path { (table : List Content) → on_path table result ≡ [] }
        ensures above { above_on result ≡ [] }
        ensures idle { is_idle result ≡ true }
    {
        Path {
            bottom: None,
            classes: SmallVec::new(alloc),
            mixed: Vec::new(alloc),
            top: None,
        }
    }

    /// How many patterns stand on it.
    #[inline(always)]
    pub fn len(&self) -> u64
        ensures { (table : List Content) → result ≡ counted (length (on_path table self.now)) }
    {
        if self.bottom.is_none() {
            return 0;
        }
        let below = (self.classes.len() as u64).saturating_add(self.mixed.len() as u64);
        match self.top {
            None => below.saturating_add(1),
            Some(_) => below.saturating_add(2),
        }
    }

    /// Whether a pattern has the content of one on it.
    #[inline(always)]
    pub fn is_on(&self, pattern: &Pattern<'s>, class: Option<u32>) -> bool
        ensures { Tells self.now (pattern_view pattern.now) class result }
    {
        let Some(bottom) = self.bottom else {
            return false;
        };
        if is_like(bottom, pattern) {
            return true;
        }
        self.is_above(pattern, class)
    }

    /// Whether a pattern of this class is one of those above the first.
    #[inline(always)]
    fn is_above(&self, pattern: &Pattern<'s>, class: Option<u32>) -> bool
        ensures { result ≡ list_any (is_same (pattern_view pattern.now) class) (above_on self.now) }
    {
        if self.is_top(pattern, class) {
            return true;
        }
        if self.is_below(pattern, class) {
            return true;
        }
        !self.mixed.is_empty() && self.is_among_mixed(pattern, class)
    }

    /// Whether a pattern of this class is the one on top.
    #[inline(always)]
    fn is_top(&self, pattern: &Pattern<'s>, class: Option<u32>) -> bool
        ensures { result ≡ list_any (is_same (pattern_view pattern.now) class)
            (option_to_list (option_map above_of self.now.top)) }
    {
        let Some(top) = &self.top else {
            return false;
        };
        match (top.class, class) {
            (Some(own), Some(class)) => own == class,
            (None, None) => is_like(top.pattern, pattern),
            _ => false,
        }
    }

    /// Whether a pattern of this class is one of those that stand by their classes.
    #[inline(always)]
    fn is_below(&self, pattern: &Pattern<'s>, class: Option<u32>) -> bool
        ensures { result ≡ list_any (is_same (pattern_view pattern.now) class) (by_classes self.now.classes.items) }
    {
        match class {
            Some(class) => self.has_class(class),
            None => false,
        }
    }

    /// Whether a class is one of those that stand by their classes.
    #[inline(always)]
    fn has_class(&self, class: u32) -> bool
        ensures { result ≡ list_any (λ c. nat_eq c class) self.now.classes.items }
    {
        for own in self.classes.as_slice() {
            if *own == class {
                return true;
            }
        }
        false
    }

    /// Whether a pattern of this class is one of those above them.
    #[inline(never)]
    #[cold]
    fn is_among_mixed(&self, pattern: &Pattern<'s>, class: Option<u32>) -> bool
        ensures { result ≡ list_any (is_same (pattern_view pattern.now) class) self.now.mixed.items }
    {
        for above in &self.mixed {
            if above.is(pattern, class) {
                return true;
            }
        }
        false
    }

    /// Puts a pattern there where there is none, and says whether it did.
    #[inline(always)]
    pub fn begin(&mut self, pattern: &'p Pattern<'s>) -> bool
        ensures inner { (table : List Content) → on_path table self.new
            ≡ inner (on_path table self.old) (pattern_view pattern.now) }
        ensures begun { OnTrue result ((table : List Content) → on_path table self.old ≡ []) }
        ensures same { OnFalse result (self.new ≡ self.old) }
        ensures classes { StayClassed self.old self.new }
    {
        if self.bottom.is_some() {
            return false;
        }
        self.clear();
        self.bottom = Some(pattern);
        true
    }

    /// Adds a pattern that a reference leads to.
    ///
    /// # Errors
    ///
    /// An allocation failed: the path is as before.
    #[inline(always)]
    pub fn enter(&mut self, pattern: &'p Pattern<'s>, class: Option<u32>) -> Result<(), AllocError>
        ensures put { OnOk result (IsPut (pattern_view pattern.now) class self.old self.new) }
        ensures alloc_failed { OnErr result ((table : List Content) →
            on_path table self.new ≡ on_path table self.old) }
        ensures classes { StayClassedWith (pattern_view pattern.now) class self.old self.new }
    {
        if self.bottom.is_none() {
            self.clear();
            self.bottom = Some(pattern);
            return Ok(());
        }
        self.push_top()?;
        self.top = Some(Top { pattern, class });
        Ok(())
    }

    /// Pushes the one on top, if there is one.
    ///
    /// # Errors
    ///
    /// An allocation failed: the path is as before.
    #[inline(always)]
    fn push_top(&mut self) -> Result<(), AllocError>
        ensures pushed { OnOk result (below_top self.new ≡ above_on self.old) }
        ensures bottom { self.new.bottom ≡ self.old.bottom }
        ensures alloc_failed { OnErr result (above_on self.new ≡ above_on self.old) }
    {
        match self.top {
            Some(top) => self.push(top),
            None => Ok(()),
        }
    }

    /// Pushes the one on top.
    ///
    /// # Errors
    ///
    /// An allocation failed: the path is as before.
    #[inline(never)]
    fn push(&mut self, top: Top<'p, 's>) -> Result<(), AllocError>
        requires { self.old.top ≡ Some top }
        ensures pushed { OnOk result (below_top self.new ≡ above_on self.old) }
        ensures bottom { self.new.bottom ≡ self.old.bottom }
        ensures alloc_failed { OnErr result (above_on self.new ≡ above_on self.old) }
    {
        if let Some(class) = top.class {
            if self.mixed.is_empty() {
                return match self.classes.push(class) {
                    Ok(()) => Ok(()),
                    Err(_) => Err(AllocError),
                };
            }
        }
        match self.mixed.push(Above::of(top.pattern, top.class)) {
            Ok(()) => Ok(()),
            Err(_) => Err(AllocError),
        }
    }

    /// Takes the last pattern off again that `begin` or `enter` put there, where it did.
    #[inline(always)]
    pub fn leave(&mut self, put: bool)
        ensures left { OnTrue put (IsTakenOff self.old self.new) }
        ensures same { OnFalse put (self.new ≡ self.old) }
        ensures classes { StayClassed self.old self.new }
    {
        if !put {
            return;
        }
        if self.top.is_some() {
            self.top = None;
        } else {
            self.leave_below();
        }
    }

    /// Takes the last pattern off, where none is on top.
    #[inline(never)]
    fn leave_below(&mut self)
        requires { self.old.top ≡ None }
        ensures left { IsTakenOff self.old self.new }
        ensures classes { StayClassed self.old self.new }
    {
        if !self.mixed.is_empty() {
            let _ = self.mixed.pop();
        } else if !self.classes.is_empty() {
            let _ = self.classes.pop();
        } else {
            self.bottom = None;
        }
    }

    /// Takes all patterns off.
    #[inline(always)]
    pub fn clear(&mut self)
        ensures path { (table : List Content) → on_path table self.new ≡ [] }
        ensures idle { is_idle self.new ≡ true }
        ensures above { above_on self.new ≡ [] }
    {
        self.bottom = None;
        self.classes.clear();
        self.mixed.clear();
        self.top = None;
    }
}

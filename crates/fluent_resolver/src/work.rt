//! What a run put off, and the values that it ends with.

use crate::frame::{Frame, Gathering};
use fluent_ast::ast::{Expression, InlineExpression, Pattern, Variant};
use fluent_references::Cursor;
use fluent_resolver_state::Environment;
use fluent_values::output::Halt;
use fluent_values::{FluentArgs, FluentType, FluentValue};
use std::alloc::Global;
use std::mem;

/// How many levels a run goes down before it puts off what is deeper: an expression, an argument or a selector within
/// another is one level. So the stack of a call is bounded, and what is deeper than that waits on the heap.
pub(crate) const LEVELS: usize = 100;

/// The work of a run that is left, if there is any. Most runs have none, and each call looks whether there is.
#[derive(Drop)]
pub(crate) struct Work<'p, 'args, 's, C> {
    pub alloc: Global,
    pub rest: Option<Box<Rest<'p, 'args, 's, C>>>,
}

/// The work that was put off and what waits for it, the innermost first; and the values of arguments, where the run is
/// for these.
#[derive(Drop)]
pub(crate) struct Rest<'p, 'args, 's, C> {
    pub frames: Vec<Frame<'p, 'args, 's, C>>,
    pub values: Option<(Vec<FluentValue<'p, C>>, FluentArgs<'p, C>)>,
}

impl<'p, 'args, 's, C: FluentType> Work<'p, 'args, 's, C> {
    ghost use Rattle.std.specs.Prelude.{◌≡◌, ◌↔◌, ◌++◌, ◌∷◌, [], IsTrue, None, Some, IfErr, OnOk};
    ghost use Rattle.fluent_resolver.specs.Inside.Waits.{frames_in, values_in, IsHeld, Waits};
    ghost use Rattle.fluent_resolver.specs.declared.frame.Frame.TheVariants as frame;

    /// Nothing. It takes no memory yet.
    #[inline(always)]
    pub fn new(alloc: Global) -> Self
        ensures frames { frames_in result ≡ [] }
        ensures values { values_in result ≡ None }
    {
        Work { alloc, rest: None }
    }

    /// Whether nothing was put off.
    #[inline(always)]
    pub fn is_done(&self) -> bool
        ensures { IsTrue result ↔ (frames_in self.now ≡ []) }
    {
        match &self.rest {
            None => true,
            Some(rest) => rest.frames.is_empty(),
        }
    }

    /// Gives values of arguments to the one who asked for them.
    ///
    /// # Errors
    ///
    /// An allocation failed.
    #[inline(never)]
    #[cold]
    pub fn give(
        &mut self,
        positional: Vec<FluentValue<'p, C>>,
        args: FluentArgs<'p, C>,
    ) -> Result<(), Halt>
        ensures frames { OnOk result (frames_in self.new ≡ frames_in self.old) }
        ensures values { OnOk result (values_in self.new ≡ Some (positional.entry, args.entry)) }
        ensures err { IfErr result (λ e. e ≡ Halt.Memory) }
    {
        match &mut self.rest {
            Some(rest) => {
                let _ = mem::replace(&mut rest.values, Some((positional, args)));
                Ok(())
            }
            None => {
                let frames = Vec::new(self.alloc);
                let values = Some((positional, args));
                let Ok(rest) = Box::new(self.alloc, Rest { frames, values }) else {
                    return Err(Halt::Memory);
                };
                self.put(rest);
                Ok(())
            }
        }
    }

    /// The values that a run ended with, if it was for any.
    pub fn into_values(self) -> Option<(Vec<FluentValue<'p, C>>, FluentArgs<'p, C>)>
        ensures { result ≡ values_in self.entry }
    {
        let Work { alloc: _, rest } = self;
        match rest {
            Some(rest) => {
                let Rest {
                    frames: _frames,
                    values,
                } = Box::into_inner(rest);
                values
            }
            None => None,
        }
    }

    /// Lets go of what is left. (It is taken apart, as dropping it whole asks more of `C` than is known.)
    #[inline(always)]
    pub fn end(self) {
        let _ = self.into_values();
    }

    /// Adds work that waits for what was put off so far.
    ///
    /// # Errors
    ///
    /// An allocation failed.
    #[inline(never)]
    #[cold]
    fn wait(&mut self, frame: Frame<'p, 'args, 's, C>) -> Result<(), Halt>
        ensures { Waits frame.entry result self }
    {
        match &mut self.rest {
            Some(rest) => match rest.frames.push(frame) {
                Ok(()) => Ok(()),
                Err(_) => Err(Halt::Memory),
            },
            None => self.begin(frame),
        }
    }

    /// Adds the first work.
    ///
    /// # Errors
    ///
    /// An allocation failed.
    fn begin(&mut self, frame: Frame<'p, 'args, 's, C>) -> Result<(), Halt>
        requires { self.old.rest ≡ None }
        ensures { Waits frame.entry result self }
    {
        let mut frames = Vec::new(self.alloc);
        let Ok(()) = frames.push(frame) else {
            return Err(Halt::Memory);
        };
        let values = None;
        let Ok(rest) = Box::new(self.alloc, Rest { frames, values }) else {
            return Err(Halt::Memory);
        };
        self.put(rest);
        Ok(())
    }

    /// Has work that was none. (What was there is taken apart, as dropping it whole asks more of `C` than is known.)
    fn put(&mut self, rest: Box<Rest<'p, 'args, 's, C>>)
        ensures { self.new.rest ≡ Some rest.entry }
    {
        if let Some(old) = mem::replace(&mut self.rest, Some(rest)) {
            let Rest {
                frames: _frames,
                values: _values,
            } = Box::into_inner(old);
        }
    }

    /// The elements of a pattern wait, from the next on. This and the others stand by themselves, since a frame costs
    /// where a function may hold it.
    #[inline(never)]
    #[cold]
    pub fn wait_elements(
        &mut self,
        pattern: &'p Pattern<'s>,
        next: usize,
        cursor: Cursor<'p>,
    ) -> Result<(), Halt>
        ensures { Waits (frame.Elements pattern.entry next cursor.entry) result self }
    {
        self.wait(Frame::Elements {
            pattern,
            next,
            cursor,
        })
    }

    /// A placeable waits that is open.
    #[inline(never)]
    #[cold]
    pub fn wait_close(&mut self, expression: &'p Expression<'s>, marked: bool) -> Result<(), Halt>
        ensures { Waits (frame.Close expression.entry marked) result self }
    {
        self.wait(Frame::Close { expression, marked })
    }

    /// A pattern that was put on the path, or wasn't, waits.
    #[inline(never)]
    #[cold]
    pub fn wait_leave(&mut self, put: bool) -> Result<(), Halt>
        ensures { Waits (frame.Leave put) result self }
    {
        self.wait(Frame::Leave(put))
    }

    /// Where variables are looked up outside of a term waits.
    #[inline(never)]
    #[cold]
    pub fn wait_outer(&mut self, outer: Environment<'p, 'args, 's, C>) -> Result<(), Halt>
        ensures { Waits (frame.Outer outer.entry) result self }
    {
        self.wait(Frame::Outer(outer))
    }

    /// A select waits for its selector.
    #[inline(never)]
    #[cold]
    pub fn wait_choose(
        &mut self,
        variants: &'p Vec<Variant<'s>>,
        cursor: Cursor<'p>,
    ) -> Result<(), Halt>
        ensures { Waits (frame.Choose variants.entry cursor.entry) result self }
    {
        self.wait(Frame::Choose { variants, cursor })
    }

    /// What was kept before a value waits.
    #[inline(never)]
    #[cold]
    pub fn wait_value(&mut self, outer: String, was_kept: bool) -> Result<(), Halt>
        ensures { Waits (frame.Value outer was_kept) result self }
    {
        self.wait(Frame::Value { outer, was_kept })
    }

    /// An expression is put off.
    #[inline(never)]
    #[cold]
    pub fn put_off(
        &mut self,
        expression: &'p Expression<'s>,
        cursor: Cursor<'p>,
    ) -> Result<(), Halt>
        ensures { Waits (frame.Express expression.entry cursor.entry) result self }
    {
        self.wait(Frame::Express { expression, cursor })
    }

    /// An argument or a selector is put off.
    #[inline(never)]
    #[cold]
    pub fn put_off_value(
        &mut self,
        inline: &'p InlineExpression<'s>,
        cursor: Cursor<'p>,
    ) -> Result<(), Halt>
        ensures { Waits (frame.Resolve inline.entry cursor.entry) result self }
    {
        self.wait(Frame::Resolve { inline, cursor })
    }

    /// A call waits for its next argument, which was put off.
    ///
    /// # Errors
    ///
    /// An allocation failed.
    #[inline(never)]
    #[cold]
    pub fn hold(&mut self, gathering: Gathering<'p, 's, C>) -> Result<(), Halt>
        ensures waits { OnOk result (IsHeld gathering.entry self.old self.new) }
        ensures values { values_in self.new ≡ values_in self.old }
        ensures err { IfErr result (λ e. e ≡ Halt.Memory) }
    {
        match Box::new(self.alloc, gathering) {
            Ok(gathering) => self.wait(Frame::Gather(gathering)),
            Err(_) => Err(Halt::Memory),
        }
    }
}

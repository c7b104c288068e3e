//! Declares what the caller answers itself.
ghost use Rattle.fluent_c_handles.specs.Answers.{SlotDoes, WhenOpen};
ghost use Rattle.fluent_c_handles.specs.Calls.Declaring.{AddsBuiltins, DeclaresFormatter, DeclaresFunction, DeclaresTransform};

use crate::answer::Answer;
use crate::slot::Slot;
use crate::sources::SourceFault;
use crate::stock::Stock;
use crate::texts::FormatFault;
use crate::turns::Call;
use std::alloc::{AllocError, Global};
use std::str;

/// A function by its name, also in place of what has it.
#[derive(Drop)]
struct Function<'w> {
    name: &'w [u8],
    over: bool,
}

/// Whether it is asked how a value is shown.
#[derive(Drop)]
struct Formatter {
    on: bool,
}

/// Whether it is asked what a text element becomes.
#[derive(Drop)]
struct Transform {
    on: bool,
}

/// The function `NUMBER` of the library.
#[derive(Drop)]
struct Builtins {}

impl Slot {
    /// Has an id stand for a function of the caller's (0): in place of what has the id where `over` is set. Else all stays: 15,
    /// the id names something; 7, it is not UTF-8; 2, an allocation failed; 11, no bundle is open.
    pub fn declare_function(&mut self, alloc: Global, name: &[u8], over: bool) -> u8
        ensures { SlotDoes (WhenOpen (DeclaresFunction name.now over)) self result }
    {
        self.ask(alloc, &Function { name, over }).status()
    }

    /// Has the caller be asked how each value is shown, or not (0); 11, no bundle is open.
    pub fn declare_formatter(&mut self, alloc: Global, on: bool) -> u8
        ensures { SlotDoes (WhenOpen (DeclaresFormatter on)) self result }
    {
        self.ask(alloc, &Formatter { on }).status()
    }

    /// Has the caller be asked what each text element becomes, or not (0); 11, no bundle is open.
    pub fn declare_transform(&mut self, alloc: Global, on: bool) -> u8
        ensures { SlotDoes (WhenOpen (DeclaresTransform on)) self result }
    {
        self.ask(alloc, &Transform { on }).status()
    }

    /// Adds the function `NUMBER` (0). Else all stays: 15, its id names something; 2, an allocation failed; 11, no bundle is
    /// open.
    pub fn add_builtins(&mut self, alloc: Global) -> u8
        ensures { SlotDoes (WhenOpen AddsBuiltins) self result }
    {
        self.ask(alloc, &Builtins {}).status()
    }
}

impl Call for Function<'_> {
    ghost does = { λ it. DeclaresFunction it.name.now it.over };

    fn done<'r, 's: 'r>(&self, alloc: Global, stock: &mut Stock<'r, 's>) -> Answer {
        let Ok(name) = str::from_utf8(self.name) else {
            return Answer::Fault(SourceFault::Format(FormatFault::NotText));
        };
        match stock.declare_function(alloc, name, self.over) {
            Ok(true) => Answer::Done,
            Ok(false) => Answer::Taken,
            Err(AllocError) => Answer::Fault(SourceFault::Memory),
        }
    }
}

impl Call for Formatter {
    ghost does = { λ it. DeclaresFormatter it.on };

    fn done<'r, 's: 'r>(&self, _: Global, stock: &mut Stock<'r, 's>) -> Answer {
        stock.declare_formatter(self.on);
        Answer::Done
    }
}

impl Call for Transform {
    ghost does = { λ it. DeclaresTransform it.on };

    fn done<'r, 's: 'r>(&self, _: Global, stock: &mut Stock<'r, 's>) -> Answer {
        stock.declare_transform(self.on);
        Answer::Done
    }
}

impl Call for Builtins {
    ghost does = { λ _. AddsBuiltins };

    fn done<'r, 's: 'r>(&self, _: Global, stock: &mut Stock<'r, 's>) -> Answer {
        match stock.add_builtins() {
            Ok(true) => Answer::Done,
            Ok(false) => Answer::Taken,
            Err(AllocError) => Answer::Fault(SourceFault::Memory),
        }
    }
}

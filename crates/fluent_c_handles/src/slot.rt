//! A handle in the memory of C.
ghost use Rattle.std.specs.Prelude.{◌≡◌, None, is_some};

use crate::answer::Answer;
use crate::handle::Handle;
use crate::turns::{Answering, Call, OnOpen, Turn, Visit};
use std::alloc::Global;
use std::mem;

/// What C holds. All bytes zero, it is closed. Its calls stand in `calls`; none reads or changes what C keeps beside the bundle.
#[repr(C)]
#[derive(Drop)]
pub struct Slot {
    pub handle: Handle,
    pub is_open: bool,
    pub beside: usize,
    ghost agrees: { is_open ≡ is_some handle.held },
}

impl Slot {
    ghost use Rattle.fluent_c_handles.specs.Answers.{SlotCloses, WhenOpen, kept_in};

    /// Holds nothing.
    fn closed(alloc: Global) -> Slot
        ensures { result.handle.held ≡ None }
    {
        Slot {
            handle: Handle::none(alloc),
            is_open: false,
            beside: 0,
        }
    }

    /// Does something of what is kept.
    pub(crate) fn visit<V: Visit>(&mut self, alloc: Global, visitor: &mut V)
        ensures does { V.does visitor.old visitor.new (kept_in self.old) (kept_in self.new) }
        ensures beside { self.new.beside ≡ self.old.beside }
    {
        let Slot {
            handle,
            is_open,
            beside,
        } = mem::replace(self, Slot::closed(alloc));
        let (handle, is_open) = handle.visit(alloc, is_open, visitor);
        *self = Slot {
            handle,
            is_open,
            beside,
        };
    }

    /// Does something of what is kept, and answers.
    pub(crate) fn turn<T: Turn>(&mut self, alloc: Global, what: &T) -> Answer
        ensures does { T.does what.now (kept_in self.old) (kept_in self.new) result }
        ensures beside { self.new.beside ≡ self.old.beside }
    {
        let mut answering = Answering {
            turn: what,
            answer: Answer::Closed,
        };
        self.visit(alloc, &mut answering);
        answering.answer
    }

    /// Makes a call where a bundle is open.
    pub(crate) fn ask<C: Call>(&mut self, alloc: Global, call: &C) -> Answer
        ensures does { WhenOpen (C.does call.now) (kept_in self.old) (kept_in self.new) result }
        ensures beside { self.new.beside ≡ self.old.beside }
    {
        self.turn(alloc, &OnOpen { call })
    }

    /// Drops the bundle and frees its resources and sources.
    pub fn close(&mut self, alloc: Global)
        ensures { SlotCloses self }
    {
        let Slot {
            handle,
            is_open,
            beside,
        } = mem::replace(self, Slot::closed(alloc));
        self.beside = beside;
        if is_open {
            handle.close();
        }
    }
}

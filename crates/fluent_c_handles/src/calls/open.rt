//! Opens a bundle, and sets it up.
ghost use Rattle.std.specs.Prelude.{◌≡◌, None, false, is_some, true};
ghost use Rattle.fluent_c_handles.specs.Calls.Opening.{OpensByRules, OpensByTag, SetsLimit};
ghost use Rattle.fluent_c_handles.specs.Answers.{SlotDoes, WhenOpen, held_content};
ghost use Rattle.fluent_c_handles.specs.Inside.Boxed.{Boxed};

use crate::answer::Answer;
use crate::opening::OpenFault;
use crate::slot::Slot;
use crate::sources::SourceFault;
use crate::stock::Stock;
use crate::turns::{Call, Turn};
use self_borrow::RawBox;
use std::alloc::Global;

/// By the tag of its language.
#[derive(Drop)]
struct ByTag<'w> {
    tag: &'w [u8],
    isolate: bool,
    bare: bool,
}

/// By the texts of its plural rules.
#[derive(Drop)]
struct ByRules<'w> {
    cardinal: &'w [u8],
    ordinal: &'w [u8],
    isolate: bool,
}

/// How many placeables one call opens.
#[derive(Drop)]
struct Limit {
    limit: usize,
}

impl Slot {
    /// Opens a bundle by the tag of its language (0), or by the rules of the root where there are none for the tag (5), with an
    /// empty report. One that is open stays (12). Else none is open: 2, an
    /// allocation failed; 4, the tag is not UTF-8; 6, its rules can't be read.
    pub fn open(&mut self, alloc: Global, tag: &[u8], isolate: bool) -> u8
        ensures { SlotDoes (OpensByTag tag.now isolate false) self result }
    {
        let by = ByTag {
            tag,
            isolate,
            bare: false,
        };
        self.turn(alloc, &by).status()
    }

    /// The same without the function `NUMBER`.
    pub fn open_bare(&mut self, alloc: Global, tag: &[u8], isolate: bool) -> u8
        ensures { SlotDoes (OpensByTag tag.now isolate true) self result }
    {
        let by = ByTag {
            tag,
            isolate,
            bare: true,
        };
        self.turn(alloc, &by).status()
    }

    /// Opens a bundle (0), by the texts of its plural rules, with an empty report. One that is open stays (12). Else none is
    /// open: 2, an allocation failed; 4, a text is not UTF-8; 6, the rules can't be read.
    pub fn open_rules(
        &mut self,
        alloc: Global,
        cardinal: &[u8],
        ordinal: &[u8],
        isolate: bool,
    ) -> u8
        ensures { SlotDoes (OpensByRules cardinal.now ordinal.now isolate) self result }
    {
        let rules = ByRules {
            cardinal,
            ordinal,
            isolate,
        };
        self.turn(alloc, &rules).status()
    }

    /// Sets how many placeables one call opens (0), from 1 to 10,000. Else all stays: 13, it is none of these; 11, no bundle is
    /// open.
    pub fn set_limit(&mut self, alloc: Global, limit: usize) -> u8
        ensures { SlotDoes (WhenOpen (SetsLimit limit)) self result }
    {
        self.ask(alloc, &Limit { limit }).status()
    }
}

impl Turn for ByTag<'_> {
    ghost does = { λ by. OpensByTag by.tag.now by.isolate by.bare };

    fn done<'r, 's: 'r>(
        &self,
        alloc: Global,
        stock: RawBox<Stock<'r, 's>, Global>,
        is_open: bool,
    ) -> (RawBox<Stock<'r, 's>, Global>, bool, Answer) {
        if is_open {
            return (stock, true, Answer::Open);
        }
        open_by_tag(alloc, stock, self)
    }
}

impl Turn for ByRules<'_> {
    ghost does = { λ by. OpensByRules by.cardinal.now by.ordinal.now by.isolate };

    fn done<'r, 's: 'r>(
        &self,
        alloc: Global,
        stock: RawBox<Stock<'r, 's>, Global>,
        is_open: bool,
    ) -> (RawBox<Stock<'r, 's>, Global>, bool, Answer) {
        if is_open {
            return (stock, true, Answer::Open);
        }
        open_by_rules(alloc, stock, self)
    }
}

impl Call for Limit {
    ghost does = { λ it. SetsLimit it.limit };

    fn done<'r, 's: 'r>(&self, _: Global, stock: &mut Stock<'r, 's>) -> Answer {
        if stock.set_limit(self.limit) {
            Answer::Done
        } else {
            Answer::OutOfRange
        }
    }
}

/// Opens a bundle where there is none.
fn open_by_tag<'r, 's: 'r>(
    alloc: Global,
    none: RawBox<Stock<'r, 's>, Global>,
    by: &ByTag<'_>,
) -> (RawBox<Stock<'r, 's>, Global>, bool, Answer)
    requires { none.held ≡ None }
    ensures opens { OpensByTag by.now.tag.now by.now.isolate by.now.bare None (held_content result.0.held) result.2 }
    ensures open { result.1 ≡ is_some result.0.held }
{
    match Stock::open(alloc, by.tag, by.isolate, by.bare) {
        Ok((stock, true)) => boxed(alloc, none, Ok(stock), Answer::Done),
        Ok((stock, false)) => boxed(alloc, none, Ok(stock), Answer::Root),
        Err(fault) => boxed(alloc, none, Err(fault), Answer::Done),
    }
}

/// Opens a bundle where there is none.
fn open_by_rules<'r, 's: 'r>(
    alloc: Global,
    none: RawBox<Stock<'r, 's>, Global>,
    by: &ByRules<'_>,
) -> (RawBox<Stock<'r, 's>, Global>, bool, Answer)
    requires { none.held ≡ None }
    ensures opens { OpensByRules by.now.cardinal.now by.now.ordinal.now by.now.isolate None (held_content result.0.held) result.2 }
    ensures open { result.1 ≡ is_some result.0.held }
{
    let opened = Stock::open_by_rules(alloc, by.cardinal, by.ordinal, by.isolate);
    boxed(alloc, none, opened, Answer::Done)
}

/// Puts a bundle that was opened into a box.
fn boxed<'r, 's: 'r>(
    alloc: Global,
    none: RawBox<Stock<'r, 's>, Global>,
    opened: Result<Stock<'r, 's>, OpenFault>,
    done: Answer,
) -> (RawBox<Stock<'r, 's>, Global>, bool, Answer)
    requires { none.held ≡ None }
    ensures boxed { Boxed done opened.entry (held_content result.0.held) result.2 }
    ensures open { result.1 ≡ is_some result.0.held }
{
    match opened {
        Ok(stock) => match Box::new(alloc, stock) {
            Ok(stock) => (RawBox::of(stock), true, done),
            Err(_) => (none, false, Answer::Fault(SourceFault::Memory)),
        },
        Err(fault) => (none, false, Answer::Fault(SourceFault::Open(fault))),
    }
}

//! What is done of a bundle that may be open.
ghost use Rattle.std.specs.Prelude.{◌≡◌, is_some};
ghost use Rattle.fluent_c_handles.specs.Answers.{BundleCall, KeptCall, WhenOpen, held_content, stock_content};
ghost use Rattle.fluent_c_handles.specs.Inside.Turns.{KeptVisit};

use crate::answer::Answer;
use crate::stock::Stock;
use self_borrow::RawBox;
use std::alloc::Global;

/// What is done of a bundle that may be open.
pub(crate) trait Turn {
    ghost does: { Self → KeptCall };

    /// Does it, and says whether a bundle is open then.
    fn done<'r, 's: 'r>(
        &self,
        alloc: Global,
        stock: RawBox<Stock<'r, 's>, Global>,
        is_open: bool,
    ) -> (RawBox<Stock<'r, 's>, Global>, bool, Answer)
        requires { is_open ≡ is_some stock.held }
        ensures does { does self.now (held_content stock.entry.held) (held_content result.0.held) result.2 }
        ensures open { result.1 ≡ is_some result.0.held };
}

/// What is done of a bundle that may be open by something that keeps what came of it, or hands it on.
pub(crate) trait Visit {
    ghost does: { Self → Self → KeptVisit };

    /// Does it, and says whether a bundle is open then.
    fn done<'r, 's: 'r>(
        &mut self,
        alloc: Global,
        stock: RawBox<Stock<'r, 's>, Global>,
        is_open: bool,
    ) -> (RawBox<Stock<'r, 's>, Global>, bool)
        requires { is_open ≡ is_some stock.held }
        ensures does { does self.old self.new (held_content stock.entry.held) (held_content result.0.held) }
        ensures open { result.1 ≡ is_some result.0.held };
}

/// Does it.
pub(crate) fn make_visit<'r, 's: 'r, V: Visit>(
    alloc: Global,
    stock: RawBox<Stock<'r, 's>, Global>,
    is_open: bool,
    visitor: &mut V,
) -> (RawBox<Stock<'r, 's>, Global>, bool)
    requires { is_open ≡ is_some stock.held }
    ensures { V.does visitor.old visitor.new (held_content stock.entry.held) (held_content result.0.held) × (result.1 ≡ is_some result.0.held) }
{
    visitor.done(alloc, stock, is_open)
}

/// A turn, and what was answered.
#[derive(Drop)]
pub(crate) struct Answering<'t, T> {
    pub turn: &'t T,
    pub answer: Answer,
}

impl<T: Turn> Visit for Answering<'_, T> {
    ghost does = { λ before after old new. T.does before.turn.now old new after.answer };

    fn done<'r, 's: 'r>(
        &mut self,
        alloc: Global,
        stock: RawBox<Stock<'r, 's>, Global>,
        is_open: bool,
    ) -> (RawBox<Stock<'r, 's>, Global>, bool) {
        let (stock, is_open, answer) = self.turn.done(alloc, stock, is_open);
        self.answer = answer;
        (stock, is_open)
    }
}

/// A call of a bundle that is open.
pub(crate) trait Call {
    ghost does: { Self → BundleCall };

    /// Does it.
    fn done<'r, 's: 'r>(&self, alloc: Global, stock: &mut Stock<'r, 's>) -> Answer
        ensures { does self.now (stock_content stock.old) (stock_content stock.new) result };
}

/// The call where a bundle is open, and else nothing.
#[derive(Drop)]
pub(crate) struct OnOpen<'c, C> {
    pub call: &'c C,
}

impl<C: Call> Turn for OnOpen<'_, C> {
    ghost does = { λ it. WhenOpen (C.does it.call.now) };

    fn done<'r, 's: 'r>(
        &self,
        alloc: Global,
        stock: RawBox<Stock<'r, 's>, Global>,
        is_open: bool,
    ) -> (RawBox<Stock<'r, 's>, Global>, bool, Answer) {
        if !is_open {
            return (stock, false, Answer::Closed);
        }
        let mut stock = stock.into_box();
        let answer = self.call.done(alloc, &mut *stock);
        (RawBox::of(stock), true, answer)
    }
}

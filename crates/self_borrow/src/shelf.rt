//! Many values that are borrowed for one lifetime.
ghost use Rattle.std.specs.Prelude.{◌≡◌, ◌<◌, None, IfSome, IsSome, vec_len, vec_capacity};
ghost use Rattle.self_borrow.specs.Loans.{AreFor, IsWithOneOf};

use crate::loans::{Ended, Lifetime, Loan, borrow, regain};
use crate::raw_box::RawBox;
use std::alloc::Global;

/// Values that are borrowed for `'a`, each in a box of its own.
#[derive(Drop)]
pub struct Shelf<'a, T> {
    lifetime: Lifetime<'a>,
    loans: Vec<Loan<T, Global>>,
    ghost same: { AreFor lifetime.life loans.items },
}

impl<'a, T: Drop + 'a> Shelf<'a, T> {
    /// A shelf with nothing on it. Takes no memory.
    pub fn new(alloc: Global) -> Shelf<'a, T> {
        Shelf {
            lifetime: Lifetime::new(),
            loans: Vec::new(alloc),
        }
    }

    /// Puts a value on the shelf and borrows it; `None` where an allocation failed. What was there stays there.
    pub fn put(self, value: Box<T>) -> (Shelf<'a, T>, Option<&'a T>)
        ensures lent { IfSome result.1 (λ r. r.now ≡ value.value) }
        ensures some { IfSome result.1 (λ _. IsWithOneOf value.value self.entry.loans result.0.loans) }
        ensures none { result.1 ≡ None → result.0.loans.items ≡ self.entry.loans.items }
        ensures room { vec_len self.entry.loans < vec_capacity self.entry.loans → IsSome result.1 }
    {
        let Shelf {
            lifetime,
            mut loans,
        } = self;
        if loans.reserve(1).is_err() {
            return (Shelf { lifetime, loans }, None);
        }
        let (lifetime, loan, value) = borrow(lifetime, RawBox::of(value));
        loans.push_reserved(loan);
        (Shelf { lifetime, loans }, Some(value))
    }

    /// What is to be given back once the lifetime has ended.
    pub fn into_loans(self) -> (Lifetime<'a>, Vec<Loan<T, Global>>)
        ensures due { AreFor result.0.life result.1.items }
        ensures all { result.1.items ≡ self.entry.loans.items }
    {
        let Shelf { lifetime, loans } = self;
        (lifetime, loans)
    }
}

/// Frees what was borrowed for a lifetime that has ended.
pub fn regain_all<T: Drop>(ended: Ended, loans: Vec<Loan<T, Global>>)
    requires { AreFor ended.life loans.items }
{
    let mut ended = ended;
    let mut loans = loans;
    while let Some(loan) = loans.pop() {
        let (same, whole) = regain(ended, loan);
        ended = same;
        drop(whole.into_box());
    }
}

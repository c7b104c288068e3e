//! What is borrowed for a lifetime, and comes back once that has ended.
ghost use Rattle.std.specs.Prelude.{◌≡◌, ℕ, List, Some};
ghost use base.Fml.{feq, fdead};
ghost use Rattle.self_borrow.specs.Owned.{loan_owns, IsHeld};

use crate::raw_box::RawBox;
use std::alloc::Allocator;
use std::marker::{Model, PhantomData};

/// Says which lifetime `'a` is.
#[derive(Drop)]
pub struct Lifetime<'a> {
    pub a: PhantomData<&'a ()>,
    pub ghost life: { List ℕ },
}

impl<'a> Model for Lifetime<'a> {
    ghost also_owns = { λ l. feq (List ℕ) l.life 'a };
}

/// Says that a lifetime has ended.
#[derive(Drop)]
pub struct Ended {
    pub ghost life: { List ℕ },
}

impl Model for Ended {
    ghost also_owns = { λ e. fdead e.life };
}

/// The right to have a box back once a lifetime has ended. Where a loan is dropped, its box is never freed.
#[derive(Drop)]
pub struct Loan<T, A: Allocator> {
    ptr: *mut T,
    alloc: A,
    pub ghost life: { List ℕ },
    pub ghost value: { T },
}

impl<T, A: Allocator> Model for Loan<T, A> {
    ghost also_owns = { λ l. loan_owns (A.dealloc_token l.alloc) T.row l.life l.ptr l.value };
}

impl<'a> Lifetime<'a> {
    /// Names the lifetime.
    pub fn new() -> Lifetime<'a> {
        Lifetime { a: PhantomData }
    }
}

/// Borrows what is in a box for all of `'a`.
pub fn borrow<'a, T: 'a, A: Allocator>(
    lifetime: Lifetime<'a>,
    whole: RawBox<T, A>,
) -> (Lifetime<'a>, Loan<T, A>, &'a T)
    requires { IsHeld whole.held }
    ensures value { (whole.held ≡ Some result.1.value) × (result.2.now ≡ result.1.value) }
    ensures life { (result.0.life ≡ lifetime.entry.life) × (result.1.life ≡ lifetime.entry.life) }
{
    let RawBox { ptr, alloc } = whole;
    let value: &'a T = unsafe { &*ptr };
    (lifetime, Loan { ptr, alloc }, value)
}

/// Gives the box back, since its lifetime has ended.
pub fn regain<T, A: Allocator>(ended: Ended, loan: Loan<T, A>) -> (Ended, RawBox<T, A>)
    requires { loan.life ≡ ended.life }
    ensures { (result.0.life ≡ ended.life) × (result.1.held ≡ Some loan.value) }
{
    let Loan { ptr, alloc } = loan;
    (ended, RawBox { ptr, alloc })
}

//! A box by its pointer, or none.
ghost use Rattle.std.specs.Prelude.{◌≡◌, None, Some, Option};
ghost use Rattle.self_borrow.specs.Owned.{maybe_owns, IsHeld};

use std::alloc::Allocator;
use std::marker::Model;
use std::ptr::null_mut;

/// What a box owns, where `held` is a value, and else nothing. Where it is dropped, the box is never freed.
#[derive(Drop)]
pub struct RawBox<T, A: Allocator> {
    pub ptr: *mut T,
    pub alloc: A,
    pub ghost held: { Option T },
}

impl<T, A: Allocator> Model for RawBox<T, A> {
    ghost also_owns = { λ b. maybe_owns (A.dealloc_token b.alloc) T.row b.ptr b.held };
}

impl<T, A: Allocator> RawBox<T, A> {
    /// No box.
    pub fn none(alloc: A) -> RawBox<T, A>
        ensures { result.held ≡ None }
    {
        RawBox {
            ptr: null_mut(),
            alloc,
        }
    }

    /// A box by its pointer.
    pub fn of(value: Box<T, A>) -> RawBox<T, A>
    where
        T: Drop,
        ensures { result.held ≡ Some value.value }
    {
        let (ptr, alloc) = Box::into_raw_with_allocator(value);
        RawBox { ptr, alloc }
    }

    /// The box.
    pub fn into_box(self) -> Box<T, A>
        requires { IsHeld self.held }
        ensures { self.held ≡ Some result.value }
    {
        let RawBox { ptr, alloc } = self;
        unsafe { Box::from_raw(alloc, ptr) }
    }
}

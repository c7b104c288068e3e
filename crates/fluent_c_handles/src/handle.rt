//! A bundle by a handle that C can hold.
ghost use Rattle.std.specs.Prelude.{◌≡◌, None, Some, Option, is_some};
ghost use Rattle.self_borrow.specs.Owned.{IsHeld};
ghost use Rattle.fluent_c_handles.specs.Handles.{handle_owns, held_coded};
ghost use Rattle.fluent_c_handles.specs.declared.stock.Stock.{Stock as Kept};

use crate::closing::{drop_bundle, free_resources, free_sources};
use crate::stock::Stock;
use crate::turns::{Visit, make_visit};
use self_borrow::{Ended, Lifetime, RawBox};
use std::alloc::Global;
use std::marker::Model;
use std::ptr::null_mut;

/// What a handle holds: a bundle, its resources and their sources in one, or nothing.
#[repr(C)]
#[derive(Drop)]
pub struct Handle {
    ptr: *mut u8,
    alloc: Global,
    pub ghost held: { Option Kept } by { held_coded },
}

impl Model for Handle {
    ghost also_owns = { λ h. handle_owns h.alloc h.ptr h.held };
}

impl Handle {
    ghost use Rattle.fluent_c_handles.specs.Answers.{held_content};

    /// Holds nothing.
    pub(crate) fn none(alloc: Global) -> Handle
        ensures { result.held ≡ None }
    {
        Handle {
            ptr: null_mut(),
            alloc,
        }
    }

    /// Does something of what is held, and says whether a bundle is open then.
    pub(crate) fn visit<V: Visit>(
        self,
        alloc: Global,
        is_open: bool,
        visitor: &mut V,
    ) -> (Handle, bool)
        requires { is_open ≡ is_some self.held }
        ensures { V.does visitor.old visitor.new (held_content self.held) (held_content result.0.held) × (result.1 ≡ is_some result.0.held) }
    {
        let Handle { ptr, alloc: own } = self;
        let stock = RawBox {
            ptr: ptr as *mut Stock,
            alloc: own,
        };
        let (stock, is_open) = make_visit(alloc, stock, is_open, visitor);
        let RawBox { ptr, alloc: own } = stock;
        (
            Handle {
                ptr: ptr as *mut u8,
                alloc: own,
            },
            is_open,
        )
    }

    /// Drops the bundle, and then frees the resources, and then their sources.
    pub(crate) fn close(self)
        requires { IsHeld self.held }
    {
        let Handle { ptr, alloc } = self;
        let stock = RawBox {
            ptr: ptr as *mut Stock,
            alloc,
        };
        let (Lifetime { a: _ }, rest) = drop_bundle(stock);
        let (Lifetime { a: _ }, last) = free_resources(Ended {}, rest);
        free_sources(Ended {}, last);
    }
}

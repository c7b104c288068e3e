//! How a bundle is closed: it is dropped, and then what it borrowed is freed.
ghost use Rattle.self_borrow.specs.Owned.{IsHeld};
ghost use Rattle.self_borrow.specs.Loans.{AreFor};

use crate::stock::Stock;
use fluent_bundle::FluentResource;
use self_borrow::{Ended, Lifetime, Loan, RawBox, Shelf, regain_all};
use std::alloc::Global;

/// What is left of a bundle that was dropped.
pub(crate) struct Rest<'s> {
    pub resources: Vec<Loan<FluentResource<'s>, Global>>,
    pub sources: Shelf<'s, String>,
}

/// Drops the bundle.
pub(crate) fn drop_bundle<'r, 's: 'r>(
    stock: RawBox<Stock<'r, 's>, Global>,
) -> (Lifetime<'r>, Rest<'s>)
    requires { IsHeld stock.held }
    ensures { AreFor result.0.life result.1.resources.items }
{
    let (lifetime, resources, sources) = Box::into_inner(stock.into_box()).into_parts();
    (lifetime, Rest { resources, sources })
}

/// What is left of it without the resources.
pub(crate) struct Last {
    pub sources: Vec<Loan<String, Global>>,
}

/// Frees the resources.
pub(crate) fn free_resources<'s>(ended: Ended, rest: Rest<'s>) -> (Lifetime<'s>, Last)
    requires { AreFor ended.life rest.resources.items }
    ensures { AreFor result.0.life result.1.sources.items }
{
    let Rest { resources, sources } = rest;
    regain_all(ended, resources);
    let (lifetime, sources) = sources.into_loans();
    (lifetime, Last { sources })
}

/// Frees the sources.
pub(crate) fn free_sources(ended: Ended, last: Last)
    requires { AreFor ended.life last.sources.items }
{
    let Last { sources } = last;
    regain_all(ended, sources);
}

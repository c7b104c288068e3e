//! The arguments of a call, while they are gathered.

ghost use Rattle.std.specs.Prelude.{◌≡◌, ◌++◌, ◌∷◌, [], IfOk, OnOk};
ghost use Rattle.fluent_resolver_state.specs.Gathered.{of_entries, values_of};
ghost use Rattle.fluent_values.specs.View.{value_view, named};

use fluent_values::{FluentArgs, FluentType, FluentValue};
use std::alloc::{AllocError, Global};
use std::borrow::CowStr;
use std::collections::BTreeMap;

/// So many arguments are put in order one by one. A further one could move each before it, so more than these are
/// ordered by a tree: the time of a call doesn't grow with the square of their number.
pub(crate) const FEW: usize = 16;

/// Named arguments that are gathered one after another.
#[derive(Drop)]
pub enum Gathered<'a, C> {
    Few(FluentArgs<'a, C>),
    Many(BTreeMap<CowStr<'a>, FluentValue<'a, C>>),
}

impl<'a, C: FluentType> Gathered<'a, C> {
    ghost use Rattle.std.specs.Prelude.{◌≡◌, [], IfOk, OnOk};
    ghost use Rattle.fluent_values.specs.View.{value_view, named};
    ghost use Rattle.fluent_resolver_state.specs.Gathered.{gathered, with_value};

    /// None, where so many are expected. Takes no memory yet.
    #[inline(always)]
    pub fn new(alloc: Global, expected: usize) -> Gathered<'a, C>
        ensures { gathered C.content result ≡ [] }
    {
        if expected <= FEW {
            Gathered::Few(FluentArgs::new(alloc))
        } else {
            Gathered::Many(BTreeMap::new(alloc))
        }
    }

    /// Gives the name the value, in place of one that it had.
    ///
    /// # Errors
    ///
    /// An allocation failed.
    #[inline(always)]
    pub fn set(&mut self, name: CowStr<'a>, value: FluentValue<'a, C>) -> Result<(), AllocError>
        ensures { OnOk result (gathered C.content self.new
            ≡ with_value C.content name.entry value.entry (gathered C.content self.old)) }
    {
        match self {
            Gathered::Few(args) => args.set(name, value),
            Gathered::Many(tree) => {
                tree.insert(name, value)?;
                Ok(())
            }
        }
    }

    /// The arguments.
    ///
    /// # Errors
    ///
    /// An allocation failed.
    #[inline(always)]
    pub fn finish(self, alloc: Global) -> Result<FluentArgs<'a, C>, AllocError>
        ensures { IfOk result (λ args. named C.content args ≡ gathered C.content self.entry) }
    {
        match self {
            Gathered::Few(args) => Ok(args),
            Gathered::Many(tree) => in_order(alloc, tree),
        }
    }
}

/// The arguments that a tree holds, which it gives in order.
fn in_order<'a, C: FluentType>(
    alloc: Global,
    tree: BTreeMap<CowStr<'a>, FluentValue<'a, C>>,
) -> Result<FluentArgs<'a, C>, AllocError>
    ensures { IfOk result (λ args. named C.content args ≡ of_entries C.content tree.entry.entries) }
{
    let mut args = FluentArgs::new(alloc);
    for (name, value) in tree {
        args.set(name, value)?;
    }
    Ok(args)
}

/// Adds a value at the end.
#[inline(always)]
pub fn push_value<'p, C: FluentType>(
    values: &mut Vec<FluentValue<'p, C>>,
    value: FluentValue<'p, C>,
) -> Result<(), AllocError>
    ensures { OnOk result (values_of C.content values.new
        ≡ values_of C.content values.old ++ value_view C.content value.entry ∷ []) }
{
    values.push(value)?;
    Ok(())
}

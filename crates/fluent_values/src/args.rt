//! The arguments of a formatting call.
#![tactic(auto, unfolding(crate::specs::View::named, crate::specs::Args::shown_left, crate::specs::Args::given_left))]

ghost use Rattle.std.specs.Prelude.{◌≡◌, ◌≤◌, length};
ghost use Rattle.std.specs.Result.{is_ok};
ghost use Rattle.fluent_values.specs.Inside.Inserted.{inserted};
ghost use Rattle.fluent_values.specs.Names.{NamesRise};

use crate::types::{FluentType, FluentValue};
use std::alloc::{AllocError, Global};
use std::borrow::CowStr;
use std::{slice, vec};

/// Among so many arguments a name is looked for one by one.
const FEW: usize = 8;

/// The values of variables: a map from name to value.
///
/// The pairs stand in the order of the names' bytes. Most calls have a few, which are found in one block of memory
/// faster than in a tree.
pub struct FluentArgs<'a, C> {
    pairs: Vec<(CowStr<'a>, FluentValue<'a, C>)>,
    ghost ordered: { NamesRise pairs.items },
}

// Written out, so that the drop of a pair is proved here, and not in each crate that arguments go out of scope in.
impl<'a, C: Drop> Drop for FluentArgs<'a, C> {
    fn drop(self) {
        let FluentArgs { pairs: _ } = self;
    }
}

impl<'a, C: FluentType> FluentArgs<'a, C> {
    ghost use Rattle.std.specs.Prelude.{◌≡◌, [], List, map, IfOk, IsOk, OnOk, OnErr};
    ghost use Rattle.std.specs.Iterator.{IsFinite, Drains};
    ghost use Rattle.fluent_semantics.specs.Arguments as fin;
    ghost use Rattle.fluent_values.specs.View.{named};
    ghost use Rattle.fluent_values.specs.Args.{CanGive, pair_view, shown_left};
    ghost use Rattle.fluent_values.specs.ArgsCalls.{Finds, Lacks, Sets};
    ghost use Rattle.fluent_values.specs.Names.{IsPlaceOf};

    /// Makes a map with no names in it. It keeps the allocator and takes no memory yet.
    pub fn new(alloc: Global) -> FluentArgs<'a, C>
        ensures { named C.content result ≡ [] }
    {
        FluentArgs {
            pairs: Vec::new(alloc),
        }
    }

    /// Makes a map with no names in it, of which about so many are expected. It takes no memory yet.
    ///
    /// # Errors
    ///
    /// None today.
    pub fn with_capacity(alloc: Global, _capacity: usize) -> Result<FluentArgs<'a, C>, AllocError>
        ensures empty { IfOk result (λ args. named C.content args ≡ []) }
        ensures succeeds { IsOk result }
    {
        Ok(FluentArgs::new(alloc))
    }

    /// Makes a map of the pairs of an iterator that ends. The last value of a name stands.
    ///
    /// # Errors
    ///
    /// An allocation failed, which an iterator that gives nothing can't meet.
    pub fn try_from_iter<I: Iterator<Item = (CowStr<'a>, FluentValue<'a, C>)>>(
        alloc: Global,
        pairs: I,
    ) -> Result<FluentArgs<'a, C>, AllocError>
        requires can { I.can_next pairs }
        requires ends { IsFinite (I.remaining pairs) }
        ensures all { IfOk result (λ args. (given : List _) × Drains I.next_gives pairs given × (named C.content args ≡ fin.set_all (map (pair_view C.content) given) [])) }
        ensures some { OnErr result (CanGive I.next_gives pairs) }
    {
        let mut args = FluentArgs::new(alloc);
        for (name, value) in pairs {
            args.set(name, value)?;
        }
        Ok(args)
    }

    /// The value of a name, or `None` where it has none. Takes no memory.
    pub fn get(&self, name: &str) -> Option<&FluentValue<'a, C>>
        ensures { Finds C.content name.now self.now result }
    {
        if self.pairs.len() <= FEW {
            self.among_few(name)
        } else {
            self.by_order(name)
        }
    }

    /// The same among few, by equality, which looks at the lengths of two names first.
    #[inline(always)]
    fn among_few(&self, name: &str) -> Option<&FluentValue<'a, C>>
        ensures { Finds C.content name.now self.now result }
    {
        for pair in self.pairs.as_slice() {
            if name == pair.0.as_str() {
                return Some(&pair.1);
            }
        }
        None
    }

    /// The same among many, by the order of the names.
    #[inline(never)]
    fn by_order(&self, name: &str) -> Option<&FluentValue<'a, C>>
        ensures { Finds C.content name.now self.now result }
    {
        match self.place_of(name) {
            Ok(at) => Some(&self.pairs[at].1),
            Err(_) => None,
        }
    }

    /// Gives the name the value, in place of one that it had.
    ///
    /// # Errors
    ///
    /// An allocation failed, which only a new name can meet: the arguments are as before, and the pair is
    /// dropped.
    #[inline(always)]
    pub fn set(&mut self, name: CowStr<'a>, value: FluentValue<'a, C>) -> Result<(), AllocError>
        ensures ok { OnOk result (Sets C.content name.entry value.entry self.old self.new) }
        ensures err { OnErr result (named C.content self.new ≡ named C.content self.old) }
        ensures new_name { OnErr result (Lacks C.content name.entry self.old) }
    {
        match self.place_of(name.as_str()) {
            Ok(at) => {
                self.pairs[at] = (name, value);
                Ok(())
            }
            Err(at) => {
                insert_at(&mut self.pairs, at, (name, value))?;
                Ok(())
            }
        }
    }

    /// Where a name stands, or else where it belongs.
    #[inline(always)]
    fn place_of(&self, name: &str) -> Result<usize, usize>
        ensures { IsPlaceOf name.now self.now.pairs.items result }
    {
        self.pairs
            .binary_search_by(|pair| pair.0.as_str().cmp(name))
    }

    /// The names with their values, each name once, in the order of their bytes. Takes no memory.
    pub fn iter(&self) -> ArgsIter<'_, 'a, C>
        ensures all { shown_left C.content result ≡ named C.content self.now }
        ensures rises { fin.IsInOrder (shown_left C.content result) }
    {
        ArgsIter {
            inner: self.pairs.iter(),
        }
    }
}

/// Puts an item at a place among others. After all of them it is pushed, which moves it once less.
#[inline(always)]
fn insert_at<X: Drop>(items: &mut Vec<X>, at: usize, item: X) -> Result<(), AllocError>
    requires { at ≤ length items.old.items }
    ensures { items.new.items ≡ inserted (is_ok result) items.old.items at item }
{
    if at == items.len() {
        items.push(item)?;
    } else {
        items.insert(at, item)?;
    }
    Ok(())
}

/// The names of arguments with their values, borrowed in the order of the names' bytes.
#[derive(Drop)]
pub struct ArgsIter<'x, 'a, C> {
    inner: slice::Iter<'x, (CowStr<'a>, FluentValue<'a, C>)>,
}

impl<'x, 'a, C: FluentType> Iterator for ArgsIter<'x, 'a, C> {
    type Item = (&'x str, &'x FluentValue<'a, C>);

    ghost use Rattle.std.specs.Iterator.{YieldsFirstBy, item_count};
    ghost use Rattle.fluent_values.specs.Args.{borrowed_view, shown_left};

    ghost next_gives = { YieldsFirstBy (borrowed_view C.content) (shown_left C.content) };

    ghost remaining = { item_count (shown_left C.content) };

    fn next(&mut self) -> Option<(&'x str, &'x FluentValue<'a, C>)> {
        match self.inner.next() {
            Some(pair) => Some((pair.0.as_str(), &pair.1)),
            None => None,
        }
    }
}

impl<'a, C: FluentType> IntoIterator for FluentArgs<'a, C> {
    type Item = (CowStr<'a>, FluentValue<'a, C>);

    type IntoIter = ArgsIntoIter<'a, C>;

    ghost use Rattle.std.specs.Prelude.{◌≡◌};
    ghost use Rattle.fluent_semantics.specs.Arguments.{IsInOrder};
    ghost use Rattle.fluent_values.specs.View.{named};
    ghost use Rattle.fluent_values.specs.Args.{given_left};

    ghost into_iter_gives = { λ args result. (given_left C.content result
        ≡ named C.content args) × IsInOrder (given_left C.content result) };

    /// Gives the names with their values away, each name once, in the order of their bytes.
    fn into_iter(self) -> ArgsIntoIter<'a, C> {
        let FluentArgs { pairs } = self;
        ArgsIntoIter {
            inner: pairs.into_iter(),
        }
    }
}

/// The names of arguments with their values, given away in the order of the names' bytes.
#[derive(Drop)]
pub struct ArgsIntoIter<'a, C> {
    inner: vec::IntoIter<(CowStr<'a>, FluentValue<'a, C>)>,
}

impl<'a, C: FluentType> Iterator for ArgsIntoIter<'a, C> {
    type Item = (CowStr<'a>, FluentValue<'a, C>);

    ghost use Rattle.std.specs.Iterator.{YieldsFirstBy, item_count};
    ghost use Rattle.fluent_values.specs.Args.{pair_view, given_left};

    ghost next_gives = { YieldsFirstBy (pair_view C.content) (given_left C.content) };

    ghost remaining = { item_count (given_left C.content) };

    fn next(&mut self) -> Option<(CowStr<'a>, FluentValue<'a, C>)> {
        self.inner.next()
    }
}

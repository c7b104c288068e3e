//! Lists of names.

ghost use Rattle.std.specs.Prelude.{◌≡◌, IfOk};
ghost use Rattle.fluent_places.specs.Asked.{texts};
ghost use Rattle.fluent_patterns.specs.Names.{is_one_of, once};

use indexmap::IndexSet;
use std::alloc::{AllocError, Global};

/// Whether a name is one of these.
pub(crate) fn is_one_of(names: &[&str], name: &str) -> bool
    ensures { result ≡ is_one_of (texts names.now) name.now }
{
    for other in names {
        if name == *other {
            return true;
        }
    }
    false
}

/// Whether a name is one of a set.
#[tactic(auto, using(crate::proofs::Inserted::any_of_texts))]
pub(crate) fn has(names: &IndexSet<&str>, name: &str) -> bool
    ensures { result ≡ is_one_of (texts names.now.keys) name.now }
{
    names.contains(name)
}

/// These names, each once.
pub(crate) fn once<'s>(alloc: Global, names: &[&'s str]) -> Result<IndexSet<&'s str>, AllocError>
    ensures { IfOk result (λ set. texts set.keys ≡ once (texts names.now)) }
{
    let mut set = IndexSet::new(alloc);
    for name in names {
        set.insert(*name)?;
    }
    Ok(set)
}

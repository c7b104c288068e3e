//! The languages that serve somebody, in order.
ghost use Rattle.std.specs.Prelude.{◌≡◌, [], IfOk, OnOk, IsOk};
ghost use Rattle.fluent_langneg.specs.Inside.IndexAmong.{with_index};
ghost use Rattle.fluent_langneg.specs.Lookup.{AreServed, served};

use crate::ranges::lookup;
use std::alloc::{AllocError, Global};
use std::convert::AsStr;

/// Which of the available languages serve somebody, the one that serves best first: for each language range that was
/// requested, in order, the language that [`lookup`] finds, and then the one that it finds for the default. Each is
/// given by its index among the available languages, from 0 on, and each once.
///
/// The list is empty where none of the ranges, nor the default, is served; that takes no memory.
///
/// # Errors
///
/// An allocation failed.
pub fn negotiate<R: AsStr, A: AsStr>(
    alloc: Global,
    requested: &[R],
    available: &[A],
    default: &str,
) -> Result<Vec<usize>, AllocError>
    ensures order { IfOk result
        (AreServed R.text A.text requested.now available.now default.now) }
    ensures succeeds { served R.text A.text requested.now available.now default.now ≡ [] → IsOk result }
{
    let mut indices = Vec::new(alloc);
    for range in requested {
        match lookup(available, range.as_str()) {
            Some(index) => add_index(&mut indices, index)?,
            None => {}
        }
    }
    match lookup(available, default) {
        Some(index) => add_index(&mut indices, index)?,
        None => {}
    }
    Ok(indices)
}

/// Adds an index after the others, unless it stands among them.
fn add_index(indices: &mut Vec<usize>, index: usize) -> Result<(), AllocError>
    ensures { OnOk result (indices.new.items ≡ with_index indices.old.items index) }
{
    if !indices.contains(&index) {
        indices.push(index)?;
    }
    Ok(())
}

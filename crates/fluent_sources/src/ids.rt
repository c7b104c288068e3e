//! Ids and names of attributes that stand there twice, or can't be had.

ghost use Rattle.std.specs.Prelude.{◌≡◌, IfOk, map};
ghost use Rattle.fluent_patterns.specs.Found.{found_in};
ghost use Rattle.fluent_sources.specs.Ids.{found_ids};
ghost use Rattle.fluent_sources.specs.Standing.{standing_view};

use crate::repeated::{add_function_ids, add_repeated};
use crate::standing::Standing;
use crate::taken::add_taken;
use fluent_patterns::Finding;
use std::alloc::{AllocError, Global};

/// The entries whose id one before them has, those whose id is that of the built-in function, and the attributes whose
/// entry has one of their name before, each in order.
///
/// # Errors
///
/// An allocation failed.
pub fn found_ids<'s>(
    alloc: Global,
    standings: &[Standing<'_, 's>],
) -> Result<Vec<Finding<'s>>, AllocError>
    ensures { IfOk result (λ found. found_in found ≡ found_ids (map standing_view standings.now)) }
{
    let mut findings = Vec::new(alloc);
    add_taken(alloc, standings, &mut findings)?;
    add_function_ids(standings, &mut findings)?;
    add_repeated(alloc, standings, &mut findings)?;
    Ok(findings)
}

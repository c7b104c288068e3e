//! Flaws of a value or an attribute as findings.

ghost use Rattle.std.specs.Prelude.{OnOk, map};
ghost use Rattle.fluent_patterns.specs.Found.{AddsFound, flaw_view};
ghost use Rattle.fluent_sources.specs.Standing.{flaws_at, standing_view};

use fluent_patterns::{Finding, Flaw};
use fluent_sources::standing::Standing;
use std::alloc::AllocError;

/// Adds a finding for each flaw of a value or an attribute.
pub(crate) fn add_flaws<'s>(
    standing: &Standing<'_, 's>,
    flaws: &[Flaw<'s>],
    findings: &mut Vec<Finding<'s>>,
) -> Result<(), AllocError>
    ensures { OnOk result
        (AddsFound (flaws_at (standing_view standing.now) (map flaw_view flaws.now)) findings.old findings.new) }
{
    for flaw in flaws {
        findings.push(standing.found(flaw.part, flaw.problem))?;
    }
    Ok(())
}

//! Which findings are reported, and in which order.

ghost use Rattle.std.specs.Prelude.{◌≡◌, OnOk, IfOk};
ghost use Rattle.std.specs.List.{list_any};
ghost use Rattle.std.specs.Str.{bytes_eq};
ghost use Rattle.fluent_patterns.specs.Found.{AddsFound, found_in, found_view};
ghost use Rattle.std.specs.Prelude.{map};
ghost use Rattle.fluent_cli_report.specs.Rows.{if_left, in_order, is_left, left_of};

use fluent_sources::Finding;
use std::alloc::{AllocError, Global};

/// Whether a name is among others.
fn is_among(names: &[&str], name: &str) -> bool
    ensures { result ≡ list_any (λ other. bytes_eq other.now name.now) names.now }
{
    names.iter().any(|other| *other == name)
}

/// Whether the problem of a finding has none of these names.
fn is_left(allowed: &[&str], finding: &Finding<'_>) -> bool
    ensures { result ≡ is_left allowed.now (found_view finding.now) }
{
    !is_among(allowed, finding.problem.name())
}

/// Adds a finding whose problem has none of these names.
fn add_if_left<'s>(
    allowed: &[&str],
    finding: &Finding<'s>,
    left: &mut Vec<Finding<'s>>,
) -> Result<(), AllocError>
    ensures { OnOk result (AddsFound (if_left allowed.now (found_view finding.now)) left.old left.new) }
{
    if is_left(allowed, finding) {
        left.push(*finding)?;
    }
    Ok(())
}

/// The findings whose problem has none of these names.
pub(crate) fn left_of<'s>(
    alloc: Global,
    allowed: &[&str],
    findings: &[Finding<'s>],
) -> Result<Vec<Finding<'s>>, AllocError>
    ensures { IfOk result (λ left. found_in left ≡ left_of allowed.now (map found_view findings.now)) }
{
    let mut left = Vec::new(alloc);
    for finding in findings {
        add_if_left(allowed, finding, &mut left)?;
    }
    Ok(left)
}

/// Sorts findings by file and byte; those of one byte stay in order.
pub(crate) fn sort(findings: &mut Vec<Finding<'_>>) -> Result<(), AllocError>
    ensures { OnOk result (found_in findings.new ≡ in_order (found_in findings.old)) }
{
    findings.sort_by_key(|finding| (finding.spot.file, finding.spot.at))
}

//! Values and attributes of files, with the files in which they stand.

ghost use Rattle.std.specs.Prelude.{◌≡◌, IfOk, OnOk, get_or, map};
ghost use Rattle.fluent_patterns.specs.Found.{found_view, part_view, problem_view, spot_view};
ghost use Rattle.fluent_sources.specs.Groups.{group_view, loaded};
ghost use Rattle.fluent_sources.specs.ReadFiles.{file_view};
ghost use Rattle.fluent_sources.specs.SiteView.{site_view};
ghost use Rattle.fluent_sources.specs.Standing.{AddsStanding, byte_of, found_at, spot_of, standing_view, standings, standings_in, standings_of};

use crate::files::Read;
use crate::groups::Group;
use crate::sites::Site;
use fluent_patterns::{Finding, Part, Problem, Spot};
use std::alloc::{AllocError, Global};

/// A value or an attribute, and the number of the file in which it stands.
#[derive(Clone, Copy, Drop)]
pub struct Standing<'a, 's> {
    pub file: usize,
    pub site: &'a Site<'s>,
}

impl<'s> Standing<'_, 's> {
    /// Where it stands.
    pub fn spot(&self) -> Spot
        ensures { spot_view result ≡ spot_of (standing_view self.now) }
    {
        Spot {
            file: self.file,
            at: self.site.at,
        }
    }

    /// What is wrong with a part of it.
    pub fn found(&self, part: Part, problem: Problem<'s>) -> Finding<'s>
        ensures { found_view result ≡ found_at (standing_view self.now) (part_view part) (problem_view problem.entry) }
    {
        Finding {
            spot: Spot {
                file: self.file,
                at: byte_of(self.site, part),
            },
            place: Some(self.site.place),
            problem,
        }
    }
}

/// The byte where a part stands; where that isn't known, the byte of its value or attribute.
fn byte_of(site: &Site<'_>, part: Part) -> usize
    ensures { result ≡ byte_of (site_view site.now) (part_view part) }
{
    match part {
        Part::Whole => site.at,
        Part::Reference(n) => nth_or(&site.offsets.references, n, site.at),
        Part::Select(n) => nth_or(&site.offsets.selects, n, site.at),
        Part::Variant(n) => nth_or(&site.offsets.variants, n, site.at),
    }
}

/// The offset with this index, if there is one, or else another.
fn nth_or(offsets: &[usize], index: usize, otherwise: usize) -> usize
    ensures { result ≡ get_or offsets.now index otherwise }
{
    match offsets.get(index) {
        Some(offset) => *offset,
        None => otherwise,
    }
}

/// Adds those of a file.
fn add_file<'f, 's>(
    file: &'f Read<'_, 's>,
    list: &mut Vec<Standing<'f, 's>>,
) -> Result<(), AllocError>
    ensures { OnOk result (AddsStanding (standings_of (file_view file.now)) list.old list.new) }
{
    for site in file.sites.as_slice() {
        list.push(Standing {
            file: file.number,
            site,
        })?;
    }
    Ok(())
}

/// Adds those of files.
fn add_files<'f, 's>(
    files: &'f [Read<'_, 's>],
    list: &mut Vec<Standing<'f, 's>>,
) -> Result<(), AllocError>
    ensures { OnOk result (AddsStanding (standings_in (map file_view files.now)) list.old list.new) }
{
    for file in files {
        add_file(file, list)?;
    }
    Ok(())
}

/// The values and attributes of the files of a group.
///
/// # Errors
///
/// An allocation failed.
pub fn standings_in<'g, 's>(
    alloc: Global,
    group: &Group<'g, '_, 's>,
) -> Result<Vec<Standing<'g, 's>>, AllocError>
    ensures { IfOk result (λ list. standings list ≡ standings_in (loaded (group_view group.now))) }
{
    let mut list = Vec::new(alloc);
    add_files(group.beside, &mut list)?;
    add_files(group.own, &mut list)?;
    Ok(list)
}

//! Files that are looked at together.

ghost use Rattle.std.specs.Prelude.{◌≡◌, [], ◌∷◌, map};
ghost use Rattle.fluent_sources.specs.Groups.{alone, group_view, is_paired, of_file, reference_at};
ghost use Rattle.fluent_sources.specs.Parts.{parts_of};
ghost use Rattle.fluent_sources.specs.ReadFiles.{file_view};

use crate::all::AllFiles;
use crate::files::Read;
use std::slice;

/// Which files are looked at together.
#[derive(Clone, Copy, Debug, PartialEq, Eq)]
pub enum Grouping {
    /// All count as one source, and so do their references.
    Together,
    /// Each for itself, without references.
    Each,
    /// Each for itself, with the reference of its number.
    Pairs,
}

/// Files that count as one source, with what they are held against.
#[derive(Clone, Copy)]
pub struct Group<'g, 'a, 's> {
    /// Files that are loaded beside its own.
    pub beside: &'g [Read<'a, 's>],
    pub own: &'g [Read<'a, 's>],
    /// Those that its own files were translated from.
    pub references: &'g [Read<'a, 's>],
}

impl<'g, 'a, 's> Group<'g, 'a, 's> {
    /// Files that stand alone.
    pub fn alone(files: &'g [Read<'a, 's>]) -> Group<'g, 'a, 's>
        ensures { group_view result ≡ alone (map file_view files.now) }
    {
        Group {
            beside: &files[..0],
            own: files,
            references: &files[..0],
        }
    }

    /// All files as one group.
    pub fn of_all(files: &'g AllFiles<'a, 's>) -> Group<'g, 'a, 's>
        ensures { group_view result ≡ parts_of files.now }
    {
        Group {
            beside: &files.list[..files.first],
            own: &files.list[files.first..files.behind],
            references: &files.list[files.behind..],
        }
    }

    /// The group of one of its own files, with the reference of its number where files go in pairs.
    pub fn of_file(
        &self,
        grouping: Grouping,
        index: usize,
        file: &'g Read<'a, 's>,
    ) -> Group<'g, 'a, 's>
        ensures { group_view result
            ≡ of_file grouping (group_view self.now) index (file_view file.now) }
    {
        Group {
            beside: self.beside,
            own: slice::from_ref(file),
            references: reference_at(grouping, self.references, index),
        }
    }
}

/// Whether files go in pairs.
fn is_paired(grouping: Grouping) -> bool
    ensures { result ≡ is_paired grouping }
{
    match grouping {
        Grouping::Pairs => true,
        Grouping::Together | Grouping::Each => false,
    }
}

/// The reference with this index, where files go in pairs.
fn reference_at<'g, 'a, 's>(
    grouping: Grouping,
    references: &'g [Read<'a, 's>],
    index: usize,
) -> &'g [Read<'a, 's>]
    ensures { map file_view result.now
        ≡ reference_at grouping (map file_view references.now) index }
{
    if !is_paired(grouping) {
        return &references[..0];
    }
    let Some(reference) = references.get(index) else {
        return &references[..0];
    };
    slice::from_ref(reference)
}

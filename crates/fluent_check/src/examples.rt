//! Worked rows of what is found.
ghost use Rattle.fluent_check.specs.GroupRows as groups;
ghost use Rattle.fluent_check.specs.WholeRows as wholes;

/// What the linter finds of whole places.
pub fn what_is_wrong_with_whole_places()
    ensures { wholes.Rows }
{}

/// What is found in groups of files.
pub fn what_is_found_in_groups()
    ensures { groups.Rows }
{}

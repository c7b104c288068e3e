//! What is asked of a report.

use fluent_cli_words::Format;

/// How findings look where they are read on a screen.
#[derive(Clone, Copy, Drop)]
pub struct Look {
    /// Whether the line of each is shown, with a mark under the place.
    pub has_caret: bool,
    pub has_color: bool,
}

/// What is asked of a report.
#[derive(Clone, Copy, Drop)]
pub struct ReportOptions<'w> {
    pub format: Format,
    pub look: Look,
    /// Whether only what makes the status 1 is told.
    pub is_quiet: bool,
    /// Whether each finding is told, also where others with its cause are in a report for people.
    pub is_every: bool,
    /// Whether a warning makes the status 1.
    pub is_strict: bool,
    /// The names of problems that are left out.
    pub allowed: &'w [&'w str],
}

//! The number of a line, by an offset in a source.
ghost use Rattle.std.specs.Prelude.{◌≡◌, ◌==◌, count_by};
ghost use Rattle.fluent_c_handles.specs.Calls.Adding.{line_at};
ghost use Rattle.fluent_c_handles.specs.Inside.Counted.{IsCounted};

/// How far the lines of a source are counted: to an offset, with the number of its line.
#[derive(Clone, Copy, Drop)]
pub(crate) struct Counted {
    pub(crate) at: usize,
    pub(crate) line: usize,
}

/// Nothing is counted yet.
pub(crate) const START: Counted = Counted { at: 0, line: 1 };

/// Counts the lines on to an offset, or anew where it stands before. What is past the end counts as the end.
pub(crate) fn counted_to(source: &str, counted: Counted, at: usize) -> Counted
    requires { IsCounted source.now counted }
    ensures line { result.line ≡ line_at source.now at }
    ensures counted { IsCounted source.now result }
{
    let bytes = source.as_bytes();
    let end = at.min(bytes.len());
    let from = if counted.at <= end { counted } else { START };
    let line = from.line + feeds(&bytes[from.at..end]);
    Counted { at: end, line }
}

/// How many line feeds are among bytes.
fn feeds(bytes: &[u8]) -> usize
    ensures { result ≡ count_by (λ c. c == 10) bytes.now }
{
    bytes.iter().filter(|byte| **byte == b'\n').count()
}

//! Where findings stand in files.

ghost use Rattle.std.specs.Prelude.{◌≡◌, IfOk, map};
ghost use Rattle.fluent_patterns.specs.Found.{spot_view};
ghost use Rattle.fluent_sources.specs.Lined.{lined_views};
ghost use Rattle.fluent_sources.specs.Positions.{column_at, line_at, name_at};
ghost use Rattle.fluent_sources.specs.Reading.{read_view};

use crate::lines::Lined;
use crate::source::Source;
use fluent_patterns::Spot;
use fluent_places::LineColumn;
use std::alloc::{AllocError, Global};

/// Sources, each with marks of its lines.
pub fn lined_of<'f>(alloc: Global, sources: &[Source<'f>]) -> Result<Vec<Lined<'f>>, AllocError>
    ensures { IfOk result (λ list. lined_views list.items ≡ map read_view sources.now) }
{
    let mut list = Vec::new(alloc);
    for source in sources {
        list.push(Lined::new(alloc, *source)?)?;
    }
    Ok(list)
}

/// The name of a file.
pub fn name_at<'f>(files: &[Lined<'f>], file: usize) -> &'f str
    ensures { result.now ≡ name_at (lined_views files.now) file }
{
    match files.get(file) {
        Some(lined) => lined.source.name,
        None => "",
    }
}

/// The line and the column of a spot.
pub fn position_at(files: &[Lined<'_>], spot: Spot) -> LineColumn
    ensures line { result.line ≡ line_at (lined_views files.now) (spot_view spot) }
    ensures column { result.column ≡ column_at (lined_views files.now) (spot_view spot) }
{
    match files.get(spot.file) {
        Some(lined) => lined.position(spot.at),
        None => LineColumn { line: 1, column: 1 },
    }
}

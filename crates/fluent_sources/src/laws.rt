//! Laws of what is read.
ghost use Rattle.std.specs.Prelude.{◌≡◌, ℕ, List};
ghost use Rattle.fluent_sources.specs.Files.{Read};
ghost use Rattle.fluent_sources.specs.ReadFiles.{files_of, files_read};
ghost use Rattle.fluent_sources.specs.Reading.{AreRead};
ghost use Rattle.fluent_sources.specs.declared.source.Sources.{Sources};

/// Files that were read have what the grammar reads of their texts.
pub fn files_are_of_texts()
    ensures { (reads : List Read) (sources : Sources) (number : ℕ) → AreRead reads sources
        → files_read number sources ≡ files_of number reads }
{}

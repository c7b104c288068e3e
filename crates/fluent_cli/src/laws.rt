//! Laws of what a run leaves.
ghost use Rattle.fluent_cli.specs.Clean.{FineIsFaultless};

/// Of a check that allows no finding, where its status is 0: all files could be read, and no value and no attribute of its
/// own ever shows an error.
pub fn fine_is_faultless()
    ensures { FineIsFaultless }
{}

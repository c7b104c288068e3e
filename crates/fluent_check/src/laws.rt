//! Laws of what is found.
ghost use Rattle.fluent_check.specs.Linted.{LargeErrorsAreShown};

/// Each error of too many placeables has arguments that show it.
pub fn large_errors_are_shown()
    ensures { LargeErrorsAreShown }
{}

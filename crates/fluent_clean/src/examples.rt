//! Worked rows of what patterns need and ask for.
ghost use Rattle.fluent_clean.specs.Rows.{Needed, Cleanness, Asked, Opened};

/// What patterns need, which are clean, which variables they ask for, and how many placeables they open.
pub fn what_patterns_ask_for()
    ensures needs { Needed }
    ensures cleanness { Cleanness }
    ensures asked { Asked }
    ensures opened { Opened }
{}

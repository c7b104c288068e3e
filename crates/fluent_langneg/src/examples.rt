//! Worked rows of the look-up.
ghost use Rattle.fluent_langneg.specs.Rows.{Answers, Lists, Trials};

/// What is tried for ranges, what serves them, and in which order.
pub fn look_up_cuts_from_the_end()
    ensures trials { Trials }
    ensures answers { Answers }
    ensures lists { Lists }
{}

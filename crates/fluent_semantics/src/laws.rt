//! Laws of the meanings.
//!
//! A crate above has a law by a call of its function, which does nothing. `C` is what custom values
//! stand by: for lists of bytes it is `LinkedList<u8>`, which means such a list itself.

ghost use Rattle.std.specs.Prelude.{◌≡◌, true};
ghost use Rattle.fluent_semantics.specs.Value.{Value};
ghost use Rattle.fluent_semantics.specs.Bundle.{Entry};
ghost use Rattle.fluent_semantics.specs.Marks.{MarksAreBalanced, TextsAreWhole, is_whole};
ghost use Rattle.fluent_semantics.specs.Users.{IsMap, MeansOneThing, AddingKeeps, LastWins, CutsAlike, NothingIsSame, TermsAreClosed, ReachesLimitOnce, AlikeGiveTheSame, ReadsAsDefined};
ghost use Rattle.fluent_semantics.specs.Ahead.{ComesByItself, EventsAreTheRun};
ghost use Rattle.fluent_semantics.specs.Laws.{RunsByItself, CountsByItself, CallsByThemselves, NeverAdds, IsSettled, ReachesLimitBeyond, SameWithin, LimitBeginsBoth, WorkIsBounded};

/// The work of each run is bounded by its limit.
pub fn work_is_bounded<C>()
    ensures { WorkIsBounded C }
{}

/// Where the limit is reached, and what the meanings have in common.
pub fn meanings_agree<C>()
    ensures beyond { ReachesLimitBeyond C }
    ensures within { SameWithin C }
    ensures begins { LimitBeginsBoth C }
{}

/// The substitution meaning is settled.
pub fn meaning_is_settled<C>()
    ensures { IsSettled C }
{}

/// The budgeted meaning is one walk over a pattern, with itself below.
pub fn budgets_pass_through<C>()
    ensures runs { RunsByItself C }
    ensures counts { CountsByItself C }
    ensures never_adds { NeverAdds C }
{}

/// What is ahead of a pattern is one walk over it, with itself below, and its events are those of the run.
pub fn events_are_the_run<C>()
    ensures by_itself { ComesByItself C }
    ensures events { EventsAreTheRun C }
{}

/// What a scope's calls give, and a formatting call, stands beside the counts of the walk over its part.
pub fn calls_pass_through<C>()
    ensures { CallsByThemselves C }
{}

/// What arguments, ids and values come to.
pub fn users_rely_on<C>()
    ensures one_thing { MeansOneThing C }
    ensures adding { AddingKeeps C }
    ensures overriding { LastWins C }
    ensures cuts { CutsAlike C }
    ensures values { NothingIsSame C }
    ensures terms { TermsAreClosed C }
    ensures reaches_limit { ReachesLimitOnce C }
    ensures alike { AlikeGiveTheSame C }
{}

/// As many opening as closing marks are written, where nothing else brings any.
pub fn marks_are_balanced<C>()
    ensures { MarksAreBalanced C }
{}

/// No text of characters ends in the prefix of a mark.
pub fn texts_are_whole()
    ensures { TextsAreWhole }
{}

/// So it is with this one.
pub fn is_a_whole_text(text: &str)
    ensures { is_whole text.now ≡ true }
{}

/// Numbers are read as the decimals' definition says.
pub fn numbers_read_as_defined()
    ensures { ReadsAsDefined }
{}

/// Maps by texts, as arguments and ids stand in: what is set last stands, each key once and in
/// order, and look-ups tell a map.
pub fn maps_are_told_by_look_ups<C>()
    ensures any { IsMap C }
    ensures arguments { IsMap (Value C) }
    ensures ids { IsMap (Entry C) }
{}

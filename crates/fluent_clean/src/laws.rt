//! Laws of clean patterns, and of what is within the limit too.
//!
//! A crate above has a law by a call of its function, which does nothing. `C` is what custom values
//! stand by.

ghost use Rattle.fluent_clean.specs.Laws.{CleanMeansNoErrors, TreesBoundPlaceables, CleanIsWrittenInFull, FineIsWritten, DeeperCountsMore, SetTermsMissNothing, MetIsClean, StuckAreUnclean};

use fluent_semantics::laws;
use std::collections::LinkedList;

/// A clean pattern has no error by substitution, with all arguments that give what it asks for (`errors`); where it
/// opens no more placeables than the bundle's limit, its text by substitution is what is written, with no error
/// (`written`). Any pattern, clean or not, opens at most as many as are counted in its tree, with all references
/// followed (`opened`).
pub fn clean_means_no_errors<C>()
    ensures errors { CleanMeansNoErrors C }
    ensures opened { TreesBoundPlaceables C }
    ensures written { CleanIsWrittenInFull C }
{
    laws::meanings_agree::<C>();
}

/// Where the arguments of a term's reference give what a pattern asks for, it means the same as with these for the
/// application's, by substitution and with a budget: so nothing is missing in it.
pub fn set_terms_miss_nothing<C>()
    ensures { SetTermsMissNothing C }
{}

/// A pattern is clean where all that it needs is there, and is clean where it is a pattern.
pub fn met_is_clean<C>()
    ensures { MetIsClean C }
{}

/// Patterns of which each lacks something, or refers to one of them, are not clean: so none that leads back, or to a
/// cycle.
pub fn stuck_are_unclean<C>()
    ensures { StuckAreUnclean C }
{}

/// The deeper references are followed, the more placeables are counted: the count never falls.
pub fn deeper_counts_more<C>()
    ensures { DeeperCountsMore C }
{}

/// What stands at a place, clean and within the bundle's limit, never shows an error: for all arguments that give what
/// it asks for, its text by substitution is what is written, with no error.
pub fn fine_is_written()
    ensures { FineIsWritten }
{
    clean_means_no_errors::<LinkedList<u8>>();
}

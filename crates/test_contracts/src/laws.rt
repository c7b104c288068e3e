//! A law of the grammar is had by a call.
ghost use Rattle.fluent_grammar_laws.specs.ChunkLaws.{MadeOfChunks, NoneEmpty, RangesWithin};
ghost use Rattle.fluent_grammar_laws.specs.PrefixLaws.{ReadFromThereOn};
ghost use Rattle.fluent_grammar_laws.specs.SliceLaws.{AllSlices};
ghost use Rattle.fluent_grammar_laws.specs.TreeLaws.{AllWellFormed};

use fluent_grammar_laws::{
    chunks_make_up, entries_are_well_formed, junk_ranges_in_order, read_from_there_on,
    texts_are_slices,
};

/// What holds of any source.
pub fn hold_of(source: &str)
    ensures chunks { MadeOfChunks source.now }
    ensures none_empty { NoneEmpty source.now }
    ensures ranges { RangesWithin source.now }
    ensures entries { AllWellFormed source.now }
    ensures slices { AllSlices source.now }
    ensures from_there_on { ReadFromThereOn source.now }
{
    chunks_make_up(source);
    junk_ranges_in_order(source);
    entries_are_well_formed(source);
    texts_are_slices(source);
    read_from_there_on(source);
}

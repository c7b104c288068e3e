//! Laws of the definitions that the reader's contract names. A function here does nothing: its contract is the law.
#![tactic(auto)]

ghost use Rattle.std.specs.Prelude.{ℕ, Bool, false, true};
ghost use Rattle.fluent_grammar_laws.specs.ChunkLaws.{MadeOfChunks, NoneEmpty, RangesWithin};
ghost use Rattle.fluent_syntax.specs.Chunks.{chunk, comment_line, junk, junk_line};
ghost use Rattle.fluent_syntax.specs.Entries as entries;
ghost use Rattle.fluent_syntax.specs.Entries.{attribute, entry, name_of_value};
ghost use Rattle.fluent_syntax.specs.Expressions.{argument, argument_list, attribute_access, digits, expression, function_reference, inline_expression, level, literal, message_reference, named_argument, number_literal, select_expression, string_literal, term_reference, variant, variant_head, variant_key, variant_list, variable_reference};
ghost use Rattle.fluent_grammar_laws.specs.PrefixLaws.{EndsMessage, EndsPattern, EntryReadBefore, ReadBefore, ReadByPrefix, ReadByPrefixAlone, ReadFromThereOn, TakesPrefix, TakesPrefixAtAnyDepth};
ghost use Rattle.fluent_text.specs.Lexical.{blank, blank_block, blank_inline, identifier, line_end};
ghost use Rattle.fluent_syntax.specs.Pieces.{block_placeable, block_text, inline_text, pattern, pattern_element};
ghost use Rattle.fluent_grammar_laws.specs.ReadLaws.{TreeOfPrefix, block_taken, element_taken, text_taken};
ghost use Rattle.fluent_grammar_laws.specs.SliceLaws.{AllSlices};
ghost use Rattle.fluent_grammar_laws.specs.TreeLaws.{AllWellFormed};

/// Nothing of a source is lost: its chunks make it up, and each has a byte.
#[tactic(auto, using(crate::proofs::ChunkLaws::chunk_laws))]
pub fn chunks_make_up(source: &str)
    ensures bytes { MadeOfChunks source.now }
    ensures none_empty { NoneEmpty source.now }
{
    let _ = source;
}

/// The byte ranges of a source's Junks go up and stay within it.
#[tactic(auto, using(crate::proofs::ChunkLaws::chunk_laws))]
pub fn junk_ranges_in_order(source: &str)
    ensures { RangesWithin source.now }
{
    let _ = source;
}

/// Every entry of a source is well-formed: functions by name, arguments in order and by different names, one default in
/// each select, a selector that may be one, and no empty text. Placeables and argument lists stand no deeper in one
/// another than 100.
#[tactic(auto, using(crate::proofs::EntryTrees::all_well_formed))]
pub fn entries_are_well_formed(source: &str)
    ensures { AllWellFormed source.now }
{
    let _ = source;
}

/// Every text in the entries of a source is a slice of the source: the texts of patterns, names and keys, literals as
/// they stand in the source, and Junk.
#[tactic(auto, using(crate::proofs::EntrySlices::all_slices))]
pub fn texts_are_slices(source: &str)
    ensures { AllSlices source.now }
{
    let _ = source;
}

/// What is read at a place depends on the text from there on alone: chunks after other chunks are those of their own bytes.
#[tactic(auto, using(crate::proofs::PrefixLaws::read_from_there_on))]
pub fn read_from_there_on(source: &str)
    ensures { ReadFromThereOn source.now }
{
    let _ = source;
}

/// Each rule of the grammar takes a prefix of a text, at whatever depth: what it leaves is the text's end. A depth counts
/// the placeables and argument lists that may stand in one another.
#[tactic(auto, using(crate::proofs::RulePrefixes::rule_prefixes))]
pub fn rules_take_a_prefix(source: &str)
    ensures identifier { TakesPrefix identifier source.now }
    ensures blank_inline { TakesPrefix blank_inline source.now }
    ensures line_end { TakesPrefix line_end source.now }
    ensures blank_block { TakesPrefix blank_block source.now }
    ensures blank { TakesPrefix blank source.now }
    ensures string { TakesPrefix string_literal source.now }
    ensures number { TakesPrefix number_literal source.now }
    ensures digits { TakesPrefix digits source.now }
    ensures accessor { TakesPrefix attribute_access source.now }
    ensures variable { TakesPrefix variable_reference source.now }
    ensures message_reference { TakesPrefix message_reference source.now }
    ensures function_reference { TakesPrefixAtAnyDepth function_reference source.now }
    ensures term_reference { TakesPrefixAtAnyDepth term_reference source.now }
    ensures inline_expression { TakesPrefixAtAnyDepth inline_expression source.now }
    ensures named_argument { TakesPrefix named_argument source.now }
    ensures argument { TakesPrefixAtAnyDepth argument source.now }
    ensures argument_list { TakesPrefixAtAnyDepth argument_list source.now }
    ensures call_arguments { TakesPrefixAtAnyDepth (λ g. g.brackets) source.now }
    ensures variant_key { TakesPrefix variant_key source.now }
    ensures variant { (depth : ℕ) (default : Bool) →
        TakesPrefix (variant (level depth) default) source.now }
    ensures variant_list { TakesPrefixAtAnyDepth variant_list source.now }
    ensures select { TakesPrefixAtAnyDepth select_expression source.now }
    ensures placeable { TakesPrefixAtAnyDepth (λ g. g.braces) source.now }
    ensures inline_text { TakesPrefix inline_text source.now }
    ensures block_text { TakesPrefix block_text source.now }
    ensures block_placeable { TakesPrefixAtAnyDepth (λ g. block_placeable g.braces) source.now }
    ensures pattern_element { TakesPrefixAtAnyDepth (λ g. pattern_element g.braces) source.now }
    ensures pattern { TakesPrefixAtAnyDepth (λ g. pattern g.braces) source.now }
    ensures attribute { TakesPrefix attribute source.now }
    ensures message { TakesPrefix entries.message source.now }
    ensures term { TakesPrefix entries.term source.now }
    ensures entry { TakesPrefix entry source.now }
    ensures comment { TakesPrefix comment_line source.now }
    ensures junk_line { TakesPrefix junk_line source.now }
    ensures junk { TakesPrefix junk source.now }
{
    let _ = source;
}

/// The tree that a rule of the grammar reads is said by the bytes that it takes, at whatever depth: where it takes the
/// same prefix of two texts, whatever stands after it in each, both trees are equal. Whether it takes that prefix, what
/// stands after it may decide. Lines of text and elements of patterns also note whether a line feed follows them at
/// once; the law is of what they take, and the tree of a pattern has no such note. Line ends, blanks, comments and Junk
/// lines read no tree. What a chunk is, an entry, a comment, blank lines or Junk, is its tree.
#[tactic(auto, using(crate::proofs::ReadLaws::rules_by_tree))]
pub fn read_what_is_taken()
    ensures identifier { TreeOfPrefix identifier }
    ensures blank_inline { TreeOfPrefix blank_inline }
    ensures line_end { TreeOfPrefix line_end }
    ensures blank_block { TreeOfPrefix blank_block }
    ensures blank { TreeOfPrefix blank }
    ensures string { TreeOfPrefix string_literal }
    ensures number { TreeOfPrefix number_literal }
    ensures literal { TreeOfPrefix literal }
    ensures digits { TreeOfPrefix digits }
    ensures accessor { TreeOfPrefix attribute_access }
    ensures variable { TreeOfPrefix variable_reference }
    ensures message_reference { TreeOfPrefix message_reference }
    ensures function_reference { (depth : ℕ) → TreeOfPrefix (function_reference (level depth)) }
    ensures term_reference { (depth : ℕ) → TreeOfPrefix (term_reference (level depth)) }
    ensures inline_expression { (depth : ℕ) → TreeOfPrefix (inline_expression (level depth)) }
    ensures named_argument { TreeOfPrefix named_argument }
    ensures argument { (depth : ℕ) → TreeOfPrefix (argument (level depth)) }
    ensures argument_list { (depth : ℕ) → TreeOfPrefix (argument_list (level depth)) }
    ensures call_arguments { (depth : ℕ) → TreeOfPrefix (level depth).brackets }
    ensures variant_key { TreeOfPrefix variant_key }
    ensures before_variant { (default : Bool) → TreeOfPrefix (variant_head default) }
    ensures variant { (depth : ℕ) (default : Bool) → TreeOfPrefix (variant (level depth) default) }
    ensures variant_list { (depth : ℕ) → TreeOfPrefix (variant_list (level depth)) }
    ensures select { (depth : ℕ) → TreeOfPrefix (select_expression (level depth)) }
    ensures expression { (depth : ℕ) → TreeOfPrefix (expression (level depth)) }
    ensures placeable { (depth : ℕ) → TreeOfPrefix (level depth).braces }
    ensures inline_text { TreeOfPrefix text_taken }
    ensures block_text { TreeOfPrefix block_taken }
    ensures block_placeable { (depth : ℕ) → TreeOfPrefix (block_placeable (level depth).braces) }
    ensures pattern_element { (depth : ℕ) → TreeOfPrefix (element_taken (level depth).braces) }
    ensures pattern { (depth : ℕ) → TreeOfPrefix (pattern (level depth).braces) }
    ensures before_value { TreeOfPrefix name_of_value }
    ensures attribute { TreeOfPrefix attribute }
    ensures message { TreeOfPrefix entries.message }
    ensures term { TreeOfPrefix entries.term }
    ensures entry { TreeOfPrefix entry }
    ensures comment { TreeOfPrefix comment_line }
    ensures junk_line { TreeOfPrefix junk_line }
    ensures junk { TreeOfPrefix junk }
    ensures chunk { TreeOfPrefix chunk }
{}

/// These rules take a prefix of a text, and what they read depends on that prefix and the two bytes after it alone. Two,
/// since a carriage return is text or begins a line end by the byte after it, and a point belongs to a number by the
/// digit after it.
#[tactic(auto, using(crate::proofs::PrefixLaws::rules_by_prefix))]
pub fn read_by_prefix(source: &str)
    ensures identifier { ReadByPrefix identifier source.now }
    ensures before_value { ReadByPrefix name_of_value source.now }
    ensures before_variant { ReadByPrefix (variant_head false) source.now }
    ensures before_default { ReadByPrefix (variant_head true) source.now }
    ensures variable { ReadByPrefix variable_reference source.now }
    ensures message { ReadByPrefix message_reference source.now }
    ensures literal { ReadByPrefix literal source.now }
    ensures named_argument { ReadByPrefix named_argument source.now }
    ensures text { ReadByPrefix inline_text source.now }
    ensures blank { ReadByPrefix blank source.now }
    ensures comment { ReadByPrefix comment_line source.now }
    ensures junk { ReadByPrefix junk source.now }
{
    let _ = source;
}

/// Placeables and call arguments, at whatever depth, take a prefix of a text, and what they read depends on that prefix
/// alone: each ends with its own closing brace or bracket.
#[tactic(auto, using(crate::proofs::KnownPatterns::rules_by_prefix_alone))]
pub fn read_by_prefix_alone(source: &str)
    ensures placeable { (depth : ℕ) → ReadByPrefixAlone (level depth).braces source.now }
    ensures call_arguments { (depth : ℕ) → ReadByPrefixAlone (level depth).brackets source.now }
{
    let _ = source;
}

/// Patterns, attributes, messages, terms and entries take a prefix of a text, and what they read depends on that prefix
/// alone, as long as what stands after it ends them: a line break, blank lines, and then the end of the text or a line
/// that can't belong to them. An entry takes the line break; before the others it stays the same one.
#[tactic(auto, using(crate::proofs::KnownEntries::rules_before))]
pub fn read_before_an_end(source: &str)
    ensures pattern { (depth : ℕ) → ReadBefore EndsPattern
        (pattern (level depth).braces) source.now }
    ensures attribute { ReadBefore EndsPattern attribute source.now }
    ensures message { ReadBefore EndsMessage entries.message source.now }
    ensures term { ReadBefore EndsMessage entries.term source.now }
    ensures entry { EntryReadBefore source.now }
{
    let _ = source;
}

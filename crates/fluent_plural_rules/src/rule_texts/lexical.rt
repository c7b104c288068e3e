//! The parts of plural rules that hold no other: words, values and signs.
ghost use Rattle.std.specs.Prelude.{◌≡◌, ℕ, ◌+◌, ◌<◌, ◌≤◌, Some, drop, length, slice_index};
ghost use Rattle.fluent_text.specs.Parser as parser;
ghost use Rattle.fluent_text.specs.Reading.{found, passed};
ghost use Rattle.fluent_plural_rules.specs.RuleGrammar as spec;
ghost use Rattle.fluent_plural_rules.specs.Inside.RuleReading.{class_test, text_view};

use fluent_intl::decimal::value_of;

/// A set of bytes.
#[derive(Clone, Copy)]
pub(super) enum Class {
    /// Spaces, tabs and CR.
    Blank,
    Letter,
    Digit,
    /// All but `;` and LF.
    Line,
}

#[inline(always)]
fn is_in(class: Class, byte: u8) -> bool
    ensures { (next : ℕ) → class_test class byte next ≡ result }
{
    match class {
        Class::Blank => byte == b' ' || byte == b'\t' || byte == b'\r',
        Class::Letter => byte.is_ascii_alphabetic(),
        Class::Digit => byte.is_ascii_digit(),
        Class::Line => byte != b';' && byte != b'\n',
    }
}

/// How many bytes at the start are of the class.
#[inline(always)]
#[tactic(auto, using(fluent_text::specs::Facts::Runs::the_runs))]
pub(super) fn run_len(s: &str, class: Class) -> usize
    ensures len { result ≡ parser.run_len (class_test class) s.now }
    ensures within { result ≤ length s.now }
{
    let bytes = s.as_bytes();
    'bytes: for at in 0..bytes.len() {
        if !is_in(class, bytes[at]) {
            return at;
        }
    }
    bytes.len()
}

/// The longest prefix of the class, and the rest.
#[inline(always)]
pub(super) fn split_run<'s>(s: &'s str, class: Class) -> (&'s str, &'s str)
    ensures parts { parser.run (class_test class) s.now ≡ Some (result.0.now, result.1.now) }
    ensures lens { length result.0.now + length result.1.now ≡ length s.now }
{
    s.split_at(run_len(s, class))
}

pub(super) fn after_blanks(s: &str) -> &str
    ensures { spec.blanks s.now ≡ Some (tt, result.now) }
{
    split_run(s, Class::Blank).1
}

/// What follows the first byte, which is ASCII.
pub(super) fn after_first(s: &str) -> &str
    requires some { 0 < slice_index s.now 0 }
    requires ascii { slice_index s.now 0 < 128 }
    ensures { result.now ≡ drop 1 s.now }
{
    &s[1..]
}

/// What follows this byte, which is ASCII.
#[tactic(auto, unfolding(fluent_text::specs::Parser::byte))]
pub(super) fn eat(s: &str, byte: u8) -> Option<&str>
    requires some { 0 < byte }
    requires ascii { byte < 128 }
    ensures { passed result ≡ parser.byte byte s.now }
{
    let first = s.as_bytes().first()?;
    if *first != byte {
        return None;
    }
    Some(after_first(s))
}

/// What follows this byte, which may stand after blanks.
#[tactic(auto, unfolding(crate::specs::RuleGrammar::symbol))]
pub(super) fn symbol(s: &str, byte: u8) -> Option<&str>
    requires some { 0 < byte }
    requires ascii { byte < 128 }
    ensures { passed result ≡ spec.symbol byte s.now }
{
    eat(after_blanks(s), byte)
}

/// A run of letters.
#[tactic(auto, unfolding(crate::specs::RuleGrammar::word, fluent_text::specs::Parser::run1))]
pub(super) fn word<'s>(s: &'s str) -> Option<(&'s str, &'s str)>
    ensures { found text_view result ≡ spec.word s.now }
{
    let (word, rest) = split_run(after_blanks(s), Class::Letter);
    if word.is_empty() {
        return None;
    }
    Some((word, rest))
}

/// A run of digits.
#[tactic(auto, unfolding(crate::specs::RuleGrammar::digits, fluent_text::specs::Parser::run1))]
fn digits<'s>(s: &'s str) -> Option<(&'s str, &'s str)>
    ensures { found text_view result ≡ spec.digits s.now }
{
    let (digits, rest) = split_run(after_blanks(s), Class::Digit);
    if digits.is_empty() {
        return None;
    }
    Some((digits, rest))
}

/// The number of a run of digits, where it fits.
#[tactic(auto, unfolding(crate::specs::RuleGrammar::value))]
pub(super) fn value(s: &str) -> Option<(u64, &str)>
    ensures { found (λ n. n) result ≡ spec.value s.now }
{
    let (digits, rest) = digits(s)?;
    let value = value_of(digits.as_bytes())?;
    Some((value, rest))
}

//! The plural rules of a language in the Unicode CLDR.
ghost use Rattle.std.specs.Prelude.{◌≡◌, find, map, slice_get, true, IfSome};
ghost use Rattle.std.specs.Option.{option_map};
ghost use Rattle.fluent_intl.specs.LanguageTags.{folded, same_tag};
ghost use Rattle.fluent_plural_rules.specs.LanguageTable.{cldr_plurals};
ghost use Rattle.fluent_plural_rules.specs.Languages.{content, rules_at, rules_of};
ghost use Rattle.fluent_plural_rules.specs.Inside.Rows as spec;
ghost use Rattle.fluent_plural_rules.specs.Inside.Rows.{AreRead, IsRead, are_in_order, is_row_of, known_content, row_view, text_view};

use crate::languages::{LanguageRules, folded, is_same_tag, parent};
use crate::rows::{ROWS, TEXTS};
use crate::rule_texts::Span;

/// The key of a tag, the tag, and where the texts of its cardinal and its ordinal rules stand.
pub(crate) type Row = (u64, &'static str, usize, usize);

/// A text of rules, and from where to where the rules stand that are read from it.
pub(crate) type KnownText = (&'static str, usize, usize);

/// The rules of a text.
#[derive(Clone, Copy)]
pub(crate) struct Known {
    pub text: &'static str,
    pub rules: Span,
}

/// The rules of a language.
#[derive(Clone, Copy)]
pub(crate) struct KnownRules {
    pub cardinal: Known,
    pub ordinal: Known,
}

/// What [`rules_for`](crate::rules_for) finds in [`cldr_plurals`](crate::cldr_plurals), far sooner: the plural rules of a language
/// in the Unicode CLDR, by its language tag.
///
/// It takes no memory, and looks for each prefix of the tag by halves.
pub fn cldr_rules(tag: &str) -> Option<LanguageRules<'static>>
    ensures { option_map content result ≡ rules_of cldr_plurals tag.now }
{
    let known = known_rules(tag)?;
    Some(LanguageRules {
        cardinal: known.cardinal.text,
        ordinal: known.ordinal.text,
    })
}

/// The rules of a language, by its language tag.
pub(crate) fn known_rules(tag: &str) -> Option<KnownRules>
    ensures texts { option_map known_content result ≡ rules_of cldr_plurals tag.now }
    ensures read { IfSome result AreRead }
{
    let mut asked = tag.as_bytes();
    loop {
        if let Some(known) = known_rules_of(asked) {
            return Some(known);
        }
        asked = parent(asked)?;
    }
}

/// The rules of this very tag.
fn known_rules_of(tag: &[u8]) -> Option<KnownRules>
    ensures texts { option_map known_content result ≡ rules_at cldr_plurals tag.now }
    ensures read { IfSome result AreRead }
{
    let (_, _, cardinal, ordinal) = *row_of(rows(), tag)?;
    Some(KnownRules {
        cardinal: known_text(cardinal)?,
        ordinal: known_text(ordinal)?,
    })
}

/// The text that stands there, with its rules.
fn known_text(at: usize) -> Option<Known>
    ensures text { option_map (λ known. known.text.now) result ≡ slice_get spec.texts at }
    ensures read { IfSome result IsRead }
{
    let (text, from, to) = *texts().get(at)?;
    Some(Known {
        text,
        rules: (from, to),
    })
}

/// The row of this very tag.
fn row_of<'r>(rows: &'r [Row], tag: &[u8]) -> Option<&'r Row>
    requires { are_in_order (map row_view rows.now) ≡ true }
    ensures { option_map (λ row. row_view row.now) result ≡ find (is_row_of tag.now) (map row_view rows.now) }
{
    let key = key(tag);
    let row = rows.get(rows.partition_point(|row| row.0 < key))?;
    if is_same_tag(row.1.as_bytes(), tag) {
        Some(row)
    } else {
        None
    }
}

/// The first eight bytes of a tag as a number, by which the rows are in order.
fn key(tag: &[u8]) -> u64
    ensures { result ≡ spec.key tag.now }
{
    u64::from_be_bytes([
        byte_at(tag, 0),
        byte_at(tag, 1),
        byte_at(tag, 2),
        byte_at(tag, 3),
        byte_at(tag, 4),
        byte_at(tag, 5),
        byte_at(tag, 6),
        byte_at(tag, 7),
    ])
}

/// A byte of a tag as it is compared, or 0 after its end.
fn byte_at(tag: &[u8], at: usize) -> u8
    ensures { result ≡ spec.byte_at at tag.now }
{
    match tag.get(at) {
        Some(byte) => folded(*byte),
        None => 0,
    }
}

fn rows() -> &'static [Row]
    ensures are { map row_view result.now ≡ spec.rows }
    ensures order { are_in_order (map row_view result.now) ≡ true }
{
    &ROWS
}

fn texts() -> &'static [KnownText]
    ensures { map text_view result.now ≡ spec.read_texts }
{
    &TEXTS
}

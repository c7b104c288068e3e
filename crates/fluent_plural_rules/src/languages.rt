//! The plural rules of languages: a table of them, and finding a language in such a table.
ghost use Rattle.std.specs.Prelude.{◌≡◌, ◌==◌, ◌<◌, ◌&&◌, length, find, IfSome};
ghost use Rattle.std.specs.Option.{option_map};
ghost use Rattle.std.specs.Str.Lines.{lines};
ghost use Rattle.fluent_plural_rules.specs.LanguageTable.{cldr_plurals};
ghost use Rattle.fluent_intl.specs.LanguageTags.{alike, folded, is_separator, same_tag};
ghost use Rattle.fluent_plural_rules.specs.Languages.{IsParentOf, content, is_line_of, rules_at, rules_in, rules_of};

use crate::table::PLURALS;

/// The plural rules of a language, as texts.
#[derive(Clone, Copy)]
pub struct LanguageRules<'t> {
    /// For how many there are.
    pub cardinal: &'t str,
    /// For which one it is.
    pub ordinal: &'t str,
}

/// A table of the plural rules of every language that the Unicode CLDR has rules for, as
/// `data/plurals.txt` has it; `und` is CLDR's root.
pub fn cldr_plurals() -> &'static str
    ensures { result.now ≡ cldr_plurals }
{
    PLURALS
}

/// The plural rules of a language in a table, such as [`cldr_plurals`], by its language tag.
///
/// A line of the table is a tag, a tab, the cardinal rules, a tab and the ordinal rules; a line
/// that begins with `#` is a comment. The first line of a tag counts, if it has both tabs. Where
/// that gives no rules, the last subtag is dropped, and again: `pt-AO` has the rules of `pt`.
/// `None` says that nothing is left to drop. In a tag the letters are alike in either case, and so
/// are `-` and `_`.
///
/// It takes no memory, and goes over the table once for each subtag.
pub fn rules_for<'t>(table: &'t str, tag: &str) -> Option<LanguageRules<'t>>
    ensures { option_map content result ≡ rules_of table.now tag.now }
{
    let mut asked = tag.as_bytes();
    loop {
        if let Some(rules) = rules_at(table, asked) {
            return Some(rules);
        }
        asked = parent(asked)?;
    }
}

/// The rules on the first line of this very tag.
fn rules_at<'t>(table: &'t str, tag: &[u8]) -> Option<LanguageRules<'t>>
    ensures { option_map content result ≡ rules_at table.now tag.now }
{
    rules_in(line_of(table, tag)?)
}

/// The first line of this very tag.
fn line_of<'t>(table: &'t str, tag: &[u8]) -> Option<&'t str>
    ensures { option_map (λ line. line.now) result ≡ find (is_line_of tag.now) (lines table.now) }
{
    table.lines().find(|line| is_line_of(line, tag))
}

/// Whether a line is no comment and has this tag.
fn is_line_of(line: &str, tag: &[u8]) -> bool
    ensures { result ≡ is_line_of tag.now line.now }
{
    let name = match line.split_once('\t') {
        Some((name, _)) => name,
        None => line,
    };
    line.as_bytes().first() != Some(&b'#') && is_same_tag(name.as_bytes(), tag)
}

/// The rules on a line, where it has two tabs.
fn rules_in(line: &str) -> Option<LanguageRules<'_>>
    ensures { option_map content result ≡ rules_in line.now }
{
    let (_, texts) = line.split_once('\t')?;
    let (cardinal, ordinal) = texts.split_once('\t')?;
    Some(LanguageRules { cardinal, ordinal })
}

/// Whether two tags are the same but for the case of letters, and `_` for `-`.
pub(crate) fn is_same_tag(a: &[u8], b: &[u8]) -> bool
    ensures { result ≡ same_tag a.now b.now }
{
    a.len() == b.len() && a.iter().zip(b).all(|(x, y)| folded(*x) == folded(*y))
}

/// The tag without its last subtag, unless it has just one.
pub(crate) fn parent(tag: &[u8]) -> Option<&[u8]>
    ensures shorter { IfSome result (λ prefix. length prefix.now < length tag.now) }
    ensures steps { IsParentOf tag.now result }
{
    for end in (0..tag.len()).rev() {
        if is_separator(tag[end]) {
            return Some(&tag[..end]);
        }
    }
    None
}

/// Whether a subtag ends before this byte.
fn is_separator(byte: u8) -> bool
    ensures { result ≡ is_separator byte }
{
    folded(byte) == b'-'
}

/// A byte of a tag as it is compared.
pub(crate) fn folded(byte: u8) -> u8
    ensures { result ≡ folded byte }
{
    if byte == b'_' {
        b'-'
    } else {
        byte.to_ascii_lowercase()
    }
}

//! The plural categories of a language, by its rules.

ghost use Rattle.std.specs.Prelude.{◌≡◌, ◌++◌, ◌∷◌, [], IfOk, OnOk, cond, map};
ghost use Rattle.fluent_semantics.specs.Number as number;
ghost use Rattle.fluent_patterns.specs.Categories as spec;
ghost use Rattle.fluent_patterns.specs.CategoryView.{categories_view, category_view};
ghost use Rattle.fluent_patterns.specs.Languages.{rules_by};
ghost use Rattle.fluent_plural_rules.specs.Languages.{content};

use fluent_intl::{Decimal, MemoizerKind, PluralCategory, PluralOperands, PluralRuleType};
use fluent_plural_rules::{LanguageRules, RuleTexts, cldr_plurals, rules_for};
use std::alloc::{AllocError, Global};

/// The rules of a language that has none.
const NO_RULES: LanguageRules<'static> = LanguageRules {
    cardinal: "",
    ordinal: "",
};

/// The whole numbers below this are looked at.
const NUMBERS: u64 = 1000;

/// A plural category, by its word.
#[derive(Drop)]
pub struct Category {
    pub key: &'static str,
    /// The whole numbers from 0 to 999 that have it.
    pub numbers: Vec<u64>,
    /// Whether any number has it, as far as the rules say.
    pub exists: bool,
}

/// The plural categories of a language: of how many there are, and of which one it is.
#[derive(Drop)]
pub struct Categories {
    pub cardinal: Vec<Category>,
    pub ordinal: Vec<Category>,
    /// Whether a select lacks also a category that no whole number from 0 to 999 has.
    pub all: bool,
}

/// The word of a category.
fn category_word(category: PluralCategory) -> &'static str
    ensures { result.now ≡ number.category_word category }
{
    match category {
        PluralCategory::ZERO => "zero",
        PluralCategory::ONE => "one",
        PluralCategory::TWO => "two",
        PluralCategory::FEW => "few",
        PluralCategory::MANY => "many",
        PluralCategory::OTHER => "other",
    }
}

/// What stands in the text of rules that have a category, unless it is `other`.
fn heading(category: PluralCategory) -> &'static str
    ensures { result.now ≡ number.category_word category ++ 58 ∷ [] }
{
    match category {
        PluralCategory::ZERO => "zero:",
        PluralCategory::ONE => "one:",
        PluralCategory::TWO => "two:",
        PluralCategory::FEW => "few:",
        PluralCategory::MANY => "many:",
        PluralCategory::OTHER => "other:",
    }
}

/// The word of the category of a whole number.
fn word_at(rules: &RuleTexts, kind: PluralRuleType, n: u64) -> &'static str
    ensures { result.now ≡ spec.word_at rules.now kind n }
{
    let operands = PluralOperands::of(&Decimal::from_u64(n), None);
    category_word(rules.select(kind, &operands))
}

/// The whole numbers below a limit that have this category.
#[tactic(auto, using(crate::proofs::CategoryNumbers::numbers_more))]
fn numbers_below(
    alloc: Global,
    limit: u64,
    rules: &RuleTexts,
    kind: PluralRuleType,
    key: &str,
) -> Result<Vec<u64>, AllocError>
    ensures { IfOk result
        (λ list. list.items ≡ spec.numbers_below limit rules.now kind key.now) }
{
    let mut list = Vec::new(alloc);
    for n in 0..limit {
        push_if(word_at(rules, kind, n) == key, n, &mut list)?;
    }
    Ok(list)
}

/// Adds a number, where this holds.
fn push_if(holds: bool, n: u64, list: &mut Vec<u64>) -> Result<(), AllocError>
    ensures { OnOk result (list.new.items ≡ list.old.items ++ cond holds (n ∷ []) []) }
{
    if holds {
        list.push(n)?;
    }
    Ok(())
}

/// Whether a text stands in another.
#[tactic(auto, using(crate::proofs::CategoryNumbers::stands_in_next))]
fn stands_in(part: &str, text: &str) -> bool
    ensures { result ≡ spec.stands_in part.now text.now }
{
    let bytes = text.as_bytes();
    for at in 0..bytes.len() {
        if bytes[at..].starts_with(part.as_bytes()) {
            return true;
        }
    }
    false
}

/// The whole numbers from 0 to 999 that have this category.
#[tactic(auto, unfolding(crate::specs::Categories::numbers_of))]
fn numbers_of(
    alloc: Global,
    rules: &RuleTexts,
    kind: PluralRuleType,
    key: &str,
) -> Result<Vec<u64>, AllocError>
    ensures { IfOk result (λ list. list.items ≡ spec.numbers_of rules.now kind key.now) }
{
    numbers_below(alloc, NUMBERS, rules, kind, key)
}

/// Whether the rules of this text have a category.
fn has_category(text: &str, category: PluralCategory) -> bool
    ensures { result ≡ spec.has_category text.now (number.category_word category) }
{
    category_word(category) == "other" || stands_in(heading(category), text)
}

/// A category by the rules of a kind, and their text.
fn category_by(
    alloc: Global,
    rules: &RuleTexts,
    kind: PluralRuleType,
    text: &str,
    category: PluralCategory,
) -> Result<Category, AllocError>
    ensures { IfOk result
        (λ c. category_view c ≡ spec.category_by rules.now kind text.now category) }
{
    let key = category_word(category);
    Ok(Category {
        key,
        numbers: numbers_of(alloc, rules, kind, key)?,
        exists: has_category(text, category),
    })
}

/// The categories of these rules.
fn kind_by(
    alloc: Global,
    rules: &RuleTexts,
    kind: PluralRuleType,
    text: &str,
) -> Result<Vec<Category>, AllocError>
    ensures { IfOk result
        (λ list. map category_view list.items ≡ spec.kind_by rules.now kind text.now) }
{
    let mut list = Vec::new(alloc);
    list.push(category_by(alloc, rules, kind, text, PluralCategory::ZERO)?)?;
    list.push(category_by(alloc, rules, kind, text, PluralCategory::ONE)?)?;
    list.push(category_by(alloc, rules, kind, text, PluralCategory::TWO)?)?;
    list.push(category_by(alloc, rules, kind, text, PluralCategory::FEW)?)?;
    list.push(category_by(alloc, rules, kind, text, PluralCategory::MANY)?)?;
    list.push(category_by(alloc, rules, kind, text, PluralCategory::OTHER)?)?;
    Ok(list)
}

/// The rules of two texts.
fn parsed(alloc: Global, texts: &LanguageRules<'_>) -> Result<RuleTexts, AllocError>
    ensures { IfOk result (λ rules. rules ≡ rules_by (content texts.now)) }
{
    match RuleTexts::parse(alloc, texts.cardinal, texts.ordinal) {
        Ok(rules) => Ok(rules),
        // All of CLDR's rules can be read, so an allocation failed.
        Err(_) => Err(AllocError),
    }
}

/// The categories of a language by its tag, by the rules of the Unicode CLDR.
///
/// # Errors
///
/// An allocation failed.
pub fn categories_of(alloc: Global, tag: &str, all: bool) -> Result<Categories, AllocError>
    ensures { IfOk result (λ c. categories_view c ≡ spec.categories_of tag.now all) }
{
    let texts = rules_for(cldr_plurals(), tag).unwrap_or(NO_RULES);
    let rules = parsed(alloc, &texts)?;
    Ok(Categories {
        cardinal: kind_by(alloc, &rules, PluralRuleType::CARDINAL, texts.cardinal)?,
        ordinal: kind_by(alloc, &rules, PluralRuleType::ORDINAL, texts.ordinal)?,
        all,
    })
}

/// No categories, where no language is given.
pub fn no_categories(alloc: Global) -> Categories
    ensures { categories_view result ≡ spec.no_categories }
{
    Categories {
        cardinal: Vec::new(alloc),
        ordinal: Vec::new(alloc),
        all: false,
    }
}

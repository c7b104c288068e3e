//! Plural rules as the Unicode CLDR writes them: rule texts, and a table of those of each language.
#![tactic(auto)]

mod cldr;
pub mod languages;
mod rows;
pub mod rule_texts;
mod table;

pub use cldr::cldr_rules;
pub use languages::{LanguageRules, cldr_plurals, rules_for};
pub use rule_texts::{
    RuleFault, RuleTexts, english_agrees_with_its_rules, rules_select_the_first_that_holds,
    same_rule_faults,
};

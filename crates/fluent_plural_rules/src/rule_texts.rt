//! Plural rules that are read from text (Unicode TR35, Part 3, Language Plural Rules).
//!
//! A text has a rule on each line, or between semicolons, as `one: i = 1 and v = 0`.

mod condition;
mod fault;
mod holds;
mod known;
mod laws;
mod lexical;
mod line;
mod lines;
mod relation;
mod stop;
mod tree;

ghost use Rattle.std.specs.Prelude.{◌≡◌};
ghost use Rattle.fluent_plural_rules.specs.LanguageTable.{cldr_plurals};
ghost use Rattle.fluent_plural_rules.specs.Languages.{rules_of};
ghost use Rattle.fluent_plural_rules.specs.RuleMeaning.{category_by};
ghost use Rattle.fluent_plural_rules.specs.RuleTexts.{HasRules, IsParse};
ghost use Rattle.fluent_plural_rules.specs.Inside.RuleReading.{rules_in};

use crate::cldr::known_rules;
pub use fault::{RuleFault, same_rule_faults};
use fluent_intl::{MemoizerKind, PluralCategory, PluralOperands, PluralRuleType};
use holds::category_by;
use known::known_category;
pub use laws::{english_agrees_with_its_rules, rules_select_the_first_that_holds};
use lines::read_rules;
use std::alloc::Global;
use std::marker::Model;
use tree::Rule;
pub(crate) use tree::{KnownRelation, KnownRule, Operand, Range, Span};

/// Rules that were read, or that are known.
#[derive(Drop)]
enum RuleList {
    Read(Vec<Rule>),
    Known(Span),
}

impl RuleList {
    /// The category of the first rule that holds.
    fn category(&self, operands: &PluralOperands) -> PluralCategory
        ensures { result ≡ category_by (rules_in self.now) operands.now }
    {
        match self {
            RuleList::Read(rules) => category_by(rules, operands),
            RuleList::Known(span) => known_category(*span, operands),
        }
    }
}

/// The plural rules of a language, read from its two rule texts.
#[derive(Drop)]
pub struct RuleTexts {
    cardinal: RuleList,
    ordinal: RuleList,
}

impl Model for RuleTexts {
    ghost use Rattle.fluent_plural_rules.specs.RuleTree.{Rules};
    ghost use Rattle.fluent_plural_rules.specs.Inside.RuleReading.{rules_in};

    ghost Value = { Rules };

    ghost view = { λ texts. record { cardinal = rules_in texts.cardinal; ordinal = rules_in texts.ordinal } };
}

impl RuleTexts {
    /// Reads the cardinal and the ordinal rules of a language, each rule on a line or before a semicolon.
    ///
    /// `Syntax` names the first text outside the grammar, of which the cardinal one is read first, and the byte at which its first rule that can't be read begins.
    /// `Memory` says that there was no memory, and of the texts that one of them is more than blanks. Nothing stands after either.
    pub fn parse(alloc: Global, cardinal: &str, ordinal: &str) -> Result<RuleTexts, RuleFault>
        ensures { IsParse cardinal.now ordinal.now result }
    {
        let cardinal = read_rules(alloc, PluralRuleType::CARDINAL, cardinal)?;
        let ordinal = read_rules(alloc, PluralRuleType::ORDINAL, ordinal)?;
        Ok(RuleTexts {
            cardinal: RuleList::Read(cardinal),
            ordinal: RuleList::Read(ordinal),
        })
    }

    /// The rules that the Unicode CLDR has for a language, by its language tag: those of the texts that [`cldr_rules`](crate::cldr_rules)
    /// finds. They are read already, and take no memory.
    pub fn of_language(tag: &str) -> Option<RuleTexts>
        ensures { HasRules (rules_of cldr_plurals tag.now) result }
    {
        let known = known_rules(tag)?;
        Some(RuleTexts {
            cardinal: RuleList::Known(known.cardinal.rules),
            ordinal: RuleList::Known(known.ordinal.rules),
        })
    }
}

impl MemoizerKind for RuleTexts {
    ghost use Rattle.fluent_plural_rules.specs.RuleTexts.{category_of};

    ghost category = { category_of };

    fn select(&self, kind: PluralRuleType, operands: &PluralOperands) -> PluralCategory {
        match kind {
            PluralRuleType::CARDINAL => self.cardinal.category(operands),
            PluralRuleType::ORDINAL => self.ordinal.category(operands),
        }
    }
}

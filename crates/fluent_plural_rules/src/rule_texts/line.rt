//! Rules, each on a line of its own.
ghost use Rattle.std.specs.Prelude.{◌≡◌, Some, IfErr};
ghost use Rattle.std.specs.Option.{option_map};
ghost use Rattle.fluent_text.specs.Parser as parser;
ghost use Rattle.fluent_text.specs.Reading.{found, passed};
ghost use Rattle.fluent_plural_rules.specs.RuleGrammar as spec;
ghost use Rattle.fluent_plural_rules.specs.Inside.RuleReading.{AsksAtKeyword, AsksForRule, Gives, condition_view, rule_view};

use super::condition::condition;
use super::lexical::{Class, after_blanks, split_run, symbol, word};
use super::stop::Stop;
use super::tree::{Relation, Rule};
use fluent_intl::PluralCategory;
use std::alloc::Global;

fn category_named(word: &str) -> Option<PluralCategory>
    ensures { result ≡ spec.category_named word.now }
{
    match word {
        "zero" => Some(PluralCategory::ZERO),
        "one" => Some(PluralCategory::ONE),
        "two" => Some(PluralCategory::TWO),
        "few" => Some(PluralCategory::FEW),
        "many" => Some(PluralCategory::MANY),
        "other" => Some(PluralCategory::OTHER),
        _ => None,
    }
}

#[tactic(auto, unfolding(crate::specs::RuleGrammar::keyword))]
fn keyword(s: &str) -> Option<(PluralCategory, &str)>
    ensures { found (λ x. x) result ≡ spec.keyword s.now }
{
    let (word, rest) = word(s)?;
    let category = category_named(word)?;
    Some((category, rest))
}

/// Whether a rule of this category may stand without a condition.
fn may_lack(category: PluralCategory) -> bool
    ensures { result ≡ spec.may_lack category }
{
    match category {
        PluralCategory::OTHER => true,
        PluralCategory::ZERO => false,
        PluralCategory::ONE => false,
        PluralCategory::TWO => false,
        PluralCategory::FEW => false,
        PluralCategory::MANY => false,
    }
}

#[tactic(auto, unfolding(crate::specs::RuleGrammar::samples))]
fn samples(s: &str) -> Option<&str>
    ensures { passed result ≡ spec.samples s.now }
{
    let rest = symbol(s, b'@')?;
    Some(split_run(rest, Class::Line).1)
}

fn after_samples(s: &str) -> &str
    ensures { parser.skip spec.samples s.now ≡ Some (tt, result.now) }
{
    match samples(s) {
        Some(rest) => rest,
        None => s,
    }
}

/// A condition, where one stands here.
fn optional_condition<'s>(
    alloc: Global,
    s: &'s str,
) -> Result<(Option<Vec<Vec<Relation>>>, &'s str), Stop>
    ensures { Gives (option_map condition_view) result (parser.optional spec.condition s.now) }
{
    match condition(alloc, s) {
        Ok((condition, rest)) => Ok((Some(condition), rest)),
        Err(Stop::Absent) => Ok((None, s)),
        Err(Stop::Memory) => Err(Stop::Memory),
    }
}

#[tactic(auto, unfolding(crate::specs::RuleGrammar::rule))]
fn rule<'s>(alloc: Global, s: &'s str) -> Result<(Rule, &'s str), Stop>
    ensures read { Gives rule_view result (spec.rule s.now) }
    ensures memory { IfErr result (λ stop. AsksAtKeyword stop s.now) }
{
    let (category, rest) = keyword(s).ok_or(Stop::Absent)?;
    let rest = symbol(rest, b':').ok_or(Stop::Absent)?;
    let (condition, rest) = optional_condition(alloc, rest)?;
    if condition.is_none() && !may_lack(category) {
        return Err(Stop::Absent);
    }
    let rule = Rule {
        category,
        condition,
    };
    Ok((rule, after_samples(rest)))
}

/// A rule, where one stands here.
fn optional_rule<'s>(alloc: Global, s: &'s str) -> Result<(Option<Rule>, &'s str), Stop>
    ensures read { Gives (option_map rule_view) result (parser.optional spec.rule s.now) }
    ensures memory { IfErr result (λ stop. AsksAtKeyword stop s.now) }
{
    match rule(alloc, s) {
        Ok((rule, rest)) => Ok((Some(rule), rest)),
        Err(Stop::Absent) => Ok((None, s)),
        Err(Stop::Memory) => Err(Stop::Memory),
    }
}

/// The rule of a line, if it is not blank.
#[tactic(auto, unfolding(crate::specs::RuleGrammar::line))]
pub(super) fn line<'s>(alloc: Global, s: &'s str) -> Result<(Option<Rule>, &'s str), Stop>
    ensures read { Gives (option_map rule_view) result (spec.line s.now) }
    ensures memory { IfErr result (λ stop. AsksForRule stop (spec.line s.now)) }
{
    let (rule, rest) = optional_rule(alloc, s)?;
    let rest = after_blanks(rest);
    if !rest.is_empty() {
        return Err(Stop::Absent);
    }
    Ok((rule, rest))
}

//! Relations of plural rules, and the ranges in them.
ghost use Rattle.std.specs.Prelude.{◌≡◌, Some};
ghost use Rattle.std.specs.Option.{option_map};
ghost use Rattle.fluent_text.specs.Parser as parser;
ghost use Rattle.fluent_text.specs.Reading.{found, passed};
ghost use Rattle.fluent_plural_rules.specs.RuleGrammar as spec;
ghost use Rattle.fluent_plural_rules.specs.Inside.RuleReading.{Gives, number_view, relation_view};

use super::lexical::{eat, symbol, value, word};
use super::stop::Stop;
use super::tree::{Operand, Range, Relation};
use std::alloc::Global;
use std::num::NonZeroU64;

#[tactic(auto, unfolding(crate::specs::RuleGrammar::range_end))]
fn range_end(s: &str) -> Option<(u64, &str)>
    ensures { found (λ n. n) result ≡ spec.range_end s.now }
{
    value(eat(symbol(s, b'.')?, b'.')?)
}

/// A value, or two and what lies between.
#[tactic(auto, unfolding(crate::specs::RuleGrammar::range))]
fn range(s: &str) -> Option<(Range, &str)>
    ensures { found (λ r. r) result ≡ spec.range s.now }
{
    let (first, rest) = value(s)?;
    if let Some((last, after)) = range_end(rest) {
        return Some((Range { first, last }, after));
    }
    let last = first;
    Some((Range { first, last }, rest))
}

#[tactic(auto, unfolding(crate::specs::RuleGrammar::next_range))]
fn next_range(s: &str) -> Option<(Range, &str)>
    ensures { found (λ r. r) result ≡ spec.next_range s.now }
{
    range(symbol(s, b',')?)
}

#[tactic(auto, unfolding(crate::specs::RuleGrammar::range_list))]
fn range_list<'s>(alloc: Global, s: &'s str) -> Result<(Vec<Range>, &'s str), Stop>
    ensures { Gives (λ v. v.items) result (spec.range_list s.now) }
{
    let (first, rest) = range(s).ok_or(Stop::Absent)?;
    let mut found = Vec::new(alloc);
    found.push(first)?;
    more_ranges(rest, found)
}

/// Adds the ranges that come next.
#[tactic(auto, using(fluent_text::specs::Facts::Turns::turns))]
fn more_ranges<'s>(s: &'s str, mut found: Vec<Range>) -> Result<(Vec<Range>, &'s str), Stop>
    ensures { Gives (λ v. v.items) result (spec.more spec.next_range found.items s.now) }
{
    let mut rest = s;
    'listed: for _turn in 0..s.len() {
        let Some((next, after)) = next_range(rest) else {
            return Ok((found, rest));
        };
        if after.len() >= rest.len() {
            return Ok((found, rest));
        }
        found.push(next)?;
        rest = after;
    }
    Ok((found, rest))
}

#[tactic(auto, unfolding(crate::specs::RuleGrammar::operand))]
fn operand(s: &str) -> Option<(Operand, &str)>
    ensures { found (λ x. x) result ≡ spec.operand s.now }
{
    let (word, rest) = word(s)?;
    let operand = operand_named(word)?;
    Some((operand, rest))
}

fn operand_named(word: &str) -> Option<Operand>
    ensures { result ≡ spec.operand_named word.now }
{
    match word {
        "n" => Some(Operand::N),
        "i" => Some(Operand::I),
        "f" => Some(Operand::F),
        "t" => Some(Operand::T),
        "v" => Some(Operand::V),
        "w" => Some(Operand::W),
        "c" => Some(Operand::C),
        "e" => Some(Operand::E),
        _ => None,
    }
}

/// What follows `%`, which is not 0.
#[tactic(auto, unfolding(crate::specs::RuleGrammar::divisor))]
fn divisor(s: &str) -> Option<(NonZeroU64, &str)>
    ensures { found number_view result ≡ spec.divisor s.now }
{
    let (divisor, rest) = value(symbol(s, b'%')?)?;
    let divisor = NonZeroU64::new(divisor)?;
    Some((divisor, rest))
}

#[tactic(auto, unfolding(crate::specs::RuleGrammar::unequal))]
fn unequal(s: &str) -> Option<&str>
    ensures { passed result ≡ spec.unequal s.now }
{
    eat(symbol(s, b'!')?, b'=')
}

/// `=`, which is true, or `!=`.
#[tactic(auto, unfolding(crate::specs::RuleGrammar::comparison))]
fn comparison(s: &str) -> Option<(bool, &str)>
    ensures { found (λ b. b) result ≡ spec.comparison s.now }
{
    if let Some(rest) = symbol(s, b'=') {
        return Some((true, rest));
    }
    Some((false, unequal(s)?))
}

/// What may stand after an operand.
fn optional_divisor(s: &str) -> (Option<NonZeroU64>, &str)
    ensures { parser.optional spec.divisor s.now ≡ Some
        (option_map number_view result.0, result.1.now) }
{
    match divisor(s) {
        Some((divisor, rest)) => (Some(divisor), rest),
        None => (None, s),
    }
}

#[tactic(auto, unfolding(crate::specs::RuleGrammar::relation))]
pub(super) fn relation<'s>(alloc: Global, s: &'s str) -> Result<(Relation, &'s str), Stop>
    ensures { Gives relation_view result (spec.relation s.now) }
{
    let (operand, rest) = operand(s).ok_or(Stop::Absent)?;
    let (divisor, rest) = optional_divisor(rest);
    let (equal, rest) = comparison(rest).ok_or(Stop::Absent)?;
    let (ranges, rest) = range_list(alloc, rest)?;
    let relation = Relation {
        operand,
        divisor,
        equal,
        ranges,
    };
    Ok((relation, rest))
}

//! Conditions of plural rules: relations joined by `and`, and these groups joined by `or`.
ghost use Rattle.std.specs.Prelude.{◌≡◌};
ghost use Rattle.fluent_text.specs.Reading.{passed};
ghost use Rattle.fluent_plural_rules.specs.RuleGrammar as spec;
ghost use Rattle.fluent_plural_rules.specs.Inside.RuleReading.{Gives, relation_view, group_view, condition_view};

use super::lexical::word;
use super::relation::relation;
use super::stop::Stop;
use super::tree::Relation;
use std::alloc::Global;

/// What follows this word.
#[tactic(auto, unfolding(crate::specs::RuleGrammar::named))]
fn named<'s>(s: &'s str, name: &str) -> Option<&'s str>
    ensures { passed result ≡ spec.named name.now s.now }
{
    let (word, rest) = word(s)?;
    if word != name {
        return None;
    }
    Some(rest)
}

#[tactic(auto, unfolding(crate::specs::RuleGrammar::and_relation))]
fn and_relation<'s>(alloc: Global, s: &'s str) -> Result<(Relation, &'s str), Stop>
    ensures { Gives relation_view result (spec.and_relation s.now) }
{
    let rest = named(s, "and").ok_or(Stop::Absent)?;
    relation(alloc, rest)
}

#[tactic(auto, unfolding(crate::specs::RuleGrammar::and_group))]
fn and_group<'s>(alloc: Global, s: &'s str) -> Result<(Vec<Relation>, &'s str), Stop>
    ensures { Gives group_view result (spec.and_group s.now) }
{
    let (first, rest) = relation(alloc, s)?;
    let mut found = Vec::new(alloc);
    found.push(first)?;
    more_relations(alloc, rest, found)
}

/// Adds the relations that come next, each after `and`.
#[tactic(auto, using(fluent_text::specs::Facts::Turns::turns))]
fn more_relations<'s>(
    alloc: Global,
    s: &'s str,
    mut found: Vec<Relation>,
) -> Result<(Vec<Relation>, &'s str), Stop>
    ensures { Gives group_view result (spec.more spec.and_relation (group_view found) s.now) }
{
    let mut rest = s;
    'relations: for _turn in 0..s.len() {
        match and_relation(alloc, rest) {
            Ok((next, after)) => {
                if after.len() >= rest.len() {
                    return Ok((found, rest));
                }
                found.push(next)?;
                rest = after;
            }
            Err(Stop::Absent) => return Ok((found, rest)),
            Err(Stop::Memory) => return Err(Stop::Memory),
        }
    }
    Ok((found, rest))
}

#[tactic(auto, unfolding(crate::specs::RuleGrammar::or_group))]
fn or_group<'s>(alloc: Global, s: &'s str) -> Result<(Vec<Relation>, &'s str), Stop>
    ensures { Gives group_view result (spec.or_group s.now) }
{
    let rest = named(s, "or").ok_or(Stop::Absent)?;
    and_group(alloc, rest)
}

#[tactic(auto, unfolding(crate::specs::RuleGrammar::condition))]
pub(super) fn condition<'s>(
    alloc: Global,
    s: &'s str,
) -> Result<(Vec<Vec<Relation>>, &'s str), Stop>
    ensures { Gives condition_view result (spec.condition s.now) }
{
    let (first, rest) = and_group(alloc, s)?;
    let mut found = Vec::new(alloc);
    found.push(first)?;
    more_groups(alloc, rest, found)
}

/// Adds the groups that come next, each after `or`.
#[tactic(auto, using(fluent_text::specs::Facts::Turns::turns))]
fn more_groups<'s>(
    alloc: Global,
    s: &'s str,
    mut found: Vec<Vec<Relation>>,
) -> Result<(Vec<Vec<Relation>>, &'s str), Stop>
    ensures { Gives condition_view result (spec.more spec.or_group (condition_view found) s.now) }
{
    let mut rest = s;
    'groups: for _turn in 0..s.len() {
        match or_group(alloc, rest) {
            Ok((next, after)) => {
                if after.len() >= rest.len() {
                    return Ok((found, rest));
                }
                found.push(next)?;
                rest = after;
            }
            Err(Stop::Absent) => return Ok((found, rest)),
            Err(Stop::Memory) => return Err(Stop::Memory),
        }
    }
    Ok((found, rest))
}
